// How many bytes of memory an access has.
ghost use Rattle.std.specs.Prelude.{◌≡◌, ◌<◌, ◌≤◌};
ghost use Rattle.processor.specs.Widths.{size};

#[derive(Clone, Copy, PartialEq, Eq, Debug)]
pub enum Width {
    Byte,
    Half,
    Word,
}

impl Width {
    pub(crate) fn size(self) -> usize
        ensures value { result ≡ size self }
        ensures some { 0 < result }
        ensures bound { result ≤ 4 }
    {
        match self {
            Width::Byte => 1,
            Width::Half => 2,
            Width::Word => 4,
        }
    }
}
