// What a call asks for, by its kind.
ghost use Rattle.ffi.specs.Kinds.{KindAsks};

#[derive(Clone, Copy)]
pub(crate) enum Asked {
    Start,
    Run,
    Feed,
    Collect,
    Tally,
    Registers,
    Sector,
}

// No call is of this kind.
#[derive(Clone, Copy)]
pub(crate) struct NoSuchKind;

impl TryFrom<u32> for Asked {
    type Error = NoSuchKind;

    ghost try_from_gives = { KindAsks };

    fn try_from(kind: u32) -> Result<Asked, NoSuchKind> {
        match kind {
            0 => Ok(Asked::Start),
            1 => Ok(Asked::Run),
            2 => Ok(Asked::Feed),
            3 => Ok(Asked::Collect),
            4 => Ok(Asked::Tally),
            5 => Ok(Asked::Registers),
            6 => Ok(Asked::Sector),
            _ => Err(NoSuchKind),
        }
    }
}
