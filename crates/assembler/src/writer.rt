// Bytes written one after another into a lent buffer.
ghost use Rattle.std.specs.Prelude.{◌≡◌, ◌≤◌, length};
ghost use Rattle.text.specs.Numerals.{spelled};
ghost use Rattle.assembler.specs.Writes.{Writes, HasRoom};

// A buffer, and where the next piece begins.
#[derive(Drop)]
pub(crate) struct Writer<'a> {
    out: &'a mut [u8],
    end: usize,
}

impl<'a> Writer<'a> {
    // It begins at the front. The name says that the lender gets the buffer back as the writer leaves it.
    pub(crate) fn new(out: &'a mut [u8]) -> Writer<'a>
        ensures same { result.out.now ≡ out.old }
        ensures front { result.end ≡ 0 }
        ensures lender { result.out.ghost_name ≡ out.entry.ghost_name }
    {
        Writer { out, end: 0 }
    }

    // Where the last piece ends.
    pub(crate) fn end(&self) -> usize
        ensures { result ≡ self.now.end }
    {
        self.end
    }

    pub(crate) fn piece(&mut self, piece: &[u8])
        requires { HasRoom self.old (length piece.now) }
        ensures { Writes self.old piece.now self.new }
    {
        let end = self.end + piece.len();
        self.out[self.end..end].copy_from_slice(piece);
        self.end = end;
    }

    // The digits of `n`.
    pub(crate) fn number(&mut self, n: u32)
        requires { HasRoom self.old (length (spelled n)) }
        ensures { Writes self.old (spelled n) self.new }
    {
        let last = [b'0' + (n % 10) as u8];
        if n < 10 {
            return self.piece(&last);
        }
        self.number(n / 10);
        self.piece(&last);
    }
}
