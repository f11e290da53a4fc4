// What a line begins with: an operation, or WORD.
ghost use Rattle.std.specs.Prelude.{◌≡◌, ◌<◌, All};
ghost use Rattle.assembler.specs.Keywords.{spelling, base, slots, keyword_of};

use text::fault::Cause;
use u5::operation::{Kind, Operation, Slot};

// The word as a number.
const WHOLE: Slot = Slot {
    kind: Kind::Number(u32::MAX),
    weight: 1,
};

// An operation, or WORD, which gives a word as a number.
#[derive(Clone, Copy, PartialEq, Eq, Debug)]
pub enum Keyword {
    Of(Operation),
    Word,
}

impl Keyword {
    pub(crate) fn spelling(self) -> &'static [u8]
        ensures { result.now ≡ spelling self }
    {
        match self {
            Keyword::Of(operation) => operation.spelling(),
            Keyword::Word => b"WORD",
        }
    }

    // The word with every operand 0.
    pub(crate) fn base(self) -> u32
        ensures { result ≡ base self }
    {
        match self {
            Keyword::Of(operation) => operation.opcode() * 0x800_0000,
            Keyword::Word => 0,
        }
    }

    // The places of the operands, in order.
    pub(crate) fn slots(self) -> &'static [Slot]
        ensures value { result.now ≡ slots self }
        ensures weigh { All (λ s. 0 < s.weight) result.now }
    {
        match self {
            Keyword::Of(operation) => operation.slots(),
            Keyword::Word => &[WHOLE],
        }
    }

    pub(crate) fn read(field: &[u8]) -> Result<Keyword, Cause>
        ensures { result ≡ keyword_of field.now }
    {
        if field == Keyword::Word.spelling() {
            return Ok(Keyword::Word);
        }
        Operation::named(field)
            .map(Keyword::Of)
            .ok_or(Cause::Spelling)
    }
}
