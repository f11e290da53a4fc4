// Why a sheet gives no points.
ghost use Rattle.std.specs.Prelude.{◌≡◌};

use text::fault::Fault;

// The sheet is over 65,536 bytes long, or not in form.
#[derive(Clone, Copy, PartialEq, Eq, Debug)]
pub enum SheetRefusal {
    TooLong,
    Form(Fault),
}

impl From<Fault> for SheetRefusal {
    ghost use Rattle.sheet.specs.declared.refusal.SheetRefusal.TheVariants.{Form};

    ghost from_gives = { λ fault refusal. refusal ≡ Form fault };

    fn from(fault: Fault) -> SheetRefusal {
        SheetRefusal::Form(fault)
    }
}
