// The operands of a line: registers and numbers.
ghost use Rattle.std.specs.Prelude.{◌≡◌, ◌≤◌, IfOk};
ghost use Rattle.u5.specs.Operations.{largest};
ghost use Rattle.assembler.specs.Lines.{register_of, read_as, OperandRead};

use text::fault::{Cause, FieldFault, in_field};
use text::fields::FieldReader;
use text::number::read_number;
use u5::operand::Register;
use u5::operation::Kind;

// The number of the register that `field` names: by r and its number, or by its alias.
fn read_register(field: &[u8]) -> Result<u32, Cause>
    ensures reads { result ≡ register_of field.now }
    ensures bound { IfOk result (λ n. n ≤ 63) }
{
    if let Some(register) = Register::by_alias(field) {
        return Ok(u32::from(register.number));
    }
    if let [b'r', digits @ ..] = field {
        if let Ok(number) = read_number(digits, 63) {
            return Ok(number);
        }
    }
    Err(Cause::Spelling)
}

fn read_as(kind: Kind, field: &[u8]) -> Result<u32, Cause>
    ensures reads { result ≡ read_as kind field.now }
    ensures bound { IfOk result (λ n. n ≤ largest kind) }
{
    match kind {
        Kind::Register => read_register(field),
        Kind::Number(limit) => read_number(field, limit),
    }
}

// The number of the operand in the next field, which is the one with this number.
pub(crate) fn read_operand(
    fields: &mut FieldReader,
    kind: Kind,
    number: usize,
) -> Result<u32, FieldFault>
    ensures reads { OperandRead fields.old kind number result fields.new }
    ensures bound { IfOk result (λ n. n ≤ largest kind) }
{
    let field = fields.field(number)?;
    in_field(read_as(kind, field), number)
}
