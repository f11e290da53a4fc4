// A line of a program: a keyword and its operands.
ghost use Rattle.std.specs.Prelude.{◌≡◌};
ghost use Rattle.assembler.specs.Lines.{line_word};

use crate::keyword::Keyword;
use crate::operand::read_operand;
use text::fault::{FieldFault, in_field};
use text::fields::FieldReader;

// The word that `line` spells, and where it spells none, its first wrong field.
pub(crate) fn read_line(line: &[u8]) -> Result<u32, FieldFault>
    ensures { result ≡ line_word line.now }
{
    let mut fields = FieldReader::new(line);
    let first = fields.field(1)?;
    let keyword = in_field(Keyword::read(first), 1)?;
    let slots = keyword.slots();
    let mut word = keyword.base();
    for (k, slot) in slots.iter().enumerate() {
        let value = read_operand(&mut fields, slot.kind, k + 2)?;
        word += value * slot.weight;
    }
    fields.end(slots.len() + 2)?;
    Ok(word)
}
