// A line of a sheet: its letter, and what follows it.
ghost use Rattle.std.specs.Prelude.{◌≡◌};
ghost use Rattle.sheet.specs.Lines.{word_mark, byte_mark, stored_mark, ends_mark, by_letter, line_mark};

use crate::fields::{ending, letter, read_points, read_up_to};
use crate::mark::Mark;
use text::fault::{Cause, FieldFault, in_field};
use text::fields::FieldReader;
use u5::operand::Register;

fn word_mark(fields: &mut FieldReader) -> Result<Mark, FieldFault>
    ensures { result ≡ word_mark fields.old }
{
    let number = read_up_to(fields, 2, 63)?;
    let word = read_up_to(fields, 3, u32::MAX)?;
    let points = read_points(fields, 4)?;
    let register = Register {
        number: number as u8,
    };
    Ok(Mark::Word {
        register,
        word,
        points,
    })
}

fn byte_mark(fields: &mut FieldReader) -> Result<Mark, FieldFault>
    ensures { result ≡ byte_mark fields.old }
{
    let address = read_up_to(fields, 2, 1_048_575)?;
    let byte = read_up_to(fields, 3, 255)?;
    let points = read_points(fields, 4)?;
    Ok(Mark::Byte {
        address,
        byte,
        points,
    })
}

fn stored_mark(fields: &mut FieldReader) -> Result<Mark, FieldFault>
    ensures { result ≡ stored_mark fields.old }
{
    let sector = read_up_to(fields, 2, 65_535)?;
    let offset = read_up_to(fields, 3, 511)?;
    let byte = read_up_to(fields, 4, 255)?;
    let points = read_points(fields, 5)?;
    Ok(Mark::Stored {
        sector,
        offset,
        byte,
        points,
    })
}

fn ends_mark(fields: &mut FieldReader) -> Result<Mark, FieldFault>
    ensures { result ≡ ends_mark fields.old }
{
    let field = fields.field(2)?;
    let ending = in_field(ending(field), 2)?;
    let points = read_points(fields, 3)?;
    Ok(Mark::Ends { ending, points })
}

// What follows the letter.
fn by_letter(letter: char, fields: &mut FieldReader) -> Result<Mark, FieldFault>
    ensures { result ≡ by_letter letter fields.old }
{
    match letter {
        'R' => word_mark(fields),
        'M' => byte_mark(fields),
        'D' => stored_mark(fields),
        'E' => ends_mark(fields),
        _ => Err(FieldFault {
            field: 1,
            cause: Cause::Spelling,
        }),
    }
}

// The mark that a line tells, or its first wrong field.
pub(crate) fn read_line(line: &[u8]) -> Result<Mark, FieldFault>
    ensures { result ≡ line_mark line.now }
{
    let mut fields = FieldReader::new(line);
    let first = fields.field(1)?;
    let letter = in_field(letter(first), 1)?;
    by_letter(letter, &mut fields)
}
