// The calls that a line can make.
use text::fault::{Cause, FieldFault, in_field};
use text::fields::FieldReader;
use text::number::read_number;

// The longest memory that can be asked for.
const MEMORY: u32 = 2_097_152;

#[derive(Clone, Copy)]
pub(crate) enum Call<'a> {
    Memory(u32),
    Start,
    Run(u32),
    Feed(&'a [u8]),
    Collect(u32),
    Tally(&'a [u8]),
    Registers,
    Open { candidate: u32, grant: u32 },
    Draw(u32),
    GiveBack(u32),
    Settle(u32),
    Void,
}

impl Call<'_> {
    // The number of the field that would be one too many on its line.
    fn extra(self) -> usize {
        match self {
            Call::Start | Call::Registers | Call::Void => 2,
            Call::Open { .. } => 4,
            _ => 3,
        }
    }
}

// A field that is a number up to a limit.
fn number(fields: &mut FieldReader, place: usize, limit: u32) -> Result<u32, FieldFault> {
    let field = fields.field(place)?;
    in_field(read_number(field, limit), place)
}

// A call that has a number behind its word.
fn with_number<'a>(word: &[u8], fields: &mut FieldReader<'a>) -> Result<Call<'a>, FieldFault> {
    let count = number(fields, 2, u32::MAX)?;
    match word {
        b"run" => Ok(Call::Run(count)),
        b"collect" => Ok(Call::Collect(count)),
        b"draw" => Ok(Call::Draw(count)),
        b"give-back" => Ok(Call::GiveBack(count)),
        b"settle" => Ok(Call::Settle(count)),
        b"open" => Ok(Call::Open {
            candidate: count,
            grant: number(fields, 3, u32::MAX)?,
        }),
        _ => in_field(Err(Cause::Spelling), 1),
    }
}

fn by_word<'a>(word: &[u8], fields: &mut FieldReader<'a>) -> Result<Call<'a>, FieldFault> {
    match word {
        b"start" => Ok(Call::Start),
        b"registers" => Ok(Call::Registers),
        b"void" => Ok(Call::Void),
        b"feed" => Ok(Call::Feed(fields.field(2)?)),
        b"tally" => Ok(Call::Tally(fields.field(2)?)),
        b"memory" => Ok(Call::Memory(number(fields, 2, MEMORY)?)),
        _ => with_number(word, fields),
    }
}

// The call that a line makes; a fault where it makes none.
pub(crate) fn read_call(line: &[u8]) -> Result<Call<'_>, FieldFault> {
    let mut fields = FieldReader::new(line);
    let word = fields.field(1)?;
    let call = by_word(word, &mut fields)?;
    fields.end(call.extra())?;
    Ok(call)
}

// The three fields of a line that names a disk or a console; a third that is not there is empty.
pub(crate) fn three_fields(line: &[u8]) -> Result<(&[u8], &[u8], &[u8]), FieldFault> {
    let mut fields = FieldReader::new(line);
    let word = fields.field(1)?;
    let kind = fields.field(2)?;
    let file = fields.field(3).unwrap_or(b"");
    fields.end(4)?;
    Ok((word, kind, file))
}
