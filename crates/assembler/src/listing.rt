// The line of a word.
ghost use Rattle.std.specs.Prelude.{◌≡◌, ◌+◌, ◌<◌, ◌≤◌, [], ◌∷◌, ◌++◌, length};
ghost use Rattle.u5.specs.Operations.{largest};
ghost use Rattle.u5.specs.Slots.{part};
ghost use Rattle.assembler.specs.Keywords.{slots};
ghost use Rattle.assembler.specs.Listing.{operand_text, tail, listed_as, listed};
ghost use Rattle.assembler.specs.Writes.{Writes, HasRoom};

use crate::keyword::Keyword;
use crate::writer::Writer;
use u5::instruction::Instruction;
use u5::operand::Register;
use u5::operation::{Kind, Slot};

// What stands in `word` at the place of an operand.
fn part_of(slot: Slot, word: u32) -> u32
    requires { 0 < slot.weight }
    ensures value { result ≡ part slot word }
    ensures bound { result ≤ largest slot.kind }
{
    let limit = match slot.kind {
        Kind::Register => 63,
        Kind::Number(limit) => limit,
    };
    (u64::from(word / slot.weight) % (u64::from(limit) + 1)) as u32
}

// The operation whose exact encoding the word is, or else WORD.
fn listed_as(word: u32) -> Keyword
    ensures { result ≡ listed_as word }
{
    match Instruction::decode(word) {
        Some(instruction) if instruction.encode() == word => Keyword::Of(instruction.operation()),
        _ => Keyword::Word,
    }
}

fn write_operand(writer: &mut Writer, kind: Kind, n: u32)
    requires fits { n ≤ largest kind }
    requires room { HasRoom writer.old (length (operand_text kind n)) }
    ensures { Writes writer.old (operand_text kind n) writer.new }
{
    match kind {
        Kind::Register => writer.piece(Register { number: n as u8 }.alias()),
        Kind::Number(_) => writer.number(n),
    }
}

fn write_operands(writer: &mut Writer, keyword: Keyword, word: u32)
    requires { HasRoom writer.old (length (tail (slots keyword) word)) }
    ensures { Writes writer.old (tail (slots keyword) word) writer.new }
{
    for slot in keyword.slots() {
        writer.piece(b"\t");
        write_operand(writer, slot.kind, part_of(*slot, word));
    }
}

// Writes the line of `word`, with its newline.
pub(crate) fn write_line(writer: &mut Writer, word: u32)
    requires { HasRoom writer.old 19 }
    ensures { Writes writer.old (listed word ++ (10 ∷ [])) writer.new }
{
    let keyword = listed_as(word);
    writer.piece(keyword.spelling());
    write_operands(writer, keyword, word);
    writer.piece(b"\n");
}
