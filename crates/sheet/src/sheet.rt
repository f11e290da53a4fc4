// Marking by a sheet.
ghost use Rattle.std.specs.Prelude.{◌≡◌, ℕ, ◌≤◌, List, length, Ok};
ghost use Rattle.processor.specs.Requests.{processor};
ghost use Rattle.text.specs.Pieces.{pieces};
ghost use Rattle.sheet.specs.Grammar.{Tell};
ghost use Rattle.sheet.specs.Lines.{marks_from};
ghost use Rattle.sheet.specs.Marks.{Earn};
ghost use Rattle.sheet.specs.Sheets.{Score, Gives};

use crate::line::read_line;
use crate::mark::Mark;
use crate::refusal::SheetRefusal;
use crate::remains::Remains;
use disk::Readable;
use text::fault::{Fault, on_line};
use text::lines::LineReader;

impl<D: Readable> Remains<'_, D> {
    // What the lines of a sheet earn together.
    fn earn(&self, sheet: &[u8]) -> Result<u32, Fault>
        requires { length sheet.now ≤ 65536 }
        ensures { Score (processor self.now.registers.now self.now.memory.now) (D.Readable.sectors self.now.disk.now) self.now.ending (marks_from 1 (pieces 10 sheet.now)) result }
    {
        let mut lines = LineReader::new(sheet);
        // The reader tells a missing newline as often as it is asked, so it is no Iterator that ends: the lines are counted here.
        let mut count = 0;
        let mut total = 0;
        while let Some(line) = on_line(lines.line(), count + 1)? {
            let mark = on_line(read_line(line), count + 1)?;
            total += self.worth(mark);
            count += 1;
        }
        Ok(total)
    }

    // The points that a sheet gives: a whole sheet is in form before any point counts.
    pub fn give(&self, sheet: &[u8]) -> Result<u32, SheetRefusal>
        ensures gives { Gives (processor self.now.registers.now self.now.memory.now) (D.Readable.sectors self.now.disk.now) self.now.ending sheet.now result }
        ensures accepts { (ms : List Mark) (points : ℕ) → length sheet.now ≤ 65536 → Tell (pieces 10 sheet.now) ms → Earn (processor self.now.registers.now self.now.memory.now) (D.Readable.sectors self.now.disk.now) self.now.ending ms points → result ≡ Ok points }
    {
        self.read(sheet)
    }

    // `give` promises this and a theorem besides, and has one return for it.
    fn read(&self, sheet: &[u8]) -> Result<u32, SheetRefusal>
        ensures { Gives (processor self.now.registers.now self.now.memory.now) (D.Readable.sectors self.now.disk.now) self.now.ending sheet.now result }
    {
        if sheet.len() > 65_536 {
            return Err(SheetRefusal::TooLong);
        }
        Ok(self.earn(sheet)?)
    }
}
