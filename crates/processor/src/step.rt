// A step of the processor by itself.
ghost use Rattle.std.specs.Prelude.{◌≡◌};
ghost use Rattle.processor.specs.Laws.{StaysSound, UnusedBitsIgnored};
ghost use Rattle.processor.specs.Requests.{Comes, processor};

use crate::bytes::store;
use crate::ending::Ending;
use crate::outcome::Outcome;
use crate::registers::Registers;
use crate::request::Request;
use crate::width::Width;

impl Registers {
    // Decides the next instruction, and does it as far as no device is asked. `step` promises this and two laws besides, and has one return for them.
    fn attempt(&mut self, memory: &mut [u8]) -> Result<Outcome, Ending>
        ensures { Comes (processor self.old memory.old) result (processor self.new memory.new) }
    {
        match self.decide(memory)? {
            Request::Passes => {
                self.advance();
                Ok(Outcome::Done)
            }
            Request::Sets { register, value } => {
                self.advance();
                self.set(register, value);
                Ok(Outcome::Done)
            }
            Request::Stores { at, width, value } => {
                // One width an arm makes each copy a move; one call for all three widths is slower by a tenth.
                match width {
                    Width::Byte => store(memory, at, Width::Byte, value),
                    Width::Half => store(memory, at, Width::Half, value),
                    Width::Word => store(memory, at, Width::Word, value),
                }
                self.advance();
                Ok(Outcome::Done)
            }
            Request::Takes(register) => Ok(Outcome::Takes(register)),
            Request::Prints(byte) => Ok(Outcome::Prints(byte)),
            Request::Reads { at, sector } => Ok(Outcome::Reads { at, sector }),
            Request::Writes { at, sector } => Ok(Outcome::Writes { at, sector }),
            Request::Halts => {
                self.advance();
                Ok(Outcome::Halted)
            }
        }
    }

    // The next instruction is done, or ends the processor, or asks something of a device: then nothing has changed yet.
    // Whatever the instruction, r0 stays 0 and memory as long as it was, and bits that no operand uses do not matter.
    pub fn step(&mut self, memory: &mut [u8]) -> Result<Outcome, Ending>
        ensures comes { Comes (processor self.old memory.old) result (processor self.new memory.new) }
        ensures sound { StaysSound }
        ensures unused { UnusedBitsIgnored }
    {
        self.attempt(memory)
    }
}
