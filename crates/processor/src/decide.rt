// What the next instruction comes to: this only reads.
ghost use Rattle.std.specs.Prelude.{◌≡◌, ◌+◌, ◌^◌, ◌<◌, length, Ok};
ghost use Rattle.processor.specs.Effects.{value, load as load_effect, store as store_effect, effect};
ghost use Rattle.processor.specs.Widths.{size};
ghost use Rattle.processor.specs.Words.{low};
ghost use Rattle.processor.specs.Requests.{Asks, Decides, processor, seen, if_placed, transfer};

use crate::bytes::load;
use crate::ending::Ending;
use crate::registers::Registers;
use crate::request::Request;
use crate::width::Width;
use u5::instruction::Instruction;
use u5::operand::Register;

const COUNTER: Register = Register { number: 63 };

// What an instruction reads: the registers, r63 moved on, and memory.
#[derive(Clone, Copy)]
struct Sight<'a> {
    registers: &'a Registers,
    memory: &'a [u8],
}

impl Sight<'_> {
    fn value(&self, r: Register) -> u32
        ensures { result ≡ value (seen self.now) r }
    {
        self.registers.operand(r)
    }

    // What two registers add up to: a result, or an address.
    fn sum(&self, b: Register, c: Register) -> u32
        ensures { result ≡ low (value (seen self.now) b + value (seen self.now) c) }
    {
        self.value(b).wrapping_add(self.value(c))
    }

    fn load(&self, width: Width, a: Register, at: u32) -> Result<Request, Ending>
        ensures { Asks (λ p _. load_effect (size width) a at p) (seen self.now) result }
    {
        let at = at as usize;
        if at + width.size() > self.memory.len() {
            return Err(Ending::Range);
        }
        Ok(Request::Sets {
            register: a,
            value: load(self.memory, at, width),
        })
    }

    fn store(&self, width: Width, a: Register, at: u32) -> Result<Request, Ending>
        ensures { Asks (λ p _. store_effect (size width) a at p) (seen self.now) result }
    {
        let at = at as usize;
        placed(self.memory, at, width.size())?;
        Ok(Request::Stores {
            at,
            width,
            value: self.value(a),
        })
    }

    // The address and the sector that two registers name.
    fn transfer(&self, a: Register, b: Register) -> Result<(usize, u32), Ending>
        ensures { result ≡ transfer (seen self.now) a b }
    {
        let at = self.value(a) as usize;
        placed(self.memory, at, 512)?;
        Ok((at, self.value(b)))
    }

    fn divide(&self, a: Register, b: Register, c: Register) -> Result<Request, Ending>
        ensures { Asks (effect (Instruction.Div a b c)) (seen self.now) result }
    {
        let divisor = self.value(c);
        if divisor == 0 {
            return Err(Ending::Zero);
        }
        Ok(sets(a, self.value(b) / divisor))
    }

    fn move_if(&self, a: Register, b: Register, c: Register) -> Request
        ensures { Asks (effect (Instruction.CMov a b c)) (seen self.now) (Ok result) }
    {
        if self.value(c) == 0 {
            return Request::Passes;
        }
        sets(a, self.value(b))
    }

    // What an instruction comes to.
    fn execute(&self, instruction: Instruction) -> Result<Request, Ending>
        ensures { Asks (effect instruction) (seen self.now) result }
    {
        Ok(match instruction {
            Instruction::LoadB { a, b, c } => self.load(Width::Byte, a, self.sum(b, c))?,
            Instruction::LoadH { a, b, c } => self.load(Width::Half, a, self.sum(b, c))?,
            Instruction::LoadW { a, b, c } => self.load(Width::Word, a, self.sum(b, c))?,
            Instruction::StoreB { a, b, c } => self.store(Width::Byte, a, self.sum(b, c))?,
            Instruction::StoreH { a, b, c } => self.store(Width::Half, a, self.sum(b, c))?,
            Instruction::StoreW { a, b, c } => self.store(Width::Word, a, self.sum(b, c))?,
            Instruction::Add { a, b, c } => sets(a, self.sum(b, c)),
            Instruction::Mul { a, b, c } => sets(a, self.value(b).wrapping_mul(self.value(c))),
            Instruction::Div { a, b, c } => self.divide(a, b, c)?,
            Instruction::Nor { a, b, c } => sets(a, !(self.value(b) | self.value(c))),
            Instruction::MovI { r, i, s } => sets(r, u32::from(i.value) << u32::from(s.places)),
            Instruction::CMov { a, b, c } => self.move_if(a, b, c),
            Instruction::In { a } => Request::Takes(a),
            Instruction::Out { a } => Request::Prints((self.value(a) % 256) as u8),
            Instruction::Read { a, b } => {
                let (at, sector) = self.transfer(a, b)?;
                Request::Reads { at, sector }
            }
            Instruction::Write { a, b } => {
                let (at, sector) = self.transfer(a, b)?;
                Request::Writes { at, sector }
            }
            Instruction::Halt => Request::Halts,
        })
    }
}

impl Registers {
    // Fetches the next instruction and decides what it comes to: the first ending that applies, or what is to be done.
    pub(crate) fn decide(&self, memory: &[u8]) -> Result<Request, Ending>
        ensures { Decides (processor self.now memory.now) result }
    {
        let at = self.get(COUNTER);
        if at % 4 != 0 || at as usize + 4 > memory.len() {
            return Err(Ending::Fetch);
        }
        let word = load(memory, at as usize, Width::Word);
        let instruction = Instruction::decode(word).ok_or(Ending::Code)?;
        let sight = Sight {
            registers: self,
            memory,
        };
        sight.execute(instruction)
    }
}

// Whether an access that has to be aligned can be made, or why not.
fn placed(memory: &[u8], at: usize, width: usize) -> Result<(), Ending>
    requires { (0 < width) × (at + width < 2 ^ 64) }
    ensures { result ≡ if_placed at width (length memory.now) tt }
{
    if at % width != 0 {
        return Err(Ending::Align);
    }
    if at + width > memory.len() {
        return Err(Ending::Range);
    }
    Ok(())
}

fn sets(register: Register, value: u32) -> Request
    ensures { result ≡ Request.Sets register value }
{
    Request::Sets { register, value }
}
