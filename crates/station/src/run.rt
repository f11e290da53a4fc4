// Runs. What is lent stays parameters, as in the steps.
ghost use Rattle.std.specs.Prelude.{◌≡◌, ◌<◌, IfOk};
ghost use Rattle.station.specs.Histories.{CutShort};
ghost use Rattle.station.specs.Machines.{Goes};
ghost use Rattle.station.specs.Views.{seen, world, disk_of};
ghost use Rattle.station.specs.Worlds.{phase_after, Runs};

use crate::answer::{Answer, RunRefusal, Stop};
use crate::attempt::{Executed, Obstacle};
use crate::device::step;
use crate::unit::{Phase, Station};
use console::Console;
use disk::Writable;
use processor::ending::Ending;
use processor::registers::Registers;

// A run stops at what keeps an instruction from being executed.
impl From<Obstacle> for Stop {
    ghost use Rattle.station.specs.Machines.{stop_at};

    ghost from_gives = { λ obstacle stop. stop ≡ stop_at obstacle };

    fn from(obstacle: Obstacle) -> Stop {
        match obstacle {
            Obstacle::Lacking(want) => Stop::Wants(want),
            Obstacle::Impossible(ending) => Stop::Ended(ending),
        }
    }
}

// Executes steps until all that were granted are executed, one lacks something, or one ends the station.
fn go<D: Writable, C: Console>(
    registers: &mut Registers,
    memory: &mut [u8],
    disk: &mut D,
    console: &mut C,
    granted: u32,
) -> Answer
    ensures { Goes C.Console.kind (seen D.Readable D.Writable.own C.Console registers.old memory.old disk.old console.old) granted result.count result.stop (seen D.Readable D.Writable.own C.Console registers.new memory.new disk.new console.new) }
{
    for count in 0..granted {
        match step(registers, memory, disk, console) {
            Ok(Executed::Going) => {}
            Ok(Executed::Halted) => {
                return Answer {
                    count: count + 1,
                    stop: Stop::Ended(Ending::Halt),
                };
            }
            Err(obstacle) => {
                return Answer {
                    count,
                    stop: Stop::from(obstacle),
                };
            }
        }
    }
    Answer {
        count: granted,
        stop: Stop::Spent,
    }
}

// The phase that a run with this stop leaves.
fn phase_after(length: usize, stop: Stop) -> Phase
    ensures { result ≡ phase_after length stop }
{
    match stop {
        Stop::Spent | Stop::Wants(_) => Phase::Running { length },
        Stop::Ended(ending) => Phase::Ended { length, ending },
    }
}

impl Station {
    // `run` promises this and a theorem besides. It has one return, so that the theorem is proved once; here it would be once a return.
    fn execute<D: Writable, C: Console>(
        &mut self,
        memory: &mut [u8],
        disk: &mut D,
        console: &mut C,
        steps: u32,
    ) -> Result<Answer, RunRefusal>
        ensures { Runs C.Console.kind (world self.old memory.old (disk_of D.Readable D.Writable.own disk.old) (C.Console.meaning console.old)) steps result (world self.new memory.new (disk_of D.Readable D.Writable.own disk.new) (C.Console.meaning console.new)) }
    {
        match self.phase {
            Phase::Unstarted => Err(RunRefusal::NotStarted),
            Phase::Running { length } => {
                if memory.len() != length {
                    return Err(RunRefusal::OtherMemory);
                }
                let answer = go(&mut self.registers, memory, disk, console, steps);
                self.phase = phase_after(length, answer.stop);
                Ok(answer)
            }
            Phase::Ended { length, ending } => {
                if memory.len() != length {
                    return Err(RunRefusal::OtherMemory);
                }
                Ok(Answer {
                    count: 0,
                    stop: Stop::Ended(ending),
                })
            }
        }
    }

    // Executes at most so many steps, and answers how many and why it stopped: before the last granted one only with a reason.
    pub fn run<D: Writable, C: Console>(
        &mut self,
        memory: &mut [u8],
        disk: &mut D,
        console: &mut C,
        steps: u32,
    ) -> Result<Answer, RunRefusal>
        ensures runs { Runs C.Console.kind (world self.old memory.old (disk_of D.Readable D.Writable.own disk.old) (C.Console.meaning console.old)) steps result (world self.new memory.new (disk_of D.Readable D.Writable.own disk.new) (C.Console.meaning console.new)) }
        ensures short { IfOk result (λ a. a.count < steps → CutShort a (world self.new memory.new (disk_of D.Readable D.Writable.own disk.new) (C.Console.meaning console.new))) }
    {
        self.execute(memory, disk, console, steps)
    }
}
