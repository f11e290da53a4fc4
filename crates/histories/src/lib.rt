// Whole sittings of a station, and the histories that they are.
#![tactic(auto)]

ghost use Rattle.std.specs.Prelude.{◌≡◌};
ghost use Rattle.station.specs.Views.{world, disk_of};
ghost use Rattle.histories.specs.Examples.{Example};
ghost use Rattle.histories.specs.Reports.{Sat};

use console::Console;
use disk::Writable;
use station::answer::{Answer, RunRefusal, StartRefusal, TallyRefusal};
use station::unit::Station;

// What the calls of a sitting answered: a run, a feed, a run again, a collection and a tally.
#[derive(Drop)]
pub struct Report {
    pub first: Result<Answer, RunRefusal>,
    pub went: usize,
    pub second: Result<Answer, RunRefusal>,
    pub came: usize,
    pub points: Result<u32, TallyRefusal>,
}

// Makes each call of a station, on whatever disk and console: what it did is a history. What is lent to the calls stays parameters, as there.
pub fn sit<D: Writable, C: Console>(
    station: &mut Station,
    memory: &mut [u8],
    disk: &mut D,
    console: &mut C,
    script: &[u8],
    paper: &mut [u8],
    sheet: &[u8],
    steps: u32,
) -> Result<Report, StartRefusal>
    ensures { Sat C.Console.kind (world station.old memory.old (disk_of D.Readable D.Writable.own disk.old) (C.Console.meaning console.old)) script.now paper.new result (world station.new memory.new (disk_of D.Readable D.Writable.own disk.new) (C.Console.meaning console.new)) }
{
    station.start(memory, disk, console)?;
    let first = station.run(memory, disk, console, steps);
    let went = station.feed(console, script);
    let second = station.run(memory, disk, console, steps);
    let came = station.collect(console, paper);
    let points = station.tally(memory, disk, sheet);
    Ok(Report {
        first,
        went,
        second,
        came,
        points,
    })
}

// There is a history with every kind of call, a refused start, run and tally among them.
pub fn example_stands() -> u8
    ensures { Example }
{
    0
}
