// Sittings that are settled and voided, at the edges of what can be drawn and given back.
#![tactic(auto)]

use sitting::calls::open;
use sitting::refusal::{DrawRefusal, GiveBackRefusal, OpenRefusal};
use sitting::token::{Settled, Sitting, Voided};
use std::io;

// One sitting is settled; then another is opened, and voided.
fn two_sittings() -> Result<(Settled, Voided), OpenRefusal> {
    let mut first = open(7, 100)?;
    let _ = first.draw(60);
    let _ = first.give_back(10);
    let settled = first.settle(5);
    let mut second = open(8, 50)?;
    let _ = second.draw(20);
    let voided = second.void();
    Ok((settled, voided))
}

// Makes a call, and says how many are left then, or the number of its refusal.
fn say<E: Drop, F, N>(
    rt: &HostRuntime,
    sitting: &mut Sitting,
    name: &str,
    count: u32,
    call: F,
    number: N,
) -> io::Result<()>
where
    F: FnOnce(&mut Sitting) -> Result<(), E> + Drop,
    N: FnOnce(E) -> u8 + Drop,
    requires call { F.IsAlwaysCallable call }
    requires number { N.IsAlwaysCallable number }
{
    match call(sitting) {
        Ok(()) => println!(rt; "{name} {count}: {} left", sitting.left()),
        Err(refusal) => println!(rt; "{name} {count}: refused {}", number(refusal)),
    }
}

fn draw(rt: &HostRuntime, sitting: &mut Sitting, count: u32) -> io::Result<()> {
    say(
        rt,
        sitting,
        "draw",
        count,
        |s: &mut Sitting| s.draw(count),
        DrawRefusal::number,
    )
}

fn give_back(rt: &HostRuntime, sitting: &mut Sitting, count: u32) -> io::Result<()> {
    say(
        rt,
        sitting,
        "give back",
        count,
        |s: &mut Sitting| s.give_back(count),
        GiveBackRefusal::number,
    )
}

fn use_up(rt: &HostRuntime, sitting: &mut Sitting, candidate: u16, grant: u32) -> io::Result<()> {
    println!(rt; "open {candidate} {grant}")?;
    draw(rt, sitting, grant)?;
    draw(rt, sitting, 1)?;
    draw(rt, sitting, 0)?;
    give_back(rt, sitting, grant)?;
    give_back(rt, sitting, 1)?;
    give_back(rt, sitting, 0)
}

// Opens a sitting, draws all and one more, gives back all and one more, and voids it.
fn to_the_edge(rt: &HostRuntime, candidate: u16, grant: u32) -> io::Result<()> {
    match open(candidate, grant) {
        Ok(mut sitting) => {
            let said = use_up(rt, &mut sitting, candidate, grant);
            let record = sitting.void();
            said?;
            println!(rt; "void: {} used", record.used)
        }
        Err(refusal) => println!(rt; "open {candidate} {grant}: refused {}", refusal.number()),
    }
}

fn main(rt: HostRuntime) -> io::Result<()> {
    to_the_edge(&rt, 0, 0)?;
    to_the_edge(&rt, 0, 1)?;
    to_the_edge(&rt, 1, 0)?;
    to_the_edge(&rt, 1, 1)?;
    to_the_edge(&rt, 65535, 4294967295)?;
    match two_sittings() {
        Ok((settled, voided)) => {
            let Settled {
                candidate,
                used,
                points,
            } = settled;
            println!(rt; "settled: candidate {candidate}, {used} used, {points} points")?;
            let Voided { candidate, used } = voided;
            println!(rt; "voided: candidate {candidate}, {used} used")
        }
        Err(refusal) => println!(rt; "refused {}", refusal.number()),
    }
}
