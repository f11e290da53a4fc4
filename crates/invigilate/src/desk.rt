// The sitting at the desk: at most one is open, and none is lost.
use crate::say::{say_none, say_refused};
use sitting::calls::open;
use sitting::refusal::{DrawRefusal, GiveBackRefusal};
use sitting::token::{Settled, Sitting, Voided};
use std::io;

// A sitting, where one is open.
pub(crate) struct Desk {
    sitting: Option<Sitting>,
}

fn say_voided(rt: &HostRuntime, sitting: Sitting) -> io::Result<()> {
    let Voided { candidate, used } = sitting.void();
    println!(rt; "{candidate}\t{used}")
}

impl Desk {
    pub(crate) fn new() -> Desk {
        Desk { sitting: None }
    }

    // Opens a sitting; one that was open is voided.
    pub(crate) fn open(&mut self, rt: &HostRuntime, candidate: u16, grant: u32) -> io::Result<()> {
        match open(candidate, grant) {
            Ok(sitting) => {
                if let Some(before) = self.sitting.replace(sitting) {
                    say_voided(rt, before)?;
                }
                println!(rt; "ok")
            }
            Err(refusal) => say_refused(rt, refusal.number()),
        }
    }

    // Makes a call on the open sitting; `number` tells the number of its refusal.
    fn change<E: Drop, F, N>(&mut self, rt: &HostRuntime, call: F, number: N) -> io::Result<()>
    where
        F: FnOnce(&mut Sitting) -> Result<(), E> + Drop,
        N: FnOnce(E) -> u8 + Drop,
        requires call { F.IsAlwaysCallable call }
        requires number { N.IsAlwaysCallable number }
    {
        match &mut self.sitting {
            Some(sitting) => match call(sitting) {
                Ok(()) => println!(rt; "ok"),
                Err(refusal) => say_refused(rt, number(refusal)),
            },
            None => say_none(rt),
        }
    }

    pub(crate) fn draw(&mut self, rt: &HostRuntime, count: u32) -> io::Result<()> {
        self.change(
            rt,
            |sitting: &mut Sitting| sitting.draw(count),
            DrawRefusal::number,
        )
    }

    pub(crate) fn give_back(&mut self, rt: &HostRuntime, count: u32) -> io::Result<()> {
        self.change(
            rt,
            |sitting: &mut Sitting| sitting.give_back(count),
            GiveBackRefusal::number,
        )
    }

    pub(crate) fn settle(&mut self, rt: &HostRuntime, points: u32) -> io::Result<()> {
        match self.sitting.take() {
            Some(sitting) => {
                let Settled {
                    candidate,
                    used,
                    points,
                } = sitting.settle(points);
                println!(rt; "{candidate}\t{used}\t{points}")
            }
            None => say_none(rt),
        }
    }

    pub(crate) fn void(&mut self, rt: &HostRuntime) -> io::Result<()> {
        match self.sitting.take() {
            Some(sitting) => say_voided(rt, sitting),
            None => say_none(rt),
        }
    }

    // The end of the day: a sitting that is still open is voided.
    pub(crate) fn close(self, rt: &HostRuntime) -> io::Result<()> {
        let Desk { sitting } = self;
        match sitting {
            Some(sitting) => say_voided(rt, sitting),
            None => Ok(()),
        }
    }
}
