// What can be done with a sitting.
ghost use Rattle.std.specs.Prelude.{◌≡◌, ◌+◌, ℕ};
ghost use Rattle.sitting.specs.Accounts.{Opens, Draws, GivesBack};
ghost use Rattle.sitting.specs.Histories.{Counts};

use crate::refusal::{DrawRefusal, GiveBackRefusal, OpenRefusal};
use crate::token::{Settled, Sitting, Voided};

// Opens a sitting of a candidate with so many instructions.
pub fn open(candidate: u16, grant: u32) -> Result<Sitting, OpenRefusal>
    ensures { Opens candidate grant result }
{
    if candidate == 0 {
        return Err(OpenRefusal::NoCandidate);
    }
    if grant == 0 {
        return Err(OpenRefusal::NoGrant);
    }
    Ok(Sitting {
        candidate,
        grant,
        used: 0,
        left: grant,
    })
}

impl Sitting {
    // Takes instructions from what is left.
    pub fn draw(&mut self, count: u32) -> Result<(), DrawRefusal>
        ensures { Draws self.old count result self.new }
    {
        if count > self.left {
            return Err(DrawRefusal::MoreThanLeft);
        }
        self.used += count;
        self.left -= count;
        Ok(())
    }

    // Returns instructions that were drawn and not executed.
    pub fn give_back(&mut self, count: u32) -> Result<(), GiveBackRefusal>
        ensures { GivesBack self.old count result self.new }
    {
        if count > self.used {
            return Err(GiveBackRefusal::MoreThanUsed);
        }
        self.used -= count;
        self.left += count;
        Ok(())
    }

    // How many instructions are left to draw.
    pub fn left(&self) -> u32
        ensures value { result ≡ self.now.left }
        ensures balanced { self.now.used + self.now.left ≡ self.now.grant }
    {
        self.grant - self.used
    }

    // Ends the sitting with its points.
    pub fn settle(self, points: u32) -> Settled
        ensures value { result ≡ record { candidate = self.candidate; used = self.used; points = points } }
        ensures counts { Counts self result.used }
    {
        let Sitting {
            candidate,
            grant: _,
            used,
            left: _,
        } = self;
        Settled {
            candidate,
            used,
            points,
        }
    }

    // Ends the sitting without points.
    pub fn void(self) -> Voided
        ensures value { result ≡ record { candidate = self.candidate; used = self.used } }
        ensures counts { Counts self result.used }
    {
        let Sitting {
            candidate,
            grant: _,
            used,
            left: _,
        } = self;
        Voided { candidate, used }
    }
}
