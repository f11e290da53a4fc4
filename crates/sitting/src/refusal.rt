// Why a sitting is not opened, drawn from or given back to: an enum for each call, so that it can answer its own numbers only, by a `match` as where an enum holds a fault.
ghost use Rattle.std.specs.Prelude.{◌≡◌};
ghost use Rattle.sitting.specs.Numbers.{open_refusal_number, draw_refusal_number, give_back_refusal_number};

#[derive(Clone, Copy, PartialEq, Eq, Debug)]
pub enum OpenRefusal {
    // the candidate is 0
    NoCandidate,
    // the grant is 0
    NoGrant,
}

#[derive(Clone, Copy, PartialEq, Eq, Debug)]
pub enum DrawRefusal {
    MoreThanLeft,
}

#[derive(Clone, Copy, PartialEq, Eq, Debug)]
pub enum GiveBackRefusal {
    MoreThanUsed,
}

impl OpenRefusal {
    pub fn number(self) -> u8
        ensures { result ≡ open_refusal_number self }
    {
        match self {
            OpenRefusal::NoCandidate => 11,
            OpenRefusal::NoGrant => 12,
        }
    }
}

impl DrawRefusal {
    pub fn number(self) -> u8
        ensures { result ≡ draw_refusal_number self }
    {
        match self {
            DrawRefusal::MoreThanLeft => 13,
        }
    }
}

impl GiveBackRefusal {
    pub fn number(self) -> u8
        ensures { result ≡ give_back_refusal_number self }
    {
        match self {
            GiveBackRefusal::MoreThanUsed => 14,
        }
    }
}
