// The token of a sitting, and the records that end one.
use std::marker::Model;

// A sitting that is open. It is not `Drop`: only `settle` and `void` take it apart.
pub struct Sitting {
    pub(crate) candidate: u16,
    pub(crate) grant: u32,
    pub(crate) used: u32,
    pub(crate) left: u32,
}

// It is seen as its account.
impl Model for Sitting {
    ghost use Rattle.sitting.specs.Account.{Account, account, Balanced};

    ghost Value = { Account };

    ghost view = { account };

    ghost invariant = { Balanced };
}

// What a settled sitting leaves.
#[derive(Clone, Copy, PartialEq, Eq, Debug)]
pub struct Settled {
    pub candidate: u16,
    pub used: u32,
    pub points: u32,
}

// What a voided sitting leaves.
#[derive(Clone, Copy, PartialEq, Eq, Debug)]
pub struct Voided {
    pub candidate: u16,
    pub used: u32,
}
