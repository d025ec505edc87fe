//! A budget of turns.
ghost use Rattle.std.specs.Prelude.{◌≡◌, ◌+◌};
ghost use Rattle.std.specs.Bool.{OnTrue, OnFalse};

use std::marker::Model;

/// How many turns a call, and all that it calls, may still spend. Each round of a loop that others could keep going spends
/// one, so that every call returns. A clause sees how many are left.
#[derive(Debug, Drop)]
pub struct Turns {
    left: u64,
}

impl Model for Turns {
    ghost use Rattle.std.specs.Prelude.{ℕ};

    ghost Value = { ℕ };

    ghost view = { λ t. t.left };
}

impl Turns {
    /// So many turns.
    pub fn new(left: u64) -> Turns
        ensures { result ≡ left }
    {
        Turns { left }
    }

    /// How many are left.
    pub fn left(&self) -> u64
        ensures { result ≡ self.now }
    {
        self.left
    }

    /// Spends one where one is left, and else answers false and changes nothing.
    pub fn spend(&mut self) -> bool
        ensures spent { OnTrue result (self.old ≡ self.new + 1) }
        ensures none { OnFalse result ((self.old ≡ 0) × (self.new ≡ 0)) }
    {
        if self.left == 0 {
            return false;
        }
        self.left -= 1;
        true
    }
}
