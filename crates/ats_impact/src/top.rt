//! How many rows an answer may have.

ghost use Rattle.std.specs.Prelude.{◌≡◌, ◌⊎◌, ◌≤◌, ◌<◌, ℕ, IfOk, OnOk, IfErr};

use std::marker::Model;

/// The number of rows is not in 1 to 1,000.
#[derive(Clone, Copy, Debug, PartialEq, Eq)]
pub struct ROut {
    pub r: u32,
}

/// How many rows an answer may have: 1 to 1,000.
#[derive(Clone, Copy, Debug)]
pub struct Top {
    r: u32,
}

impl Model for Top {
    ghost Value = { ℕ };

    ghost view = { λ t. t.r };

    ghost invariant = { λ t. (1 ≤ t.r) × (t.r ≤ 1000) };

    ghost inverse = { λ r. record { r = r } };
}

const MAX_ROWS: u32 = 1000;

impl Top {
    /// Accepts a number from 1 to 1,000, and no other.
    pub fn new(r: u32) -> Result<Top, ROut>
        ensures ok { IfOk result (λ top. top ≡ r) }
        ensures within { OnOk result ((1 ≤ r) × (r ≤ 1000)) }
        ensures out { IfErr result (λ e. (e.r ≡ r) × ((r ≡ 0) ⊎ (1000 < r))) }
    {
        if r == 0 || r > MAX_ROWS {
            return Err(ROut { r });
        }
        Ok(Top { r })
    }

    pub fn get(&self) -> u32
        ensures value { result ≡ self.now }
        ensures some { 1 ≤ result }
        ensures few { result ≤ 1000 }
    {
        self.r
    }
}
