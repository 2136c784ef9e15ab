//! The counter of steps.

ghost use Rattle.std.specs.Prelude.{◌≡◌, ℕ, ◌+◌, ◌^◌, ◌<◌};

use std::alloc::Global;
use std::marker::Model;

/// The number of steps taken. It is neither `Clone` nor `Default`, so no step can be counted elsewhere. What one step costs
/// is not stated: a digest is one step however often its bytes are hashed, and a read without a tick may be repeated.
#[derive(Drop)]
pub struct Steps {
    taken: u64,
}

impl Model for Steps {
    ghost Value = { ℕ };

    ghost view = { λ s. s.taken };
}

impl Steps {
    /// A counter at 0. It allocates nothing: the allocator only shows that the caller may make a counter.
    pub fn new(_alloc: Global) -> Self
        ensures { result ≡ 0 }
    {
        Steps { taken: 0 }
    }

    /// Counts one step. The count is below `u64::MAX`.
    pub fn tick(&mut self)
        requires { self.old + 1 < 2 ^ 64 }
        ensures { self.new ≡ self.old + 1 }
    {
        self.taken += 1;
    }

    /// The number of steps taken.
    pub fn count(&self) -> u64
        ensures { result ≡ self.now }
    {
        self.taken
    }
}
