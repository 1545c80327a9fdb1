//! How much work may be done.
ghost use Rattle.std.specs.Prelude.{◌≡◌, ◌-◌, ◌↔◌, IsTrue};

use std::marker::Model;

/// How much work may still be done, in steps. To try two ways of a join with each other is one step, and so
/// is to make each way ready for it: `join_within` says how they are counted. Several joins may take from one
/// effort, so that it bounds what they do together.
#[derive(Drop)]
pub struct Effort {
    left: u64,
}

impl Model for Effort {
    ghost use Rattle.std.specs.Prelude.{ℕ};

    ghost Value = { ℕ };

    ghost view = { λ effort. effort.left };
}

impl Effort {
    /// So many steps may be done.
    pub fn new(steps: u64) -> Effort
        ensures { result ≡ steps }
    {
        Effort { left: steps }
    }

    /// Takes these steps away. Where there are fewer, none are left.
    pub fn spend(&mut self, steps: u64)
        ensures { self.new ≡ self.old - steps }
    {
        self.left = self.left.saturating_sub(steps);
    }

    /// Whether no step is left.
    pub fn is_spent(&self) -> bool
        ensures { IsTrue result ↔ (self.now ≡ 0) }
    {
        self.left == 0
    }
}
