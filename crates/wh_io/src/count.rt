ghost use Rattle.std.specs.Prelude.{◌≡◌, ◌≤◌};
ghost use Rattle.wh_io.specs.Causes.{next_count};

use crate::outside::Failed;
use std::marker::Model;

/// How often something happened. It stands still at the greatest u64.
#[derive(Drop)]
pub(crate) struct Count {
    number: u64,
}

impl Model for Count {
    ghost use Rattle.std.specs.Prelude.{ℕ};

    ghost Value = { ℕ };

    ghost view = { λ c. c.number };
}

impl Count {
    pub(crate) fn new() -> Count
        ensures { result ≡ 0 }
    {
        Count { number: 0 }
    }

    pub(crate) fn raise(&mut self)
        ensures next { self.new ≡ next_count self.old }
        ensures later { self.old ≤ self.new }
    {
        self.number = self.number.saturating_add(1);
    }

    /// Counts a fault, and answers it.
    pub(crate) fn fault(&mut self) -> Failed
        ensures next { self.new ≡ next_count self.old }
        ensures later { self.old ≤ self.new }
    {
        self.raise();
        Failed
    }

    pub(crate) fn number(&self) -> u64
        ensures { result ≡ self.now }
    {
        self.number
    }
}
