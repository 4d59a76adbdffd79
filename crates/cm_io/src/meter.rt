ghost use Rattle.std.specs.Prelude.{◌≡◌, ℕ, None};
ghost use Rattle.cm_io.specs.Count.{raised as raised_count};

use crate::calls::raised;
use crate::listener::{Heard, Listener};
use cm_base::Item;
use std::marker::Model;

/// A listener that counts the items and keeps none of them.
#[derive(Drop)]
pub struct Meter {
    count: u64,
}

impl Model for Meter {
    ghost use Rattle.std.specs.Prelude.{ℕ};

    ghost Value = { ℕ };

    ghost view = { λ m. m.count };
}

impl Meter {
    /// A meter that heard nothing.
    pub fn new() -> Meter
        ensures { result ≡ 0 }
    {
        Meter { count: 0 }
    }
}

impl Listener for Meter {
    ghost heard = { λ _. None };

    ghost count = { λ meter. meter };

    ghost faults = { λ _. 0 };

    ghost refusals = { λ _. 0 };

    fn hear(&mut self, item: &Item) -> Heard
        ensures on { result ≡ Heard.On }
        ensures counted { self.new ≡ raised_count self.old }
    {
        self.count = raised(self.count);
        Heard::On
    }

    fn count(&self) -> u64
        ensures { result ≡ self.now }
    {
        self.count
    }
}
