// The moments of a run: each call of a disk or a sink is one.
ghost use Rattle.std.specs.Prelude.{◌≡◌, min, max, ◌^◌};
ghost use Rattle.hb_edge.specs.Moments.{tick};

use std::marker::Model;

const LAST_MOMENT: u128 = 1 << 127;

/// Counts the calls of disks and sinks. At 2^127 it stands.
#[derive(Clone, Copy)]
pub struct Clock {
    moment: u128,
}

impl Model for Clock {
    ghost use Rattle.std.specs.Prelude.{ℕ, ◌≤◌, ◌^◌};

    ghost Value = { ℕ };

    ghost view = { λ c. c.moment };

    ghost invariant = { λ c. c.moment ≤ 2 ^ 127 };

    ghost inverse = { λ n. record { moment = n } };
}

impl Clock {
    pub fn new() -> Self
        ensures { result ≡ 0 }
    {
        Clock { moment: 0 }
    }

    pub fn moment(&self) -> u128
        ensures { result ≡ self.now }
    {
        self.moment
    }

    /// Goes on to a moment, if that is later.
    pub fn raise(&mut self, to: u128)
        ensures { self.new ≡ max self.old (min to (2 ^ 127)) }
    {
        let to = if to > LAST_MOMENT { LAST_MOMENT } else { to };
        if to > self.moment {
            self.moment = to;
        }
    }

    /// One call of a device.
    pub fn tick(&mut self)
        ensures { self.new ≡ tick self.old }
    {
        if self.moment < LAST_MOMENT {
            self.moment += 1;
        }
    }
}
