//! Power: for a number of device steps, or always.
ghost use Rattle.std.specs.Prelude.{◌≡◌, ◌<◌, true};
ghost use Rattle.std.specs.Bool.{OnFalse, OnTrue};
ghost use Rattle.pm_model.specs.Powers.{is_on, stepped, Steps};
ghost use Rattle.pm_lines.specs.Effects.{stepped_by};

use std::marker::Model;

/// The power of a device. Each store, flush and fence takes one step from it.
///
/// No call reads the count: code must do the same whatever number of steps is left.
#[derive(Debug, Drop)]
pub struct Power {
    given: Option<u64>,
    taken: u64,
}

impl Model for Power {
    ghost use Rattle.std.specs.Prelude.{◌<◌, ◌^◌};
    ghost use Rattle.std.specs.Option.{ForSome};
    ghost use Rattle.pm_model.specs.Powers.{Supply};

    ghost Value = { Supply };

    ghost view = { λ power. record { given = power.given; taken = power.taken } };

    ghost invariant = { λ power. ForSome power.given (λ given. given < 2 ^ 64) };
}

impl Power {
    /// A power that always lasts. It keeps no count.
    pub fn always() -> Power
        ensures { result ≡ record { given = None; taken = 0 } }
    {
        Power {
            given: None,
            taken: 0,
        }
    }

    /// A power that gives so many steps.
    pub fn after(steps: u64) -> Power
        ensures { result ≡ record { given = Some steps; taken = 0 } }
    {
        Power {
            given: Some(steps),
            taken: 0,
        }
    }

    /// Whether a step is left: false exactly where all the given steps are used up.
    pub fn on(&self) -> bool
        ensures { result ≡ is_on self.now }
    {
        match self.given {
            None => true,
            Some(given) => self.taken < given,
        }
    }

    // Takes a step, if one is left, and answers whether one was.
    pub(crate) fn step(&mut self) -> bool
        ensures was_on { result ≡ is_on self.old }
        ensures after { self.new ≡ stepped self.old }
        ensures steps { Steps 1 self.old self.new }
    {
        let Some(given) = self.given else {
            return true;
        };
        if self.taken < given {
            self.taken += 1;
            true
        } else {
            false
        }
    }

    // Takes so many steps at once, if they are left, and answers whether they were.
    pub(crate) fn step_by(&mut self, steps: u64) -> bool
        requires { 0 < steps }
        ensures was_on { OnTrue result (is_on self.old ≡ true) }
        ensures after { OnTrue result (self.new ≡ stepped_by steps self.old) }
        ensures none { OnFalse result (self.new ≡ self.old) }
    {
        let Some(given) = self.given else {
            return true;
        };
        if self.taken < given && steps <= given - self.taken {
            self.taken += steps;
            true
        } else {
            false
        }
    }
}
