// A day with its limits, read once for a plan.
ghost use Rattle.std.specs.Prelude.{◌≡◌};
ghost use Rattle.rules.specs.Cargo.{over_limits};
ghost use Rattle.trips.specs.Trips.{LimitsOf};

use crate::cargo::Limits;
use day::days::Day;
use rules::walk::Cargo;

// A day with its limits.
#[derive(Drop)]
pub struct LimitedDay<'a> {
    pub day: &'a Day<'a>,
    pub limits: Limits,
    pub ghost read: { LimitsOf day.now limits },
}

impl<'a> LimitedDay<'a> {
    pub fn new(day: &'a Day<'a>) -> Self
        ensures { result.day.now ≡ day.now }
    {
        LimitedDay {
            day,
            limits: Limits {
                load: day.load_limit(),
                kg: day.day_limit(),
                visits: day.stop_limit(),
            },
        }
    }

    // Over the load, the day's kg or the day's stops.
    pub fn is_over(&self, cargo: Cargo) -> bool
        ensures { result ≡ over_limits self.now.day.now cargo }
    {
        self.limits.is_over(cargo)
    }
}
