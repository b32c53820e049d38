// What a vehicle carries, and the day's limits.
ghost use Rattle.std.specs.Prelude.{◌≡◌, ◌<◌, List, ℕ};
ghost use Rattle.rules.specs.Cargo.{empty, loaded, emptied, over_limits};
ghost use Rattle.trips.specs.Trips.{CargoWithin, LimitsOf};

use rules::walk::Cargo;

// Nothing, as a vehicle starts.
pub fn nothing() -> Cargo
    ensures { result ≡ empty }
{
    Cargo {
        load: 0,
        kg: 0,
        visits: 0,
    }
}

// The same cargo, copied field by field, which keeps its parts apart: copied as a block it is slower.
pub fn same_cargo(c: Cargo) -> Cargo
    ensures { result ≡ c }
{
    Cargo {
        load: c.load,
        kg: c.kg,
        visits: c.visits,
    }
}

// With the kg of one stop more. That what is carried is small is asked for here, and no part of `Cargo`, which is the rules' own record: the
// rules add up loads over the limits too.
pub fn load_on(c: Cargo, q: u32) -> Cargo
    requires { CargoWithin c × (q < 134217728) }
    ensures { result ≡ loaded c q }
{
    Cargo {
        load: c.load + q,
        kg: c.kg + q,
        visits: c.visits + 1,
    }
}

// Emptied at a tip: the day's kg stay.
pub fn tip_out(full: Cargo) -> Cargo
    ensures { result ≡ emptied full }
{
    Cargo { load: 0, ..full }
}

// The most that a vehicle may carry at once, in a day, and the most stops.
#[derive(Clone, Copy)]
pub struct Limits {
    pub load: u32,
    pub kg: u32,
    pub visits: u32,
}

impl Limits {
    // Over the load, the day's kg or the day's stops, for each day that has these limits, of any length.
    pub fn is_over(self, cargo: Cargo) -> bool
        ensures { (day : List ℕ) → LimitsOf day self → result ≡ over_limits day cargo }
    {
        (self.load < cargo.load) | (self.kg < cargo.kg) | (self.visits < cargo.visits)
    }
}
