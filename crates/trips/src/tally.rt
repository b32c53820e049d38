// The plan so far: vehicles, stops served and left out, distance.
ghost use Rattle.std.specs.Prelude.{◌≡◌, ◌+◌, ◌<◌};
ghost use Rattle.rules.specs.Check.{untold, one_out, one_served, one_left, one_back};
ghost use Rattle.trips.specs.Trips.{TallyWithin};

use rules::walk::Tally;

// Before the first word.
pub fn none_told() -> Tally
    ensures { result ≡ untold }
{
    Tally {
        inside: false,
        vehicles: 0,
        served: 0,
        left: 0,
        last: 0,
        distance: 0,
    }
}

// The same tally, copied field by field, which keeps its parts apart: copied as a block it is slower.
pub fn same_tally(y: Tally) -> Tally
    ensures { result ≡ y }
{
    Tally {
        inside: y.inside,
        vehicles: y.vehicles,
        served: y.served,
        left: y.left,
        last: y.last,
        distance: y.distance,
    }
}

// One vehicle more, which is out.
pub fn one_out(y: Tally) -> Tally
    requires { TallyWithin 4096 y }
    ensures { result ≡ one_out y }
{
    Tally {
        inside: true,
        vehicles: y.vehicles + 1,
        ..y
    }
}

// One stop more is served.
pub fn one_served(y: Tally) -> Tally
    requires { TallyWithin 4096 y }
    ensures { result ≡ one_served y }
{
    Tally {
        served: y.served + 1,
        ..y
    }
}

// A stop is left out.
pub fn one_left(y: Tally, stop: u32) -> Tally
    requires { TallyWithin 4096 y }
    ensures { result ≡ one_left y stop }
{
    Tally {
        left: y.left + 1,
        last: stop,
        ..y
    }
}

// The vehicle is back, and its distance counts.
pub fn one_back(y: Tally, distance: u32) -> Tally
    requires { y.distance + distance < 4294967296 }
    ensures { result ≡ one_back y distance }
{
    Tally {
        inside: false,
        distance: y.distance + distance,
        ..y
    }
}
