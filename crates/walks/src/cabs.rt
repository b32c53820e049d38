// A vehicle that is walked again, by value, while its words are written at the front of the part of the buffer that is lent.
ghost use Rattle.std.specs.Prelude.{◌≡◌, ◌&&◌, ◌+◌, ◌<◌, ◌≤◌, ltb, true};
ghost use Rattle.std.proofs.Math.Option.{some};
ghost use Rattle.rules.specs.Fields.{stops, tips, load_limit, IsAccepted};
ghost use Rattle.rules.specs.Plan.{serve, empty};
ghost use Rattle.rules.specs.Home.{nearest_tip};
ghost use Rattle.rules.specs.Build.{doing, resting};
ghost use Rattle.rules.specs.Attempts.{inserting, emptied_first, walk_task, walk_home};
ghost use Rattle.walks.specs.Cabs.{SomeStanding, Drives};

use day::days::Day;
use plan_words::{REST, STOP, TIP};
use rules::walk::Trip;
use ways_home::nearest::nearest_tip;
use ways_home::ways::{after_stop, after_tip, is_due, rest_if_due};

// Where and when the vehicle is, its load, and how many words it has.
#[derive(Clone, Copy)]
pub struct Cab {
    pub trip: Trip,
    pub load: u32,
    pub at: usize,
}

// A rest is taken, and written, where one is due.
pub(crate) fn rest_cab(day: &Day, cab: Cab, part: &mut [u32]) -> Cab
    requires { IsAccepted day.now × SomeStanding day.now 0 part.old cab }
    ensures { Drives day.now 0 part.old cab (λ v. some (resting day.now v)) part.new (Some result) }
{
    if is_due(day, cab.trip) {
        part[cab.at] = REST;
        return Cab {
            trip: rest_if_due(day, cab.trip),
            load: cab.load,
            at: cab.at + 1,
        };
    }
    cab
}

// The load is emptied at a tip.
fn empty_cab(day: &Day, cab: Cab, tip: usize, part: &mut [u32]) -> Cab
    requires { IsAccepted day.now × SomeStanding day.now 0 part.old cab × (0 < cab.load) × (0 < tip) × (tip ≤ tips day.now) }
    ensures { Drives day.now 0 part.old cab (λ v. some (doing day.now v (empty tip))) part.new (Some result) }
{
    part[cab.at] = TIP + tip as u32;
    Cab {
        trip: after_tip(day, cab.trip, tip),
        load: 0,
        at: cab.at + 1,
    }
}

// A stop is served.
fn serve_cab(day: &Day, cab: Cab, stop: usize, part: &mut [u32]) -> Cab
    requires { IsAccepted day.now × SomeStanding day.now 1 part.old cab × (0 < stop) × (stop ≤ stops day.now) }
    ensures { Drives day.now 1 part.old cab (λ v. some (doing day.now v (serve stop))) part.new (Some result) }
{
    part[cab.at] = STOP + stop as u32;
    Cab {
        trip: after_stop(day, cab.trip, stop),
        load: cab.load + day.stop_quantity(stop),
        at: cab.at + 1,
    }
}

// The nearest open tip is inserted, and a rest behind it where one is due; without an open tip the trial has failed. It is seldom done, and
// stands apart, so that the rest of a walk is one piece of code that keeps the vehicle in registers.
#[inline(never)]
fn insert_tip(day: &Day, cab: Cab, part: &mut [u32]) -> Option<Cab>
    requires { IsAccepted day.now × SomeStanding day.now 0 part.old cab × (0 < cab.load) }
    ensures { Drives day.now 0 part.old cab (λ v. inserting day.now v (nearest_tip day.now v.trip.place v.trip.minute)) part.new result }
{
    let tip = nearest_tip(day, cab.trip.place, cab.trip.minute)?;
    let emptied = empty_cab(day, cab, tip, part);
    Some(rest_cab(day, emptied, part))
}

// The nearest open tip is inserted where it must be.
fn empty_first(day: &Day, cab: Cab, must: bool, part: &mut [u32]) -> Option<Cab>
    requires { IsAccepted day.now × SomeStanding day.now 0 part.old cab × (must ≡ true → 0 < cab.load) }
    ensures { Drives day.now 0 part.old cab (λ v. emptied_first day.now must v) part.new result }
{
    if must {
        return insert_tip(day, cab, part);
    }
    Some(cab)
}

// Whether a stop of this quantity would exceed Q, with a load already on.
fn is_full(day: &Day, load: u32, quantity: u32) -> bool
    requires { (load < 134217728) × (quantity < 134217728) }
    ensures { result ≡ (ltb 0 load && ltb (load_limit day.now) (load + quantity)) }
{
    (0 < load) & (day.load_limit() < load + quantity)
}

// A stop is served, behind a tip where it would exceed Q. In line, since it is called at several places and the vehicle is copied by a call.
#[inline(always)]
pub(crate) fn walk_stop(day: &Day, cab: Cab, stop: usize, part: &mut [u32]) -> Option<Cab>
    requires { IsAccepted day.now × SomeStanding day.now 1 part.old cab × (0 < stop) × (stop ≤ stops day.now) }
    ensures { Drives day.now 1 part.old cab (λ v. walk_task day.now v (serve stop)) part.new result }
{
    let full = is_full(day, cab.load, day.stop_quantity(stop));
    let ahead = empty_first(day, cab, full, part)?;
    Some(serve_cab(day, ahead, stop, part))
}

// The load is emptied at a tip; without a load the tip is dropped.
pub(crate) fn walk_tip(day: &Day, cab: Cab, tip: usize, part: &mut [u32]) -> Cab
    requires { IsAccepted day.now × SomeStanding day.now 0 part.old cab × (0 < tip) × (tip ≤ tips day.now) }
    ensures { Drives day.now 0 part.old cab (λ v. walk_task day.now v (empty tip)) part.new (Some result) }
{
    if cab.load == 0 {
        return cab;
    }
    empty_cab(day, cab, tip, part)
}

// Before the vehicle comes back: a rest where one is due, and a tip where there is a load.
pub(crate) fn walk_home(day: &Day, cab: Cab, part: &mut [u32]) -> Option<Cab>
    requires { IsAccepted day.now × SomeStanding day.now 0 part.old cab }
    ensures { Drives day.now 0 part.old cab (λ v. walk_home day.now (some v)) part.new result }
{
    let rested = rest_cab(day, cab, part);
    empty_first(day, rested, 0 < rested.load, part)
}
