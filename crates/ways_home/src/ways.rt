// Rest if due, and the way home.
ghost use Rattle.std.specs.Prelude.{◌≡◌, ◌<◌, ◌≤◌};
ghost use Rattle.rules.specs.Fields.{tips, stops, places, stop_place};
ghost use Rattle.rules.specs.Trip.{visited};
ghost use Rattle.rules.specs.Home.{due, rest_if_due, home_direct, home_by_tip, way_home};
ghost use Rattle.trips.specs.Trips.{SmallTrip};

use crate::nearest::nearest_tip;
use day::days::Day;
use rules::walk::Trip;
use trips::drives::visited_trip;

// Whether a rest is due.
pub fn is_due(day: &Day, trip: Trip) -> bool
    ensures { result ≡ due day.now trip }
{
    !trip.rested & day.rest_window().holds(trip.minute)
}

// After a rest where one is due, else as before.
pub fn rest_if_due(day: &Day, trip: Trip) -> Trip
    requires { trip.minute < 1073741824 }
    ensures { result ≡ rest_if_due day.now trip }
{
    if !is_due(day, trip) {
        return trip;
    }
    Trip {
        minute: trip.minute + day.rest_minutes(),
        place: trip.place,
        rested: true,
        distance: trip.distance,
    }
}

// After the service of a stop.
pub fn after_stop(day: &Day, trip: Trip, stop: usize) -> Trip
    requires { SmallTrip day.now 4294901760 trip × (0 < stop) × (stop ≤ stops day.now) }
    ensures { result ≡ visited day.now trip (stop_place day.now stop) }
{
    visited_trip(day, trip, day.stop_visit(stop))
}

// After the service of a tip.
pub fn after_tip(day: &Day, trip: Trip, tip: usize) -> Trip
    requires { SmallTrip day.now 4294901760 trip × (0 < tip) × (tip ≤ tips day.now) }
    ensures { result ≡ visited day.now trip tip }
{
    visited_trip(day, trip, day.tip_visit(tip))
}

// Whether the depot is reached in time, and in time for lunch.
fn is_home_direct(day: &Day, trip: Trip) -> bool
    requires { (trip.place < places day.now) × (trip.minute < 1073741824) }
    ensures { result ≡ home_direct day.now trip }
{
    let leg = day.leg(trip.place, 0);
    let minute = trip.minute + leg.minutes;
    (minute <= day.depot_window().closing) & (trip.rested | (minute <= day.rest_window().closing))
}

// Whether the depot is reached by way of a tip.
fn is_home_by_tip(day: &Day, trip: Trip, tip: usize) -> bool
    requires { SmallTrip day.now 4294901760 trip × (0 < tip) × (tip ≤ tips day.now) }
    ensures { result ≡ home_by_tip day.now trip tip }
{
    let emptied = after_tip(day, trip, tip);
    let rested = rest_if_due(day, emptied);
    is_home_direct(day, rested)
}

// Whether there is a way home with a load.
pub fn is_way_home(day: &Day, trip: Trip, load: u32) -> bool
    requires { SmallTrip day.now 4294901760 trip }
    ensures { result ≡ way_home day.now trip load }
{
    let rested = rest_if_due(day, trip);
    if load == 0 {
        return is_home_direct(day, rested);
    }
    match nearest_tip(day, rested.place, rested.minute) {
        Some(tip) => is_home_by_tip(day, rested, tip),
        None => false,
    }
}
