// Where and when a vehicle is, at its earliest minutes.
ghost use Rattle.std.specs.Prelude.{◌≡◌, ◌<◌, ◌≤◌, not, ◌&&◌, ltb};
ghost use Rattle.rules.specs.Fields.{tips, stops, stop_place, closing, rest_closing};
ghost use Rattle.rules.specs.Trip.{leaving, arrival, visit_start, driven, visited, rested_at, visit_fault, rest_fault, back_fault};
ghost use Rattle.day.specs.Layout.{VisitOf};
ghost use Rattle.trips.specs.Drives.{DrivesTo};
ghost use Rattle.trips.specs.Trips.{SmallTrip};

use day::days::Day;
use day::fields::Visit;
use rules::faults::PlanFault;
use rules::walk::Trip;

// At the depot when it opens.
pub fn leave(day: &Day) -> Trip
    ensures { result ≡ leaving day.now }
{
    Trip {
        minute: day.depot_window().opening,
        place: 0,
        rested: false,
        distance: 0,
    }
}

// The same trip, copied field by field, which keeps its parts apart: copied as a block it is slower.
pub fn same_trip(trip: Trip) -> Trip
    ensures { result ≡ trip }
{
    Trip {
        minute: trip.minute,
        place: trip.place,
        rested: trip.rested,
        distance: trip.distance,
    }
}

// The trip behind a visit, whether it is in time or not.
pub fn visited_trip(day: &Day, trip: Trip, visit: Visit) -> Trip
    requires { SmallTrip day.now 4294901760 trip × VisitOf day.now visit }
    ensures { result ≡ visited day.now trip visit.place }
{
    let leg = day.leg(trip.place, visit.place);
    Trip {
        minute: (trip.minute + leg.minutes).max(visit.hours.opening) + visit.minutes,
        place: visit.place,
        distance: trip.distance + leg.distance,
        ..trip
    }
}

// Whether a visit starts after its closing.
fn is_late(day: &Day, trip: Trip, visit: Visit) -> bool
    requires { SmallTrip day.now 4294901760 trip × VisitOf day.now visit }
    ensures { result ≡ ltb (closing day.now visit.place) (visit_start day.now trip visit.place) }
{
    let leg = day.leg(trip.place, visit.place);
    visit.hours.closing < (trip.minute + leg.minutes).max(visit.hours.opening)
}

// The trip behind a visit that must be in time.
fn in_time(day: &Day, trip: Trip, visit: Visit) -> Result<Trip, PlanFault>
    requires { SmallTrip day.now 4294901760 trip × VisitOf day.now visit }
    ensures { DrivesTo (visit_fault day.now trip visit.place) (visited day.now trip visit.place) result }
{
    if is_late(day, trip, visit) {
        return Err(PlanFault::Late);
    }
    Ok(visited_trip(day, trip, visit))
}

// To a stop. This and the next stay two functions: callers name stops and tips by their own numbers, and each reads its visit with its own.
pub fn visit_stop(day: &Day, trip: Trip, stop: usize) -> Result<Trip, PlanFault>
    requires { SmallTrip day.now 4294901760 trip × (0 < stop) × (stop ≤ stops day.now) }
    ensures { DrivesTo (visit_fault day.now trip (stop_place day.now stop)) (visited day.now trip (stop_place day.now stop)) result }
{
    in_time(day, trip, day.stop_visit(stop))
}

// To a tip.
pub fn visit_tip(day: &Day, trip: Trip, tip: usize) -> Result<Trip, PlanFault>
    requires { SmallTrip day.now 4294901760 trip × (0 < tip) × (tip ≤ tips day.now) }
    ensures { DrivesTo (visit_fault day.now trip tip) (visited day.now trip tip) result }
{
    in_time(day, trip, day.tip_visit(tip))
}

// A rest where the vehicle is; it may not be a second one, nor begin too late.
pub fn rest(day: &Day, trip: Trip) -> Result<Trip, PlanFault>
    requires { SmallTrip day.now 4294901760 trip }
    ensures { DrivesTo (rest_fault day.now trip) (rested_at day.now trip) result }
{
    if trip.rested {
        return Err(PlanFault::Rest);
    }
    let hours = day.rest_window();
    let start = trip.minute.max(hours.opening);
    if hours.closing < start {
        return Err(PlanFault::Rest);
    }
    Ok(Trip {
        minute: start + day.rest_minutes(),
        rested: true,
        ..trip
    })
}

// Whether a vehicle that is back at a minute should have rested.
fn is_unrested(day: &Day, rested: bool, minute: u32) -> bool
    ensures { result ≡ (not rested && ltb (rest_closing day.now) minute) }
{
    !rested && day.rest_window().closing < minute
}

// Back to the depot, in time, and in time for a rest there where the vehicle had none.
pub fn back(day: &Day, trip: Trip) -> Result<Trip, PlanFault>
    requires { SmallTrip day.now 4294901760 trip }
    ensures { DrivesTo (back_fault day.now trip) (driven day.now trip 0 (arrival day.now trip 0)) result }
{
    let leg = day.leg(trip.place, 0);
    let minute = trip.minute + leg.minutes;
    if day.depot_window().closing < minute {
        return Err(PlanFault::Late);
    }
    if is_unrested(day, trip.rested, minute) {
        return Err(PlanFault::Rest);
    }
    Ok(Trip {
        minute,
        place: 0,
        distance: trip.distance + leg.distance,
        ..trip
    })
}
