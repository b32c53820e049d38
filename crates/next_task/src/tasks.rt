// What a vehicle does next: steps 3, 4 and 5.
ghost use Rattle.std.specs.Prelude.{◌≡◌, ◌<◌, ◌≤◌, ◌&&◌};
ghost use Rattle.rules.specs.Fields.{tips, stops};
ghost use Rattle.rules.specs.Home.{nearest_tip};
ghost use Rattle.rules.specs.Choice.{near_capacity, farther};
ghost use Rattle.rules.specs.Build.{emptying};
ghost use Rattle.laws.specs.Marks.{marked};
ghost use Rattle.trips.specs.Trips.{CargoWithin, SmallTrip};
ghost use Rattle.ways_home.specs.Bests.{ChosenOf};
ghost use Rattle.next_task.specs.NextBy.{next_of, wait_by, chosen_by, next_by, NextWithin};

use crate::choice::{Choice, Near, Waiting};
use day::days::Day;
use marks::Marks;
use rules::walk::{Cargo, Trip};
use ways_home::nearest::nearest_tip;

// The next task: a stop, a tip, or back to the depot.
#[derive(Clone, Copy)]
pub enum Next {
    Stop(usize),
    Tip(usize),
    Home,
}

impl<'a> Choice<'a> {
    // Near to capacity: more than four fifths of Q, Q* or S*, with a load.
    fn is_near_capacity(&self) -> bool
        ensures { result ≡ near_capacity self.now.day.now self.now.cargo }
    {
        let cargo = self.cargo;
        0 < cargo.load
            && (4 * self.day.load_limit() < 5 * cargo.load
                || 4 * self.day.day_limit() < 5 * cargo.kg
                || 4 * self.day.stop_limit() < 5 * cargo.visits)
    }

    // Whether a stop is farther than a tip.
    fn is_farther(&self, stop: usize, tip: usize) -> bool
        requires { (stop ≤ stops self.now.day.now) × (0 < tip) × (tip ≤ tips self.now.day.now) }
        ensures { result ≡ farther self.now.day.now self.now.trip stop tip }
    {
        let to_tip = self.day.leg(self.trip.place, tip);
        let to_stop = self.day.leg(self.trip.place, self.day.stop_place(stop));
        to_tip.minutes < to_stop.minutes
    }

    // Whether a stop is dropped: near to capacity, where a tip is nearer.
    fn is_dropped(&self, stop: usize) -> bool
        requires { stop ≤ stops self.now.day.now }
        ensures { result ≡ (near_capacity self.now.day.now self.now.cargo && farther self.now.day.now self.now.trip stop (nearest_tip self.now.day.now self.now.trip.place self.now.trip.minute)) }
    {
        if !self.is_near_capacity() {
            return false;
        }
        match nearest_tip(self.day, self.trip.place, self.trip.minute) {
            Some(tip) => self.is_farther(stop, tip),
            None => false,
        }
    }

    // Step 3: the nearest stop, where it is not dropped.
    fn near_stop(&self, left: Marks) -> Option<usize>
        ensures { ChosenOf (stops self.now.day.now) (chosen_by self.now.day.now self.now.trip self.now.cargo (marked left.words)) result }
    {
        let stop = self.best_stop::<Near>(left)?;
        if self.is_dropped(stop) {
            return None;
        }
        Some(stop)
    }

    // Step 5, without a load.
    fn wait_next(&self, left: Marks) -> Next
        ensures next_is { next_of result ≡ wait_by self.now.day.now self.now.trip self.now.cargo (marked left.words) }
        ensures within { NextWithin self.now.day.now result }
    {
        match self.best_stop::<Waiting>(left) {
            Some(stop) => Next::Stop(stop),
            None => Next::Home,
        }
    }

    // Step 4, with a load.
    fn tip_next(&self) -> Next
        ensures next_is { next_of result ≡ emptying (nearest_tip self.now.day.now self.now.trip.place self.now.trip.minute) }
        ensures within { NextWithin self.now.day.now result }
    {
        match nearest_tip(self.day, self.trip.place, self.trip.minute) {
            Some(tip) => Next::Tip(tip),
            None => Next::Home,
        }
    }
}

// The next task of a vehicle that has rested if that was due.
pub fn next_task(day: &Day, trip: Trip, cargo: Cargo, left: Marks) -> Next
    requires { SmallTrip day.now 2147483648 trip × CargoWithin cargo }
    ensures next_is { next_of result ≡ next_by day.now trip cargo (marked left.words) }
    ensures within { NextWithin day.now result }
{
    let choice = Choice { day, trip, cargo };
    match choice.near_stop(left) {
        Some(stop) => Next::Stop(stop),
        None if 0 < cargo.load => choice.tip_next(),
        None => choice.wait_next(left),
    }
}
