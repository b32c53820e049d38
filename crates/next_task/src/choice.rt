// Which stop a vehicle takes next: of the stops that can be taken at once the nearest, which is step 3, or of those worth waiting for the
// first to open, which is step 5.
ghost use Rattle.std.specs.Prelude.{◌≡◌, Bool, true, false, not, ◌&&◌, ltb, leb, ◌+◌, ◌<◌, ◌≤◌};
ghost use Rattle.rules.specs.Fields.{stops, stop_place};
ghost use Rattle.rules.specs.Cargo.{over_limits};
ghost use Rattle.rules.specs.Trip.{arrival};
ghost use Rattle.rules.specs.Choice.{taking, suits};
ghost use Rattle.laws.specs.Marks.{marked};
ghost use Rattle.trips.specs.Trips.{CargoWithin, SmallTrip};
ghost use Rattle.ways_home.specs.Bests.{keys_end, BestBy, ChosenOf};
ghost use Rattle.next_task.specs.Wanted.{timely, key_of, candidate, Candidate, FromCandidate, better_stop, best_in_word, best_stop};

use day::days::Day;
use marks::Marks;
use rules::walk::{Cargo, Trip};
use trips::cargo::load_on;
use trips::limits::LimitedDay;
use ways_home::best::{Best, NO_KEY};
use ways_home::ways::{after_stop, is_way_home};

// One of the two searches: when a stop has to be reached, and what stops are compared by.
pub(crate) trait Search {
    ghost near: { Bool };

    // Whether a stop is reached at the right time.
    fn is_timely(day: &Day, trip: Trip, stop: usize) -> bool
        requires { SmallTrip day.now 2147483648 trip × (0 < stop) × (stop ≤ stops day.now) }
        ensures { result ≡ timely near day.now trip stop };

    // The key of a stop.
    fn key(day: &Day, trip: Trip, stop: usize) -> u32
        requires { SmallTrip day.now 2147483648 trip × (0 < stop) × (stop ≤ stops day.now) }
        ensures { (result ≡ key_of near day.now trip stop) × (result < keys_end) };
}

// Step 3: stops that are reached within their window, by the minutes to them and then their closing.
pub(crate) struct Near;

impl Search for Near {
    ghost near = { true };

    fn is_timely(day: &Day, trip: Trip, stop: usize) -> bool {
        let leg = day.leg(trip.place, day.stop_place(stop));
        day.stop_window(stop).holds(trip.minute + leg.minutes)
    }

    fn key(day: &Day, trip: Trip, stop: usize) -> u32 {
        let leg = day.leg(trip.place, day.stop_place(stop));
        leg.minutes * 4096 + day.stop_window(stop).closing
    }
}

// Step 5: stops that are reached before they open, by their opening and then their closing.
pub(crate) struct Waiting;

impl Search for Waiting {
    ghost near = { false };

    fn is_timely(day: &Day, trip: Trip, stop: usize) -> bool {
        let leg = day.leg(trip.place, day.stop_place(stop));
        trip.minute + leg.minutes < day.stop_window(stop).opening
    }

    fn key(day: &Day, _trip: Trip, stop: usize) -> u32 {
        let hours = day.stop_window(stop);
        hours.opening * 4096 + hours.closing
    }
}

// A vehicle before its next task, with small numbers; what it does then is in `tasks`. `next_task` makes it of its parts and asks that they be
// small: made by the caller instead, its cargo is copied as a block, and the build took 3 to 6 in a hundred longer.
#[derive(Clone, Copy)]
pub(crate) struct Choice<'a> {
    pub day: &'a Day<'a>,
    pub trip: Trip,
    pub cargo: Cargo,
    ghost small: { SmallTrip day.now 2147483648 trip },
    ghost light: { CargoWithin cargo },
}

impl<'a> Choice<'a> {
    // Whether the kg of one stop more stay within Q, Q* and S*.
    fn fits(&self, stop: usize) -> bool
        requires { (0 < stop) × (stop ≤ stops self.now.day.now) }
        ensures { result ≡ not (over_limits self.now.day.now (taking self.now.day.now self.now.cargo stop)) }
    {
        let more = load_on(self.cargo, self.day.stop_quantity(stop));
        !LimitedDay::new(self.day).is_over(more)
    }

    // Whether a stop, which fits, leaves a way home, where its service starts by its closing.
    fn is_suited(&self, stop: usize) -> bool
        requires stop_of { (0 < stop) × (stop ≤ stops self.now.day.now) }
        requires fitting { over_limits self.now.day.now (taking self.now.day.now self.now.cargo stop) ≡ false }
        requires in_time { arrival self.now.day.now self.now.trip (stop_place self.now.day.now stop) < 4096 }
        ensures { result ≡ suits self.now.day.now self.now.trip self.now.cargo stop }
    {
        let served = after_stop(self.day, self.trip, stop);
        is_way_home(
            self.day,
            served,
            self.cargo.load + self.day.stop_quantity(stop),
        )
    }

    // Whether a number is a stop's.
    fn is_stop(&self, stop: usize) -> bool
        ensures { result ≡ (ltb 0 stop && leb stop (stops self.now.day.now)) }
    {
        (1..=self.day.stops()).contains(&stop)
    }

    // Whether a stop is worth asking for a way home: it is a stop, its key is less than `most`, it fits, and it is reached at the right time.
    fn is_candidate<S: Search>(&self, most: u32, stop: usize) -> bool
        ensures { result ≡ candidate S.near self.now.day.now self.now.trip self.now.cargo (stops self.now.day.now) most stop }
    {
        self.is_stop(stop)
            && S::key(self.day, self.trip, stop) < most
            && self.fits(stop)
            && S::is_timely(self.day, self.trip, stop)
    }

    // Of the marks of a word those from the next candidate on; bit b is stop first + b. The loop is kept apart from the way home, which is
    // long and seldom asked for: in one loop with it a build of 240 stops took 1.65 million instructions, so 1.21. The caller goes on with the
    // marks that are left. An iterator over a word's bits would hold the same u64, and need its ghost list and laws, for this loop alone.
    fn from_candidate<S: Search>(&self, most: u32, marked: u64, first: usize) -> u64
        requires { first < 256 }
        ensures { FromCandidate S.near self.now.day.now self.now.trip self.now.cargo (stops self.now.day.now) most first marked result }
    {
        let mut rest = marked;
        while rest != 0 {
            let b = marks::lowest_bit(rest);
            if self.is_candidate::<S>(most, first + b) {
                return rest;
            }
            rest = marks::clear_bit(rest, b);
        }
        rest
    }

    // A candidate in place of the best so far, where it leaves a way home. Both are made field by field: copied as a block it is slower.
    fn better_stop<S: Search>(&self, stop: usize, best: Best) -> Best
        requires is { Candidate S.near self.now.day.now self.now.trip self.now.cargo (stops self.now.day.now) best.key stop }
        requires so_far { BestBy (key_of S.near self.now.day.now self.now.trip) (stops self.now.day.now) best }
        ensures carried { BestBy (key_of S.near self.now.day.now self.now.trip) (stops self.now.day.now) result }
        ensures choice { result.number ≡ better_stop S.near self.now.day.now self.now.trip self.now.cargo (stops self.now.day.now) stop best.number }
    {
        if self.is_suited(stop) {
            return Best {
                number: stop,
                key: S::key(self.day, self.trip, stop),
            };
        }
        Best {
            number: best.number,
            key: best.key,
        }
    }

    // The best of the one before and the stops of one word of the marks, whose bit b is stop first + b. The loop is no `for`: `from_candidate`
    // passes over several marks at a time, as many as its bound, the best so far, lets it.
    fn best_in_word<S: Search>(&self, word: u64, first: usize, before: Best) -> Best
        requires first { first < 256 }
        requires so_far { BestBy (key_of S.near self.now.day.now self.now.trip) (stops self.now.day.now) before }
        ensures carried { BestBy (key_of S.near self.now.day.now self.now.trip) (stops self.now.day.now) result }
        ensures choice { result.number ≡ best_in_word S.near self.now.day.now self.now.trip self.now.cargo (stops self.now.day.now) word first before.number }
    {
        let mut best = before;
        let mut rest = word;
        while rest != 0 {
            let from = self.from_candidate::<S>(best.key, rest, first);
            if from == 0 {
                return best;
            }
            let b = marks::lowest_bit(from);
            best = self.better_stop::<S>(first + b, best);
            rest = marks::clear_bit(from, b);
        }
        best
    }

    // The unrouted stop that is wanted and has the least key, the lowest number among equals.
    pub(crate) fn best_stop<S: Search>(&self, left: Marks) -> Option<usize>
        ensures { ChosenOf (stops self.now.day.now) (best_stop S.near self.now.day.now self.now.trip self.now.cargo (marked left.words)) result }
    {
        let mut best = Best {
            number: 0,
            key: NO_KEY,
        };
        for (i, word) in left.words.iter().enumerate() {
            best = self.best_in_word::<S>(*word, i * 64, best);
        }
        best.choice()
    }
}
