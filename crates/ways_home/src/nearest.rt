// The nearest open tip, in one pass over the tips.
ghost use Rattle.std.specs.Prelude.{◌≡◌, ◌<◌, ◌≤◌};
ghost use Rattle.rules.specs.Tests.{better, least};
ghost use Rattle.rules.specs.Fields.{tips, places, leg_minutes};
ghost use Rattle.rules.specs.Home.{open_tip, nearest_tip};
ghost use Rattle.ways_home.specs.Bests.{BestBy, ChosenOf};

use crate::best::{Best, NO_KEY};
use day::days::Day;

// Whether a tip, so many minutes away, is open on arrival.
fn is_open(day: &Day, place: usize, minute: u32, tip: usize, away: u32) -> bool
    requires { (minute < 268435456) × (0 < tip) × (tip ≤ tips day.now) × (away ≡ leg_minutes day.now place tip) }
    ensures { result ≡ open_tip day.now place minute tip }
{
    day.tip_window(tip).holds(minute + away)
}

// A tip in place of the best so far, where it is nearer and open on arrival. Both are made field by field: copied as a block it is slower.
fn better_tip(day: &Day, place: usize, minute: u32, tip: usize, best: Best) -> Best
    requires { (place < places day.now) × (minute < 268435456) × (0 < tip) × (tip ≤ tips day.now) × BestBy (leg_minutes day.now place) (tips day.now) best }
    ensures carried { BestBy (leg_minutes day.now place) (tips day.now) result }
    ensures choice { result.number ≡ better (open_tip day.now place minute) (leg_minutes day.now place) tip best.number }
{
    let leg = day.leg(place, tip);
    let away = leg.minutes;
    if away < best.key {
        if is_open(day, place, minute, tip, away) {
            return Best {
                number: tip,
                key: away,
            };
        }
    }
    Best {
        number: best.number,
        key: best.key,
    }
}

// The tip carried along once the first tips are looked at, so many of them: the nearest that is open on arrival, with its minutes.
pub fn nearest_of_first(day: &Day, place: usize, minute: u32, count: usize) -> Best
    requires { (place < places day.now) × (minute < 268435456) × (count ≤ tips day.now) }
    ensures carried { BestBy (leg_minutes day.now place) (tips day.now) result }
    ensures rule { result.number ≡ least (open_tip day.now place minute) (leg_minutes day.now place) count }
{
    let mut best = Best {
        number: 0,
        key: NO_KEY,
    };
    // From 0: a range with its end included has two exits, and its proof was 22 lines longer.
    for k in 0..count {
        best = better_tip(day, place, minute, k + 1, best);
    }
    best
}

// The nearest tip that is open on arrival, the lowest number among equals.
pub fn nearest_tip(day: &Day, place: usize, minute: u32) -> Option<usize>
    requires { (place < places day.now) × (minute < 268435456) }
    ensures { ChosenOf (tips day.now) (nearest_tip day.now place minute) result }
{
    nearest_of_first(day, place, minute, day.tips()).choice()
}
