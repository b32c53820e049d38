// What is left of a vehicle from each word of the plan on, in a table that is lent: a row for each word of the plan.
#![tactic(auto)]

ghost use Rattle.std.specs.Prelude.{◌≡◌, ◌&&◌, ◌-◌, ◌<◌, ◌≤◌, leb, length};
ghost use Rattle.rules.specs.Fields.{stops, tips, places};
ghost use Rattle.rules.specs.PlanWords.{word_of};
ghost use Rattle.plan_words.specs.Reading.{task_said};
ghost use Rattle.onward.specs.Behind.{distance_onward, stop_first, tip_first, task_first, SomeTaskWord, SomeRoundTo, FillsBehind};

use day::days::Day;
use plan_words::{PlanWord, read_word};

// How many rows a table of a plan has: one for each place of a plan of at most 1200 words, and the one behind it.
pub const ROWS: usize = 1201;

// The loads that a vehicle may come with, so that all that is left is driven as it stands; the place that comes next; the distance behind it.
// By default nothing is left but the way back, for an empty vehicle.
#[derive(Clone, Copy, Default)]
pub struct Onward {
    pub least: u32,
    pub most: u32,
    pub next: u32,
    pub distance: u32,
}

// Whether all that is left is driven as it stands by a vehicle that comes with this load.
pub fn is_smooth(o: Onward, load: u32) -> bool
    ensures { result ≡ (leb o.least load && leb load o.most) }
{
    (o.least <= load) & (load <= o.most)
}

// The distance that is left from a place on.
pub fn onward_distance(day: &Day, o: Onward, place: usize) -> u32
    requires { (place < places day.now) × (o.next < places day.now) × (o.distance < 2147483648) }
    ensures { result ≡ distance_onward day.now place o }
{
    day.leg(place, o.next as usize).distance + o.distance
}

// A place behind which no vehicle drives on as it stands: from 1 to 0 there is no load.
fn no_load(place: usize, distance: u32) -> Onward
    requires { place < 4294967296 }
    ensures { result ≡ record { least = 1; most = 0; next = place; distance = distance } }
{
    Onward {
        least: 1,
        most: 0,
        next: place as u32,
        distance,
    }
}

// Stop k in front of what is left.
fn stop_first(day: &Day, o: Onward, k: usize) -> Onward
    requires { (0 < k) × (k ≤ stops day.now) × (o.next < places day.now) × (o.distance < 2147483648) }
    ensures { result ≡ stop_first day.now k o }
{
    let q = day.stop_quantity(k);
    let place = day.stop_place(k);
    let distance = onward_distance(day, o, place);
    if q <= o.most {
        Onward {
            least: o.least.saturating_sub(q),
            most: o.most - q,
            next: place as u32,
            distance,
        }
    } else {
        no_load(place, distance)
    }
}

// Tip x in front of what is left.
fn tip_first(day: &Day, o: Onward, x: usize) -> Onward
    requires { (x ≤ tips day.now) × (o.next < places day.now) × (o.distance < 2147483648) }
    ensures { result ≡ tip_first day.now x o }
{
    let distance = onward_distance(day, o, x);
    if o.least == 0 {
        Onward {
            most: day.load_limit(),
            ..no_load(x, distance)
        }
    } else {
        no_load(x, distance)
    }
}

// One word more in front of what is left.
fn onward_before(day: &Day, o: Onward, w: u32) -> Onward
    requires { SomeTaskWord day.now w × (o.next < places day.now) × (o.distance < 2147483648) }
    ensures { result ≡ task_first day.now (task_said (word_of w)) o }
{
    match read_word(w) {
        Some(PlanWord::Stop(stop)) => stop_first(day, o, stop),
        Some(PlanWord::Tip(tip)) => tip_first(day, o, tip),
        _ => o,
    }
}

// The rows of the vehicle whose tasks stand from a place to another, where its E word is.
pub fn fill_behind(day: &Day, plan: &[u32], from: usize, end: usize, behind: &mut [Onward])
    requires { (length plan.now ≤ 1200) × SomeRoundTo day.now plan.now from end × (length behind.old ≡ ROWS) }
    ensures { FillsBehind day.now plan.now from end behind.old behind.new }
{
    let mut o = Onward::default();
    behind[end] = o;
    for at in (from..end).rev() {
        o = onward_before(day, o, plan[at]);
        behind[at] = o;
    }
}
