// A plan gone through part by part, where no word is at fault: a vehicle's words, or the word of a stop left out. At a fault this walk
// ends without an answer. So it keeps no more than a lawful plan needs, and is faster than one that can tell each fault.
ghost use Rattle.std.specs.Prelude.{◌≡◌, ◌+◌, ◌<◌, ◌≤◌, length, IfSome};
ghost use Rattle.plan_parts.specs.Walked.{out_with, Leaves, PartTo, Reached, ToldAll};

use crate::start::{first_state, no_stops};
use plan_words::{PlanWord, read_word};
use rules::walk::{Cargo, Tally, Trip};
use trips::cargo::{nothing, same_cargo};
use trips::drives::{leave, same_trip};
use trips::limits::LimitedDay;
use word_steps::steps::State;
use word_steps::words::{left_word, task_step, vehicle_word};

// The state behind a part, and the index there.
#[derive(Clone, Copy)]
struct Part {
    end: usize,
    state: State,
}

// A vehicle is out since a tally. It is made field by field, for the reason of `same_trip`.
fn out_with(y: Tally, cargo: Cargo, trip: Trip) -> State
    requires { y.served + cargo.visits ≤ 4096 }
    ensures { result ≡ out_with y cargo trip }
{
    State {
        tally: Tally {
            inside: true,
            vehicles: y.vehicles,
            served: y.served + cargo.visits,
            left: y.left,
            last: y.last,
            distance: y.distance,
        },
        cargo: same_cargo(cargo),
        trip: same_trip(trip),
    }
}

// The words of a vehicle behind its A word. Between two words only cargo and trip change. A word that names no stop marks number 0, which
// no stop has.
fn round(
    limited: &LimitedDay,
    y: Tally,
    met: &mut [bool; 256],
    plan: &[u32],
    from: usize,
) -> Option<Part>
    requires { (length plan.now ≤ 4096) × (from ≤ length plan.now) × Leaves limited.now.day.now plan.now from y met.old }
    ensures { IfSome result (PartTo limited.now.day.now plan.now met.new from) }
{
    let mut cargo = nothing();
    let mut trip = leave(limited.day);
    // By index: over `plan[from..].iter().enumerate()`, which proves too, the check of one plan, less that of its day, takes 14 % more
    // instructions.
    for i in from..plan.len() {
        let s = out_with(y, cargo, trip);
        let Ok(step) = task_step(limited, s, met, plan[i]) else {
            return None;
        };
        met[step.stop] = true;
        let state = step.state;
        if !state.tally.inside {
            return Some(Part { end: i + 1, state });
        }
        cargo = state.cargo;
        trip = state.trip;
    }
    None
}

// The part that begins at an index.
fn next_part(
    limited: &LimitedDay,
    s: State,
    met: &mut [bool; 256],
    plan: &[u32],
    i: usize,
) -> Option<Part>
    requires { (length plan.now ≤ 4096) × (i < length plan.now) × Reached limited.now.day.now plan.now i s met.old }
    ensures { IfSome result (PartTo limited.now.day.now plan.now met.new i) }
{
    match read_word(plan[i]) {
        Some(PlanWord::Vehicle(number)) => {
            let Ok(out) = vehicle_word(limited.day, s, number) else {
                return None;
            };
            round(limited, out.state.tally, met, plan, i + 1)
        }
        Some(PlanWord::Left(stop)) => {
            let Ok(left) = left_word(limited.day, s, met, stop) else {
                return None;
            };
            met[left.stop] = true;
            let state = left.state;
            Some(Part { end: i + 1, state })
        }
        _ => None,
    }
}

// All parts of a plan: the tally at its end.
pub fn all_parts(limited: &LimitedDay, plan: &[u32]) -> Option<Tally>
    requires { length plan.now ≤ 4096 }
    ensures { IfSome result (ToldAll limited.now.day.now plan.now) }
{
    let mut s = first_state(limited.day);
    let mut met = no_stops();
    let mut i: usize = 0;
    // The index goes on by a whole part: there is no range to go over.
    while i < plan.len() {
        let part = next_part(limited, s, &mut met, plan, i)?;
        s = part.state;
        i = part.end;
    }
    Some(s.tally)
}
