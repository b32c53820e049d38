// The walk over all words of a plan.
ghost use Rattle.std.specs.Prelude.{◌≡◌, ◌≤◌, length};
ghost use Rattle.rules.specs.Check.{start, check_from};
ghost use Rattle.rules.specs.AnswerValues.{answer_values};
ghost use Rattle.trips.specs.Trips.{TallyWithin};
ghost use Rattle.plan_parts.specs.Walked.{end_of};

use day::days::Day;
use plan_parts::parts::all_parts;
use plan_parts::start::{first_state, no_stops};
use rules::answers::Answer;
use rules::faults::PlanFault;
use rules::walk::Tally;
use trips::limits::LimitedDay;
use word_steps::words::word_step;

// The answer at the plan's end: every stop is met where as many are served or left out as there are.
fn finish(y: Tally, stops: usize, end: usize) -> Answer
    requires { TallyWithin 4096 y }
    ensures { answer_values result ≡ end_of stops end y }
{
    if y.inside {
        return Answer::Refused {
            number: PlanFault::Form as u32,
            place: end,
        };
    }
    if ((y.served + y.left) as usize) < stops {
        return Answer::Refused {
            number: PlanFault::Stop as u32,
            place: end,
        };
    }
    Answer::Lawful {
        distance: y.distance,
        vehicles: y.vehicles,
        served: y.served,
    }
}

// The answer word by word. A word that names no stop marks number 0, which no stop has.
fn check_each(limited: &LimitedDay, plan: &[u32]) -> Answer
    requires { length plan.now ≤ 4096 }
    ensures { answer_values result ≡ check_from limited.now.day.now plan.now 0 (start limited.now.day.now) }
{
    let mut s = first_state(limited.day);
    let mut met = no_stops();
    for (i, word) in plan.iter().enumerate() {
        match word_step(limited, s, &met, *word) {
            Ok(step) => {
                met[step.stop] = true;
                s = step.state;
            }
            Err(fault) => {
                return Answer::Refused {
                    number: fault as u32,
                    place: i,
                };
            }
        }
    }
    finish(s.tally, limited.day.stops(), plan.len())
}

// The answer on a plan of at most 4,096 words. Where the walk over the parts ends without an answer, each word is looked at.
pub(crate) fn check_words(day: &Day, plan: &[u32]) -> Answer
    requires { length plan.now ≤ 4096 }
    ensures { answer_values result ≡ check_from day.now plan.now 0 (start day.now) }
{
    let limited = LimitedDay::new(day);
    match all_parts(&limited, plan) {
        Some(tally) => finish(tally, day.stops(), plan.len()),
        None => check_each(&limited, plan),
    }
}
