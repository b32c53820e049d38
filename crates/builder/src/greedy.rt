// The greedy plan, written into the plan's buffer and answered.
ghost use Rattle.std.specs.Prelude.{◌≡◌, ◌*◌, ◌≤◌, length};
ghost use Rattle.rules.specs.Fields.{stops, IsAccepted};
ghost use Rattle.rules.specs.Build.{greedy_lefts, greedy_plan};
ghost use Rattle.rules.specs.AnswerValues.{plan_values};
ghost use Rattle.rules.specs.Planned.{planned, built_answer, built_buffer};
ghost use Rattle.laws.specs.Marks.{ones_of};

use crate::fleet::write_vehicles;
use crate::lefts::{fill_zeros, write_lefts};
use day::days::Day;
use rules::answers::{Answer, PlanAnswer};
use rules::faults::CallFault;
use vehicle_writer::writer::Written;

// The vehicles, the stops left out, and zeros to the end of the five words for each stop; the stops left out, and how many words the plan has.
fn write_plan(day: &Day, plan: &mut [u32]) -> Written
    requires { (stops day.now ≤ 240) × (5 * stops day.now ≤ length plan.old) }
    ensures size { (result.words ≡ length (greedy_plan day.now)) × (ones_of result.left.words ≡ length (greedy_lefts day.now)) }
    ensures text { plan.new ≡ planned day.now (greedy_plan day.now) plan.old }
{
    let vehicles = write_vehicles(day, plan);
    let lefts = write_lefts(vehicles.left, &mut plan[vehicles.words..]);
    let words = vehicles.words + lefts;
    fill_zeros(plan, words, 5 * day.stops());
    Written { words, ..vehicles }
}

// The answer on an accepted day.
pub fn build_accepted(day: &Day, plan: &mut [u32]) -> PlanAnswer
    requires { IsAccepted day.now }
    ensures answer { plan_values result ≡ built_answer day.now (length plan.old) }
    ensures buffer { plan.new ≡ built_buffer day.now plan.old }
{
    let need = 5 * day.stops();
    if plan.len() < need {
        return PlanAnswer::Refused {
            number: CallFault::Room as u32,
            place: need,
        };
    }
    let written = write_plan(day, plan);
    match checker::check_laid_out(day, &plan[..written.words]) {
        Answer::Lawful { distance, .. } => PlanAnswer::Planned {
            distance,
            trials: 0,
            settled: false,
            left_out: written.left.remaining() as usize,
            words: written.words,
        },
        // Not by From: a lawful answer doesn't say the words and the stops left out.
        Answer::Refused { number, place } => PlanAnswer::Refused { number, place },
    }
}
