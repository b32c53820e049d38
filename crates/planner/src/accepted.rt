// Planning with trials on an accepted day.
ghost use Rattle.std.specs.Prelude.{◌≡◌, ◌≤◌, ◌<◌, ◌*◌, length};
ghost use Rattle.rules.specs.Fields.{stops, IsAccepted};
ghost use Rattle.rules.specs.AnswerValues.{plan_values};
ghost use Rattle.rules.specs.Planned.{few_neighbours, long_enough, search_answer, search_buffer, plan_answer, plan_buffer, growing_answer, growing_buffer, SpareKept};
ghost use Rattle.planner.specs.WorkedOver.{WorkedOver};

use builder::greedy::build_accepted;
use day::days::Day;
use rules::answers::PlanAnswer;
use rules::faults::CallFault;
use search_steps::steps::{Setting, Standing};
use trials::improve::improve;

// The greedy plan, worked over in buffers that are long enough.
fn work_over(day: &Day, set: &Setting, plan: &mut [u32], work: &mut [u32]) -> PlanAnswer
    requires { IsAccepted day.now × (5 * stops day.now ≤ length plan.old) × (5 * stops day.now ≤ length work.old) }
    ensures { WorkedOver day.now set.now.sets.now set.now.budget plan.old plan.new (plan_values result) }
{
    match build_accepted(day, plan) {
        PlanAnswer::Planned {
            distance,
            left_out,
            words,
            ..
        } => {
            let need = 5 * day.stops();
            let last = improve(day, set, words, distance, &mut plan[0..need], work);
            PlanAnswer::Planned {
                distance: last.distance,
                trials: last.made,
                settled: last.standing == Standing::Settled,
                left_out,
                words: last.words,
            }
        }
        // Named, and not a default: that it is a refusal is what the proof takes up.
        PlanAnswer::Refused { number, place } => PlanAnswer::Refused { number, place },
    }
}

// Whether K is one of 1..50.
fn is_few(k: u64) -> bool
    ensures { result ≡ few_neighbours k }
{
    (1 <= k) & (k <= 50)
}

// Whether both buffers have the words that are needed.
fn are_long(day: &Day, room: usize, spare: usize) -> bool
    requires { stops day.now ≤ 240 }
    ensures { result ≡ long_enough day.now room spare }
{
    let need = 5 * day.stops();
    (need <= room) & (need <= spare)
}

// The answer on an accepted day, for the K that are asked for.
fn plan_sets(day: &Day, set: &Setting, plan: &mut [u32], work: &mut [u32]) -> PlanAnswer
    requires { IsAccepted day.now }
    ensures answer { plan_values result ≡ search_answer day.now set.now.sets.now set.now.budget (length plan.old) (length work.old) }
    ensures buffer { plan.new ≡ search_buffer day.now set.now.sets.now set.now.budget (length work.old) plan.old }
    ensures spare { SpareKept (search_answer day.now set.now.sets.now set.now.budget (length plan.old) (length work.old)) work.old work.new }
{
    if are_long(day, plan.len(), work.len()) {
        return work_over(day, set, plan, work);
    }
    PlanAnswer::Refused {
        number: CallFault::Room as u32,
        place: 5 * day.stops(),
    }
}

// The answer on an accepted day with one K.
pub(crate) fn plan_accepted(
    day: &Day,
    k: u64,
    budget: u64,
    plan: &mut [u32],
    work: &mut [u32],
) -> PlanAnswer
    requires { IsAccepted day.now }
    ensures answer { plan_values result ≡ plan_answer day.now k budget (length plan.old) (length work.old) }
    ensures buffer { plan.new ≡ plan_buffer day.now k budget (length work.old) plan.old }
    ensures spare { SpareKept (plan_answer day.now k budget (length plan.old) (length work.old)) work.old work.new }
{
    if is_few(k) {
        let one = Setting {
            sets: &[k as usize],
            budget,
        };
        return plan_sets(day, &one, plan, work);
    }
    PlanAnswer::Refused {
        number: CallFault::Neighbours as u32,
        place: k as usize,
    }
}

// The answer on an accepted day with growing neighbour sets: 5, 10, 25, 50.
pub(crate) fn grow_accepted(
    day: &Day,
    budget: u64,
    plan: &mut [u32],
    work: &mut [u32],
) -> PlanAnswer
    requires { IsAccepted day.now }
    ensures answer { plan_values result ≡ growing_answer day.now budget (length plan.old) (length work.old) }
    ensures buffer { plan.new ≡ growing_buffer day.now budget (length work.old) plan.old }
    ensures spare { SpareKept (growing_answer day.now budget (length plan.old) (length work.old)) work.old work.new }
{
    let four = Setting {
        sets: &[5, 10, 25, 50],
        budget,
    };
    plan_sets(day, &four, plan, work)
}
