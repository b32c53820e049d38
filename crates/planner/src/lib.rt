// The calls that plan a day: any day, any lent buffers.
#![tactic(auto)]

mod accepted;

ghost use Rattle.std.specs.Prelude.{◌≡◌, length};
ghost use Rattle.rules.specs.AnswerValues.{plan_values};
ghost use Rattle.rules.specs.Planned.{build_answer, build_buffer, plan_answer, plan_buffer, growing_answer, growing_buffer, SpareKept};

use crate::accepted::{grow_accepted, plan_accepted};
use builder::greedy::build_accepted;
use judge::lay_out;
use rules::answers::PlanAnswer;

// The greedy plan of any day, in a buffer of any length.
pub fn build(day: &[u32], plan: &mut [u32]) -> PlanAnswer
    ensures answer { plan_values result ≡ build_answer day.now (length plan.old) }
    ensures buffer { plan.new ≡ build_buffer day.now plan.old }
{
    match lay_out(day) {
        Ok(laid) => { build_accepted(&laid, plan) }
        Err(refusal) => refusal.into(),
    }
}

// The plan of any day, worked over by trials: neighbourhoods of k stops, as many trials as the budget, buffers of any length.
pub fn plan(day: &[u32], k: u64, budget: u64, plan: &mut [u32], work: &mut [u32]) -> PlanAnswer
    ensures answer { plan_values result ≡ plan_answer day.now k budget (length plan.old) (length work.old) }
    ensures buffer { plan.new ≡ plan_buffer day.now k budget (length work.old) plan.old }
    ensures spare { SpareKept (plan_answer day.now k budget (length plan.old) (length work.old)) work.old work.new }
{
    match lay_out(day) {
        Ok(laid) => { plan_accepted(&laid, k, budget, plan, work) }
        Err(refusal) => refusal.into(),
    }
}

// The plan of any day, worked over by trials with growing neighbour sets: one budget for all, buffers of any length.
pub fn plan_growing(day: &[u32], budget: u64, plan: &mut [u32], work: &mut [u32]) -> PlanAnswer
    ensures answer { plan_values result ≡ growing_answer day.now budget (length plan.old) (length work.old) }
    ensures buffer { plan.new ≡ growing_buffer day.now budget (length work.old) plan.old }
    ensures spare { SpareKept (growing_answer day.now budget (length plan.old) (length work.old)) work.old work.new }
{
    match lay_out(day) {
        Ok(laid) => { grow_accepted(&laid, budget, plan, work) }
        Err(refusal) => refusal.into(),
    }
}
