// What is promised of the calls, as small clients that make them. Here demand 3: a day is planned with trials twice, and what is owed of the
// two plans is the client's contract.
#![tactic(auto)]

pub mod calls;
pub mod tips;

ghost use Rattle.std.specs.Prelude.{[], ◌∷◌, ◌≤◌, length};
ghost use Rattle.rules.specs.Search.{growing_sets};
ghost use Rattle.rules.specs.AnswerValues.{plan_values};
ghost use Rattle.rules.specs.Demands.{DemandThree};
ghost use Rattle.promises.specs.Supposed.{Supposed};

use rules::answers::PlanAnswer;

// The answers to the two calls.
#[derive(Clone, Copy)]
pub struct Twice {
    pub first: PlanAnswer,
    pub second: PlanAnswer,
}

// A day planned with trials, K from 1 to 50, once for each of two budgets. This and `grow_twice` stay two functions: each is two calls and a
// promise of its own, and one function over a closure would be longer than both.
pub fn plan_twice(
    day: &[u32],
    k: u64,
    budget: u64,
    larger: u64,
    first: &mut [u32],
    second: &mut [u32],
    work: &mut [u32],
) -> Twice
    ensures { 1 ≤ k → k ≤ 50 → Supposed day.now budget larger (length first.old) (length second.old) (length work.old)
        → DemandThree day.now (k ∷ []) budget larger (plan_values result.first) first.new (plan_values result.second) second.new }
{
    Twice {
        first: planner::plan(day, k, budget, first, work),
        second: planner::plan(day, k, larger, second, work),
    }
}

// A day planned with growing neighbour sets once for each of two budgets.
pub fn grow_twice(
    day: &[u32],
    budget: u64,
    larger: u64,
    first: &mut [u32],
    second: &mut [u32],
    work: &mut [u32],
) -> Twice
    ensures { Supposed day.now budget larger (length first.old) (length second.old) (length work.old)
        → DemandThree day.now growing_sets budget larger (plan_values result.first) first.new (plan_values result.second) second.new }
{
    Twice {
        first: planner::plan_growing(day, budget, first, work),
        second: planner::plan_growing(day, larger, second, work),
    }
}
