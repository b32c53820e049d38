// The search: trial after trial, list after list, from the start of the first list again once a plan is kept. The day, what is asked for and
// the table of neighbours stay three parameters: of a struct of them each clause would say `given.now.day.now`, and not `day.now`. So do the
// lent buffers and the tables, by which `after_trial` and `step_on` have eight: of a struct of them each clause would say `lent.old.plan.now`,
// and each function would ensure besides that its buffers stay the same ones, as those with `Words` in vehicle_writer do.
ghost use Rattle.std.specs.Prelude.{◌≡◌, true, false, ◌+◌, ◌≤◌, ◌<◌, ◌*◌, ◌^◌, length};
ghost use Rattle.rules.specs.Fields.{stops, IsAccepted};
ghost use Rattle.rules.specs.Build.{greedy_rounds};
ghost use Rattle.rules.specs.Attempts.{distance_of};
ghost use Rattle.neighbours.specs.Tables.{TableOf};
ghost use Rattle.search_steps.specs.Searches.{PlanAt, NextTrial, Searching, is_going, last_k, StepsTo};
ghost use Rattle.trials.specs.Improvements.{AfterTrial};

use attempts::tries::make_trial;
use day::days::Day;
use search_steps::steps::{Search, Setting, Standing, begin, list_next, next_list, take_over};
use tracks::plan_tables::{Held, Tables};
use trial_list::listing::{Cursor, Trial, first_trial};

// A trial was made: its plan is taken over where it is kept, and else the list goes on.
fn after_trial(
    day: &Day,
    set: &Setting,
    work: &mut [u32],
    plan: &mut [u32],
    tables: &mut Tables,
    s: Search,
    next: Cursor,
    tried: Option<Held>,
) -> Search
    requires buffers { IsAccepted day.now × (5 * stops day.now ≤ length plan.old) × (5 * stops day.now ≤ length work.old) }
    requires made { AfterTrial day.now set.now.sets.now set.now.budget work.old plan.old tables.old s next tried × (s.made + 1 < 2 ^ 64) }
    ensures { StepsTo day.now set.now.sets.now set.now.budget plan.new tables.new s result }
{
    let made = s.made + 1;
    match tried {
        Some(held) => {
            let count = take_over(day, work, held.words, plan, tables);
            Search {
                words: held.words,
                count,
                distance: held.distance,
                made,
                stage: 0,
                cursor: first_trial(),
                standing: Standing::Going,
            }
        }
        None => Search {
            made,
            cursor: next,
            ..s
        },
    }
}

// A trial that is listed is made, and the search goes on behind it. That it can be counted is a clause: a budget that is lent tells no bound.
fn step_on(
    day: &Day,
    set: &Setting,
    work: &mut [u32],
    plan: &mut [u32],
    tables: &mut Tables,
    s: Search,
    trial: Trial,
    next: Cursor,
) -> Search
    requires buffers { IsAccepted day.now × (5 * stops day.now ≤ length plan.old) × (5 * stops day.now ≤ length work.old) }
    requires listed { NextTrial day.now set.now.sets.now set.now.budget plan.old tables.old s trial next × (s.made + 1 < 2 ^ 64) }
    ensures { StepsTo day.now set.now.sets.now set.now.budget plan.new tables.new s result }
{
    let words = s.words;
    let tried = make_trial(
        day,
        trial,
        &plan[0..words],
        tables,
        s.count,
        s.distance,
        work,
    );
    after_trial(day, set, work, plan, tables, s, next, tried)
}

// The next trial is made, or the search ends, not settled, once the budget is gone; at the end of a list that of the next K begins, or the
// search ends, settled.
fn next_step(
    day: &Day,
    set: &Setting,
    table: &[u8],
    work: &mut [u32],
    plan: &mut [u32],
    tables: &mut Tables,
    s: Search,
) -> Search
    requires buffers { IsAccepted day.now × TableOf day.now (last_k set.now.sets.now) table.now × (5 * stops day.now ≤ length plan.old) × (5 * stops day.now ≤ length work.old) }
    requires searching { Searching day.now set.now.sets.now set.now.budget plan.old tables.old s × (is_going s.standing ≡ true) }
    ensures { StepsTo day.now set.now.sets.now set.now.budget plan.new tables.new s result }
{
    let listed = list_next(day, set.sets, table, tables, plan, s);
    let Some(trial) = listed.trial else {
        return next_list(set.sets, s);
    };
    if s.made == set.budget {
        return Search {
            standing: Standing::Spent,
            ..s
        };
    }
    step_on(day, set, work, plan, tables, s, trial, listed.next)
}

// Trials of the greedy plan, and of the plans that come of it, are made until the search ends.
pub(crate) fn run_trials(
    day: &Day,
    set: &Setting,
    held: Held,
    table: &[u8],
    work: &mut [u32],
    plan: &mut [u32],
    tables: &mut Tables,
) -> Search
    requires buffers { IsAccepted day.now × TableOf day.now (last_k set.now.sets.now) table.now × (5 * stops day.now ≤ length plan.old) × (5 * stops day.now ≤ length work.old) }
    requires plan_at { PlanAt day.now plan.old held.words (greedy_rounds day.now) × (held.distance ≡ distance_of day.now (greedy_rounds day.now)) }
    ensures { Searching day.now set.now.sets.now set.now.budget plan.new tables.new result × (is_going result.standing ≡ false) }
{
    let mut s = begin(day, held, plan, tables, work);
    // How many steps there are is known only at the end: there is no range to go over.
    while s.standing == Standing::Going {
        s = next_step(day, set, table, work, plan, tables, s);
    }
    s
}
