// The greedy plan, worked over by trials in the buffer where it stands.
ghost use Rattle.std.specs.Prelude.{◌≡◌, ◌≤◌, ◌*◌, length};
ghost use Rattle.rules.specs.Fields.{stops, IsAccepted};
ghost use Rattle.rules.specs.Build.{greedy_rounds};
ghost use Rattle.rules.specs.Attempts.{distance_of};
ghost use Rattle.search_steps.specs.Searches.{PlanAt};
ghost use Rattle.trials.specs.Improvements.{Improved};

use crate::search::run_trials;
use builder::lefts::fill_zeros;
use day::days::Day;
use neighbours::table::fill_table;
use search_steps::steps::{Search, Setting};
use tracks::plan_tables::{Held, Tables};

// The plan that the trials come to fills the buffer, with zeros behind it. Neighbours are worked out once, for the greatest K.
pub fn improve(
    day: &Day,
    set: &Setting,
    words: usize,
    distance: u32,
    plan: &mut [u32],
    work: &mut [u32],
) -> Search
    requires buffers { IsAccepted day.now × (length plan.old ≡ 5 * stops day.now) × (5 * stops day.now ≤ length work.old) }
    requires plan_at { PlanAt day.now plan.old words (greedy_rounds day.now) × (distance ≡ distance_of day.now (greedy_rounds day.now)) }
    ensures { Improved day.now set.now.sets.now set.now.budget plan.new result }
{
    let mut table = [0u8; 12050];
    let mut tables = Tables::new();
    let greatest = set.sets[set.sets.len() - 1];
    fill_table(day, greatest, &mut table);
    let last = run_trials(
        day,
        set,
        Held { words, distance },
        &table,
        work,
        plan,
        &mut tables,
    );
    let end = plan.len();
    fill_zeros(plan, last.words, end);
    last
}
