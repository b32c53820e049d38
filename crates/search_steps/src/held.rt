// The tables of the plan held, made anew once a plan is kept.
ghost use Rattle.std.specs.Prelude.{◌≤◌, ◌*◌, length};
ghost use Rattle.rules.specs.Fields.{stops, IsAccepted};
ghost use Rattle.search_steps.specs.Searches.{SomeHeld, MakesTables};

use day::days::Day;
use tracks::plan_tables::Tables;
use tracks::tables::track;
use trial_list::survey::survey;

// Where its vehicles are and how far they drive, and what trials are measured by. The working buffer is worked in. How many vehicles it has.
pub(crate) fn make_tables(day: &Day, plan: &[u32], tables: &mut Tables, work: &mut [u32]) -> usize
    requires { IsAccepted day.now × SomeHeld day.now plan.now × (5 * stops day.now ≤ length work.old) }
    ensures { MakesTables day.now plan.now tables.new result }
{
    let count = survey(
        day,
        plan,
        &mut tables.starts,
        &mut tables.vehicles,
        &mut tables.distances,
    );
    track(day, plan, &tables.starts, count, &mut tables.tracks, work);
    count
}
