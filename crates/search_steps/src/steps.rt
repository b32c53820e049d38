// The search but for the making of a trial: it begins with the greedy plan, lists the next trial, takes a plan over, and ends.
// That a lent buffer has five words for each stop is a clause of each function that writes in it, here and in candidates, attempts, trials and
// planner: it is a fact of a buffer and a day. A struct of both would be lent as `&mut`, and each function would ensure besides that its
// buffer stays the same one, as those with `Words` in vehicle_writer do.
ghost use Rattle.std.specs.Prelude.{◌≡◌, ◌+◌, ◌-◌, ◌≤◌, ◌<◌, ◌*◌, ◌^◌, length, take, drop};
ghost use Rattle.rules.specs.Fields.{stops, tips, IsAccepted};
ghost use Rattle.rules.specs.Build.{greedy_rounds};
ghost use Rattle.rules.specs.Attempts.{distance_of};
ghost use Rattle.trial_list.specs.Listing.{PlanTables, CursorFits, ListAnswer};
ghost use Rattle.search_steps.specs.Searches.{PlanAt, SomePlanAt, SetsFit, TakesOver, BeginsAll, k_at, next_list};

use crate::held::make_tables;
use candidates::copy_words;
use day::days::Day;
use tracks::plan_tables::{Held, Tables};
use trial_list::listing::{Cursor, Listed, Listing, first_trial, next_trial};

// What is asked for: each K in turn, the greatest at the end, and how many trials may be made.
#[derive(Clone, Copy)]
pub struct Setting<'a> {
    pub sets: &'a [usize],
    pub budget: u64,
    pub ghost fit: { SetsFit sets.now },
}

// A search goes on, or it has ended: its budget is spent, or its plan is settled.
#[derive(Clone, Copy, PartialEq, Eq, Debug)]
pub enum Standing {
    Going,
    Spent,
    Settled,
}

// The plan held: its words, its vehicles and how far it drives; how many trials were made, which K is at hand, where its list goes on, and
// where the search stands.
#[derive(Clone, Copy)]
pub struct Search {
    pub words: usize,
    pub count: usize,
    pub distance: u32,
    pub made: u64,
    pub stage: usize,
    pub cursor: Cursor,
    pub standing: Standing,
}

// The plan at the front of the working buffer is taken over, and its tables are made. How many vehicles it has.
pub fn take_over(
    day: &Day,
    work: &mut [u32],
    words: usize,
    plan: &mut [u32],
    tables: &mut Tables,
) -> usize
    requires { IsAccepted day.now × SomePlanAt day.now work.old words × (5 * stops day.now ≤ length plan.old) × (5 * stops day.now ≤ length work.old) }
    ensures { TakesOver day.now work.old words plan.new tables.new result }
{
    copy_words(&work[0..words], plan);
    make_tables(day, &plan[0..words], tables, work)
}

// The list at hand is at its end: that of the next K begins, or behind the last the search has ended, settled. The K are lent without their
// `Setting`: neither this nor the listing of a trial asks that they fit.
pub fn next_list(sets: &[usize], s: Search) -> Search
    requires { s.stage + 1 < 2 ^ 64 }
    ensures { result ≡ next_list sets.now s }
{
    let stage = s.stage + 1;
    let standing = if stage == sets.len() {
        Standing::Settled
    } else {
        Standing::Going
    };
    Search {
        stage,
        cursor: first_trial(),
        standing,
        ..s
    }
}

// The next trial of the plan held, or none.
pub fn list_next(
    day: &Day,
    sets: &[usize],
    table: &[u8],
    tables: &Tables,
    plan: &[u32],
    s: Search,
) -> Listed<Cursor>
    requires at_hand { (s.stage < length sets.now) × CursorFits tables.now.starts s.count s.cursor × (s.words ≤ length plan.now) }
    requires held { PlanTables (stops day.now) (tips day.now) (k_at sets.now s.stage) table.now tables.now.starts tables.now.vehicles (take (s.words - 0) (drop 0 plan.now)) s.count }
    ensures { ListAnswer (stops day.now) (tips day.now) (k_at sets.now s.stage) table.now tables.now.starts tables.now.vehicles (take (s.words - 0) (drop 0 plan.now)) s.count s.cursor result }
{
    let listing = Listing {
        stops: day.stops(),
        tips: day.tips(),
        k: sets[s.stage],
        neighbours: table,
        starts: &tables.starts,
        vehicles: &tables.vehicles,
        count: s.count,
        plan: &plan[0..s.words],
    };
    next_trial(&listing, s.cursor)
}

// The greedy plan is held; its tables are made, and no trial is made yet.
pub fn begin(day: &Day, held: Held, plan: &[u32], tables: &mut Tables, work: &mut [u32]) -> Search
    requires buffers { IsAccepted day.now × (5 * stops day.now ≤ length work.old) }
    requires plan_at { PlanAt day.now plan.now held.words (greedy_rounds day.now) × (held.distance ≡ distance_of day.now (greedy_rounds day.now)) }
    ensures { BeginsAll day.now plan.now tables.new result }
{
    let words = held.words;
    let front = &plan[0..words];
    let count = make_tables(day, front, tables, work);
    Search {
        words,
        count,
        distance: held.distance,
        made: 0,
        stage: 0,
        cursor: first_trial(),
        standing: Standing::Going,
    }
}
