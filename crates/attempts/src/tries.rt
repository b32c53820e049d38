// One trial of the plan held.
ghost use Rattle.std.specs.Prelude.{◌≡◌, false, List, ◌≤◌, ◌*◌, length};
ghost use Rattle.rules.specs.Fields.{stops, IsAccepted};
ghost use Rattle.rules.specs.Plan.{Round};
ghost use Rattle.edits.specs.EditWords.{EditKnown};
ghost use Rattle.trial_list.specs.TrialRest.{listed_trial};
ghost use Rattle.attempts.specs.Tries.{SomeTouched, Retries, SomeMeasured, NoneKept, TriedAs, Judged, Made, SomeMade};

use candidates::write_candidate;
use checker::check_laid_out;
use day::days::Day;
use rules::answers::Answer;
use spans::Tasks;
use tracks::measure::measure;
use tracks::plan_tables::{Held, Tables};
use trial_list::listing::Trial;

// How far vehicle v, counted from 0, drives as the trial changes it; none where the trial fails. The working buffer is worked in.
fn retry(
    day: &Day,
    trial: Trial,
    plan: &[u32],
    tables: &Tables,
    v: usize,
    work: &mut [u32],
) -> Option<u32>
    requires { IsAccepted day.now × EditKnown day.now trial.edit × SomeTouched day.now plan.now tables.now (listed_trial trial) v × (5 * stops day.now ≤ length work.old) }
    ensures { Retries day.now plan.now tables.now (listed_trial trial) v result }
{
    let tracks = &tables.tracks;
    let from = tables.starts[v] as usize + 1;
    let to = tables.starts[v + 1] as usize - 1;
    let tasks = Tasks {
        spots: &tracks.spots,
        from,
        words: &plan[from..to],
    };
    let span = tasks.span_of(trial.edit, v + 1 == trial.one);
    measure(day, trial.edit, span, from, tasks.words, tracks, work)
}

// Whether the touched vehicles, walked again, drive less than before. Where they do not, or the trial fails, no lawful, shorter plan comes of it.
fn is_shorter(day: &Day, trial: Trial, plan: &[u32], tables: &Tables, work: &mut [u32]) -> bool
    requires { IsAccepted day.now × EditKnown day.now trial.edit × SomeMeasured day.now plan.now tables.now (listed_trial trial) × (5 * stops day.now ≤ length work.old) }
    ensures { result ≡ false → NoneKept day.now plan.now tables.now (listed_trial trial) }
{
    let v = trial.one - 1;
    let Some(first) = retry(day, trial, plan, tables, v, work) else {
        return false;
    };
    if trial.one == trial.other {
        return first < tables.distances[v];
    }
    let u = trial.other - 1;
    let Some(second) = retry(day, trial, plan, tables, u, work) else {
        return false;
    };
    u64::from(first) + u64::from(second)
        < u64::from(tables.distances[v]) + u64::from(tables.distances[u])
}

// A plan is kept where it is lawful and drives less.
fn judge_candidate(day: &Day, distance: u32, plan: &[u32]) -> Option<Held>
    ensures { Judged day.now plan.now distance result }
{
    match check_laid_out(day, plan) {
        Answer::Lawful {
            distance: driven,
            ..
        } if driven < distance => Some(Held {
            words: plan.len(),
            distance: driven,
        }),
        _ => None,
    }
}

// The trial: where a plan is kept, its words stand at the front of the working buffer.
pub fn make_trial(
    day: &Day,
    trial: Trial,
    plan: &[u32],
    tables: &Tables,
    count: usize,
    distance: u32,
    work: &mut [u32],
) -> Option<Held>
    requires { IsAccepted day.now × EditKnown day.now trial.edit × SomeMade day.now plan.now tables.now (listed_trial trial) count distance × (5 * stops day.now ≤ length work.old) }
    ensures { (rounds : List Round) → Made day.now plan.now tables.now (listed_trial trial) count distance rounds → TriedAs day.now (listed_trial trial) rounds work.new result }
{
    if !is_shorter(day, trial, plan, tables, work) {
        return None;
    }
    let words = write_candidate(day, trial, plan, &tables.starts, count, work)?;
    judge_candidate(day, distance, &work[..words])
}
