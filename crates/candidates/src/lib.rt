// The plan that a trial gives, written whole.
#![tactic(auto)]

ghost use Rattle.std.specs.Prelude.{◌≡◌, ◌||◌, ◌<◌, ◌≤◌, ◌*◌, eqb, length};
ghost use Rattle.rules.specs.Fields.{stops, IsAccepted};
ghost use Rattle.laws.specs.Buffer.{Wrote};
ghost use Rattle.edits.specs.EditWords.{edit_of, EditKnown};
ghost use Rattle.trial_list.specs.TrialRest.{listed_trial};
ghost use Rattle.candidates.specs.Candidates.{SomeRoundable, WritesRound, SomeTrying, SomeNext, WritesNext, WritesRounds, WritesCandidate};

use day::days::Day;
use edits::Edit;
use trial_list::listing::Trial;
use walks::vehicle::walk_vehicle;

// The words are copied to the front of the part. Word by word: `copy_from_slice` calls the C library's memmove, and the archive asks for
// nothing but memset.
pub fn copy_words(words: &[u32], part: &mut [u32])
    requires { length words.now ≤ length part.old }
    ensures { Wrote words.now part.old part.new (length words.now) }
{
    for (i, word) in words.iter().enumerate() {
        part[i] = *word;
    }
}

// One vehicle of the candidate: walked again where the trial touches it, else as it is. How many words it has; none where the trial fails.
fn write_round(
    day: &Day,
    edit: Edit,
    touched: bool,
    number: u32,
    words: &[u32],
    part: &mut [u32],
) -> Option<usize>
    requires { IsAccepted day.now × EditKnown day.now edit × (number < 256) × SomeRoundable day.now (edit_of edit) touched number words.now part.old }
    ensures { WritesRound day.now (edit_of edit) touched number words.now part.old part.new result }
{
    if touched {
        let end = words.len() - 1;
        let walked = walk_vehicle(day, edit, number, &words[1..end], part)?;
        return Some(walked.words);
    }
    copy_words(words, part);
    Some(words.len())
}

// Whether the trial touches the vehicle with this number.
fn is_touched(trial: Trial, number: usize) -> bool
    ensures { result ≡ (eqb number trial.one || eqb number trial.other) }
{
    (number == trial.one) | (number == trial.other)
}

// Vehicle v of the candidate, counted from 0.
fn next_round(
    day: &Day,
    trial: Trial,
    plan: &[u32],
    starts: &[u32],
    v: usize,
    part: &mut [u32],
) -> Option<usize>
    requires { IsAccepted day.now × EditKnown day.now trial.edit × SomeNext day.now plan.now starts.now (listed_trial trial) v part.old }
    ensures { WritesNext day.now plan.now starts.now (listed_trial trial) v part.old part.new result }
{
    let from = starts[v] as usize;
    let to = starts[v + 1] as usize;
    let touched = is_touched(trial, v + 1);
    write_round(
        day,
        trial.edit,
        touched,
        (v + 1) as u32,
        &plan[from..to],
        part,
    )
}

// The vehicles of the candidate, one behind the other.
fn write_rounds(
    day: &Day,
    trial: Trial,
    plan: &[u32],
    starts: &[u32],
    count: usize,
    work: &mut [u32],
) -> Option<usize>
    requires { IsAccepted day.now × EditKnown day.now trial.edit × SomeTrying day.now plan.now starts.now (listed_trial trial) count × (5 * stops day.now ≤ length work.old) }
    ensures { WritesRounds day.now plan.now starts.now (listed_trial trial) count work.old work.new result }
{
    let mut at: usize = 0;
    for v in 0..count {
        at += next_round(day, trial, plan, starts, v, &mut work[at..])?;
    }
    Some(at)
}

// The candidate: its vehicles, and the stops left out as they were. How many words it has; none where the trial fails.
pub fn write_candidate(
    day: &Day,
    trial: Trial,
    plan: &[u32],
    starts: &[u32],
    count: usize,
    work: &mut [u32],
) -> Option<usize>
    requires { IsAccepted day.now × EditKnown day.now trial.edit × SomeTrying day.now plan.now starts.now (listed_trial trial) count × (5 * stops day.now ≤ length work.old) }
    ensures { WritesCandidate day.now plan.now starts.now (listed_trial trial) count work.old work.new result }
{
    let at = write_rounds(day, trial, plan, starts, count, work)?;
    let lefts = &plan[starts[count] as usize..];
    copy_words(lefts, &mut work[at..]);
    Some(at + lefts.len())
}
