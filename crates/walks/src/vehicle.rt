// A vehicle whose words are changed and walked again.
ghost use Rattle.std.specs.Prelude.{◌≡◌, ◌<◌};
ghost use Rattle.rules.specs.Fields.{IsAccepted};
ghost use Rattle.rules.specs.Plan.{Round};
ghost use Rattle.rules.specs.Trip.{leaving};
ghost use Rattle.rules.specs.Edits.{changed};
ghost use Rattle.edits.specs.EditWords.{edit_of, EditKnown};
ghost use Rattle.walks.specs.Rewalks.{SomeWord, WalksWord, SomeChange, WalksChange, SomeTask, WalksTask, Walkable, SomeWalkable, WalksAll, SomeDone, ComesBack, WalkedAs};

use crate::cabs::{Cab, rest_cab, walk_home, walk_stop, walk_tip};
use day::days::Day;
use edits::{Change, Edit, change_word};
use plan_words::{BACK, PlanWord, VEHICLE, read_word};
use trips::drives::leave;

// One word is walked, a stop or a tip, behind a rest where one is due. Of the others only word 0 may come, which means no task: it is passed
// over, and so no rest stands before it. A vehicle whose trial has failed is none, and stays so. In line, as `walk_stop` is.
#[inline(always)]
pub fn walk_word(day: &Day, cab: Option<Cab>, word: u32, part: &mut [u32]) -> Option<Cab>
    requires { IsAccepted day.now × SomeWord day.now part.old cab word }
    ensures { WalksWord day.now part.old cab word part.new result }
{
    match read_word(word) {
        Some(PlanWord::Stop(stop)) => {
            let rested = rest_cab(day, cab?, part);
            walk_stop(day, rested, stop, part)
        }
        Some(PlanWord::Tip(tip)) => {
            let rested = rest_cab(day, cab?, part);
            Some(walk_tip(day, rested, tip, part))
        }
        _ => cab,
    }
}

// What a word has become is walked. In line, as `walk_stop` is.
#[inline(always)]
fn walk_change(day: &Day, cab: Cab, change: Change, part: &mut [u32]) -> Option<Cab>
    requires { IsAccepted day.now × SomeChange day.now part.old cab change }
    ensures { WalksChange day.now part.old cab change part.new result }
{
    match change {
        Change::Gone => Some(cab),
        Change::One(word) => walk_word(day, Some(cab), word, part),
        Change::Two(first, second) => {
            let next = walk_word(day, Some(cab), first, part)?;
            walk_word(day, Some(next), second, part)
        }
    }
}

// The word of a task is changed and walked, by the task's number. In line, as `walk_stop` is: a trial of long rounds takes a fifth less.
#[inline(always)]
#[tactic(auto, using(edits::proofs::SmallEdits::known_small))]
pub fn walk_task(
    day: &Day,
    edit: Edit,
    task: usize,
    cab: Cab,
    word: u32,
    part: &mut [u32],
) -> Option<Cab>
    requires { IsAccepted day.now × EditKnown day.now edit × SomeTask day.now (edit_of edit) task part.old cab word }
    ensures { WalksTask day.now (edit_of edit) task part.old cab word part.new result }
{
    walk_change(day, cab, change_word(edit, task, word), part)
}

// An empty vehicle at the depot; its A word is written.
pub fn fresh_cab(day: &Day) -> Cab
    ensures { (result.trip ≡ leaving day.now) × (result.load ≡ 0) × (result.at ≡ 1) }
{
    Cab {
        trip: leave(day),
        load: 0,
        at: 1,
    }
}

// The tasks of a vehicle, changed and walked again behind its A word.
fn walk_tasks(day: &Day, edit: Edit, number: u32, tasks: &[u32], part: &mut [u32]) -> Option<Cab>
    requires { IsAccepted day.now × EditKnown day.now edit × (number < 256) × SomeWalkable day.now (edit_of edit) tasks.now part.old }
    ensures { WalksAll day.now (edit_of edit) number tasks.now part.old part.new result }
{
    part[0] = VEHICLE + number;
    let mut cab = fresh_cab(day);
    for (task, word) in tasks.iter().enumerate() {
        cab = walk_task(day, edit, task, cab, *word, part)?;
    }
    Some(cab)
}

// How many words the vehicle has, and how far it drives.
#[derive(Clone, Copy)]
pub struct Walked {
    pub words: usize,
    pub distance: u32,
}

// The way back, once the tasks are done; none where the trial has failed, before it or on it. The words are counted with the E word, which is
// not written.
pub fn come_back(day: &Day, cab: Option<Cab>, part: &mut [u32]) -> Option<Walked>
    requires { IsAccepted day.now × SomeDone day.now part.old cab }
    ensures { ComesBack day.now part.old cab part.new result }
{
    let back = walk_home(day, cab?, part)?;
    let leg = day.leg(back.trip.place, 0);
    Some(Walked {
        words: back.at + 1,
        distance: back.trip.distance + leg.distance,
    })
}

// The vehicle walked again, its words at the front of the part; none where the trial fails.
pub fn walk_vehicle(
    day: &Day,
    edit: Edit,
    number: u32,
    tasks: &[u32],
    part: &mut [u32],
) -> Option<Walked>
    requires { IsAccepted day.now × EditKnown day.now edit × (number < 256) × SomeWalkable day.now (edit_of edit) tasks.now part.old }
    ensures { (ts : Round) → Walkable day.now (edit_of edit) tasks.now part.old ts → WalkedAs day.now number (changed (edit_of edit) 0 ts) part.old part.new result }
{
    let cab = walk_tasks(day, edit, number, tasks, part);
    let walked = come_back(day, cab, part)?;
    part[walked.words - 1] = BACK;
    Some(walked)
}
