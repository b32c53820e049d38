// What a trial does to the words of a vehicle.
#![tactic(auto)]

ghost use Rattle.std.specs.Prelude.{◌≡◌, ◌&&◌, eqb, leb, ℕ, List, if◌then◌else◌};
ghost use Rattle.rules.specs.PlanWords.{tip_word};
ghost use Rattle.rules.specs.Plan.{Task, task_word, Known};
ghost use Rattle.edits.specs.EditWords.{edit_of, EditKnown, EditSmall, Becomes};

use plan_words::{REST, STOP, TIP};

// A stop moved before or behind another, two interchanged, a tip removed or replaced. A tip is named by its number among the vehicle's tasks.
// That the numbers are below 256 follows from the day that knows them (EditKnown), and is a clause (EditSmall) where no day is at hand: as
// bytes, every walk, span and list of trials would cast them.
#[derive(Clone, Copy)]
pub enum Edit {
    Before { stop: u32, moved: u32 },
    After { stop: u32, moved: u32 },
    Swap { stop: u32, other: u32 },
    Remove { at: usize },
    Replace { at: usize, tip: u32 },
}

// What a word becomes: no word, one, or two.
#[derive(Clone, Copy)]
pub enum Change {
    Gone,
    One(u32),
    Two(u32, u32),
}

// A word that is moved is dropped, and the one that it is moved to becomes both.
fn move_word(word: u32, moved: u32, stop: u32, both: Change) -> Change
    ensures { result ≡ (if eqb word moved then Change.Gone else if eqb word stop then both else Change.One word) }
{
    if word == moved {
        Change::Gone
    } else if word == stop {
        both
    } else {
        Change::One(word)
    }
}

// Two words are interchanged.
fn swap_word(word: u32, stop: u32, other: u32) -> u32
    ensures { result ≡ (if eqb word stop then other else if eqb word other then stop else word) }
{
    if word == stop {
        other
    } else if word == other {
        stop
    } else {
        word
    }
}

// The tip that is task number `at` gives way. Of a vehicle's words without its rests the tips' are the highest: no number is read.
fn tip_word(word: u32, task: usize, at: usize, other: Change) -> Change
    ensures { result ≡ (if eqb task at && leb (tip_word 0) word then other else Change.One word) }
{
    if (task == at) & (TIP <= word) {
        other
    } else {
        Change::One(word)
    }
}

// What the word of a task becomes, by the task's number; a rest, which is one word without a number, is taken off.
pub fn change_word(edit: Edit, task: usize, word: u32) -> Change
    requires { EditSmall edit }
    ensures { (day : List ℕ) (t : Task) → EditKnown day edit → word ≡ task_word t → Known day t → Becomes day (edit_of edit) task t result }
{
    if word == REST {
        return Change::Gone;
    }
    match edit {
        Edit::Before { stop, moved } => {
            let i = STOP + stop;
            let j = STOP + moved;
            move_word(word, j, i, Change::Two(j, i))
        }
        Edit::After { stop, moved } => {
            let i = STOP + stop;
            let j = STOP + moved;
            move_word(word, j, i, Change::Two(i, j))
        }
        Edit::Swap { stop, other } => Change::One(swap_word(word, STOP + stop, STOP + other)),
        Edit::Remove { at } => tip_word(word, task, at, Change::Gone),
        Edit::Replace { at, tip } => tip_word(word, task, at, Change::One(TIP + tip)),
    }
}
