// The span of an edit: from the first to the last word of a vehicle that it changes.
#![tactic(auto)]

ghost use Rattle.std.specs.Prelude.{◌<◌, ◌≡◌, map, length};
ghost use Rattle.rules.specs.Plan.{Round, task_word};
ghost use Rattle.edits.specs.EditWords.{edit_of, EditSmall};
ghost use Rattle.spans.specs.Span.{Outside, Single, PlaceOf, Holds, Covers};

use edits::Edit;
use plan_words::STOP;

// From the first to the last changed word, counted from 0 among the words of the vehicle's tasks.
#[derive(Clone, Copy)]
pub struct Span {
    pub first: usize,
    pub last: usize,
}

// A vehicle's tasks: their words, of which the first stands at `from` in the plan, and where in the plan each stop stands. `spots` may be
// wrong of a stop: then it is not found.
#[derive(Clone, Copy)]
pub struct Tasks<'a> {
    pub spots: &'a [u32; 256],
    pub from: usize,
    pub words: &'a [u32],
}

impl<'a> Tasks<'a> {
    // The span of all words.
    fn whole(&self) -> Span
        ensures { (result.first ≡ 0) × (result.last ≡ length self.now.words.now) }
    {
        Span {
            first: 0,
            last: self.words.len(),
        }
    }

    // Where the word of stop k stands among the words.
    fn place_of_stop(&self, k: u32) -> Option<usize>
        requires { k < 256 }
        ensures { PlaceOf self.now.words.now k result }
    {
        let place = (self.spots[k as usize] as usize).checked_sub(self.from)?;
        if place < self.words.len() && self.words[place] == STOP + k {
            Some(place)
        } else {
            None
        }
    }

    // The span of one stop.
    fn span_of_stop(&self, k: u32) -> Span
        requires { k < 256 }
        ensures { Holds self.now.words.now k result.first result.last }
    {
        match self.place_of_stop(k) {
            Some(place) => Span {
                first: place,
                last: place,
            },
            None => self.whole(),
        }
    }

    // The span from one stop to another, whichever comes first.
    fn span_of_two(&self, i: u32, j: u32) -> Span
        requires { (i < 256) × (j < 256) }
        ensures { Holds self.now.words.now i result.first result.last × Holds self.now.words.now j result.first result.last }
    {
        let one = self.place_of_stop(i);
        let two = self.place_of_stop(j);
        match (one, two) {
            (Some(one), Some(two)) => Span {
                first: one.min(two),
                last: one.max(two),
            },
            _ => self.whole(),
        }
    }

    // The span of the word at a place.
    fn span_of_word(&self, at: usize) -> Span
        ensures { Covers self.now.words.now at result.first result.last }
    {
        if at < self.words.len() {
            Span {
                first: at,
                last: at,
            }
        } else {
            self.whole()
        }
    }

    // The span of an edit. `here` tells whether this is the vehicle of a swap's first stop: it is a flag, as an edit of another kind has no
    // such stop to pass. Each edit has an arm of its own: with `|` between stop edits, trials on long rounds took 1 in a hundred longer, between
    // tip edits too 2.
    pub fn span_of(&self, edit: Edit, here: bool) -> Span
        requires { EditSmall edit }
        ensures { (tasks : Round) → self.now.words.now ≡ map task_word tasks → Single (edit_of edit) here tasks → Outside (edit_of edit) tasks result.first result.last }
    {
        match edit {
            Edit::Before { stop, moved } => self.span_of_two(stop, moved),
            Edit::After { stop, moved } => self.span_of_two(stop, moved),
            Edit::Swap { stop, other } => self.span_of_stop(if here { stop } else { other }),
            Edit::Remove { at } => self.span_of_word(at),
            Edit::Replace { at, .. } => self.span_of_word(at),
        }
    }
}
