// The second part of the trial list: for each visit of a tip its removal, and then every other tip in its place.
ghost use Rattle.std.specs.Prelude.{◌≡◌, ◌+◌, ◌<◌, eqb, if◌then◌else◌};
ghost use Rattle.trial_list.specs.Listing.{TipTells, tip_part, at_tip, next_task, next_vehicle};

use crate::listing::{Listed, Listing};
use crate::places::{Place, found, passed};
use edits::Edit;
use plan_words::{PlanWord, read_word};

// A vehicle and a task of it, both counted from 0, and the next tip to try in its place, or none for its removal.
#[derive(Clone, Copy)]
pub struct TipPlace {
    pub vehicle: usize,
    pub task: usize,
    pub tip: Option<usize>,
}

impl TipPlace {
    fn at_tip(self, tip: usize) -> TipPlace
        ensures { result ≡ at_tip self tip }
    {
        TipPlace {
            tip: Some(tip),
            ..self
        }
    }

    fn next_task(self) -> TipPlace
        requires { self.task < 4294967296 }
        ensures { result ≡ next_task self }
    {
        TipPlace {
            vehicle: self.vehicle,
            task: self.task + 1,
            tip: None,
        }
    }

    fn next_vehicle(self) -> TipPlace
        requires { self.vehicle < 256 }
        ensures { result ≡ next_vehicle self }
    {
        TipPlace {
            vehicle: self.vehicle + 1,
            task: 0,
            tip: None,
        }
    }
}

// The tip x, or the next where x is the tip y itself.
fn other_tip(x: usize, y: usize) -> usize
    requires { y < 268435456 }
    ensures { result ≡ (if eqb x y then x + 1 else x) }
{
    if x == y { x + 1 } else { x }
}

// The next trial of the tip y.
fn tip_trial(tips: usize, place: TipPlace, y: usize) -> Listed<TipPlace>
    requires { (tips < 256) × (y < 268435456) × (place.vehicle < 256) × (place.task < 4294967296) }
    ensures { TipTells tips y place result }
{
    let number = place.vehicle + 1;
    let at = place.task;
    let Some(tip) = place.tip else {
        return found(Edit::Remove { at }, number, number, place.at_tip(1));
    };
    let x = other_tip(tip, y);
    if x <= tips {
        let edit = Edit::Replace { at, tip: x as u32 };
        found(edit, number, number, place.at_tip(x + 1))
    } else {
        passed(place.next_task())
    }
}

impl Place for TipPlace {
    ghost part = { tip_part };

    fn is_inside(self, listing: &Listing) -> bool {
        self.vehicle < listing.count
    }

    // A vehicle's last word is its E.
    fn look(self, listing: &Listing) -> Listed<TipPlace> {
        let start = listing.starts[self.vehicle] as usize;
        let end = listing.starts[self.vehicle + 1] as usize;
        let at = start + 1 + self.task;
        if at + 1 == end {
            return passed(self.next_vehicle());
        }
        match read_word(listing.plan[at]) {
            Some(PlanWord::Tip(tip)) => tip_trial(listing.tips, self, tip),
            _ => passed(self.next_task()),
        }
    }
}
