// The trial list of the present plan, trial by trial: a cursor says where the list goes on, and the list is never written down.
ghost use Rattle.std.specs.Prelude.{◌≡◌};
ghost use Rattle.trial_list.specs.TrialRest.{list_start};
ghost use Rattle.trial_list.specs.Listing.{ListingOf, CursorFits, Answers};

use crate::pairs::{Half, PairPlace};
use crate::places::next_listed;
use crate::tips::TipPlace;
use edits::Edit;

// What the list is read from: how many stops and tips the day has, how many neighbours a stop has in the list, and the table of them; the
// plan, where its vehicles start, the vehicle of each stop, and how many vehicles there are. What they are together stands in the contracts
// (`ListingOf`), not in a ghost field: it names a day and its vehicles, so that it has more than one proof, and the fact of a ghost field may
// have one alone.
#[derive(Clone, Copy)]
pub struct Listing<'a> {
    pub stops: usize,
    pub tips: usize,
    pub k: usize,
    pub neighbours: &'a [u8],
    pub starts: &'a [u32],
    pub vehicles: &'a [u8],
    pub count: usize,
    pub plan: &'a [u32],
}

// What is done, and the numbers of the vehicles that it touches, which may be one and the same.
#[derive(Clone, Copy)]
pub struct Trial {
    pub edit: Edit,
    pub one: usize,
    pub other: usize,
}

// The trial at a place, where there is one, and the place behind it.
#[derive(Clone, Copy)]
pub struct Listed<P> {
    pub trial: Option<Trial>,
    pub next: P,
}

// Where the list goes on: first the pairs, then the tips.
#[derive(Clone, Copy)]
pub struct Cursor {
    pub pairs: PairPlace,
    pub tips: TipPlace,
}

// Where the list begins.
pub fn first_trial() -> Cursor
    ensures { result ≡ list_start }
{
    Cursor {
        pairs: PairPlace {
            stop: 1,
            rank: 0,
            half: Half::First,
        },
        tips: TipPlace {
            vehicle: 0,
            task: 0,
            tip: None,
        },
    }
}

// The next trial of the present plan's list, and the cursor behind it.
pub fn next_trial(listing: &Listing, cursor: Cursor) -> Listed<Cursor>
    requires { ListingOf listing.now × CursorFits listing.now.starts.now listing.now.count cursor }
    ensures { Answers listing.now cursor result }
{
    let pair = next_listed(listing, cursor.pairs);
    let pairs = pair.next;
    if pair.trial.is_some() {
        return Listed {
            trial: pair.trial,
            next: Cursor { pairs, ..cursor },
        };
    }
    let tip = next_listed(listing, cursor.tips);
    Listed {
        trial: tip.trial,
        next: Cursor {
            pairs,
            tips: tip.next,
        },
    }
}
