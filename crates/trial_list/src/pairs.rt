// The first part of the trial list: for each stop and each of its neighbours, one trial or two.
ghost use Rattle.std.specs.Prelude.{◌≡◌, ◌<◌, get_or, length};
ghost use Rattle.trial_list.specs.TrialRest.{pair_on};
ghost use Rattle.trial_list.specs.Listing.{NumberAt, PairTells, pair_part, next_rank, halfway, next_stop};

use crate::listing::{Listed, Listing};
use crate::places::{Place, found, passed};
use edits::Edit;

// Which trial of a pair: stops of one vehicle have two, one after the other, and stops of two vehicles have one.
#[derive(Clone, Copy)]
pub enum Half {
    First,
    Second,
}

// A stop, the rank of a neighbour, and which trial of the pair is next.
#[derive(Clone, Copy)]
pub struct PairPlace {
    pub stop: usize,
    pub rank: usize,
    pub half: Half,
}

impl PairPlace {
    fn next_rank(self) -> PairPlace
        requires { self.rank < 50 }
        ensures { result ≡ next_rank self }
    {
        PairPlace {
            stop: self.stop,
            rank: self.rank + 1,
            half: Half::First,
        }
    }

    fn halfway(self) -> PairPlace
        ensures { result ≡ halfway self }
    {
        PairPlace {
            half: Half::Second,
            ..self
        }
    }

    fn next_stop(self) -> PairPlace
        requires { self.stop < 256 }
        ensures { result ≡ next_stop self }
    {
        PairPlace {
            stop: self.stop + 1,
            rank: 0,
            half: Half::First,
        }
    }
}

// A number from 1 on at a place of a table, where 0 stands for none.
fn number_at(table: &[u8], at: usize) -> Option<usize>
    requires { at < length table.now }
    ensures { NumberAt (get_or table.now at 0) result }
{
    match table[at] {
        0 => None,
        number => Some(number as usize),
    }
}

// The trial of a pair at a place, by the vehicles that its stops are on.
fn pair_trial(place: PairPlace, stop: u32, other: u32, one: usize, two: usize) -> Listed<PairPlace>
    requires { (place.rank < 50) × (0 < one) × (0 < two) }
    ensures { PairTells (pair_on stop other one two) place result }
{
    match (one == two, place.half) {
        (true, Half::First) => found(
            Edit::Before { stop, moved: other },
            one,
            one,
            place.halfway(),
        ),
        (true, Half::Second) => found(
            Edit::After { stop, moved: other },
            one,
            one,
            place.next_rank(),
        ),
        (false, Half::First) => found(Edit::Swap { stop, other }, one, two, place.next_rank()),
        (false, Half::Second) => passed(place.next_rank()),
    }
}

impl Place for PairPlace {
    ghost part = { pair_part };

    fn is_inside(self, listing: &Listing) -> bool {
        self.stop <= listing.stops
    }

    fn look(self, listing: &Listing) -> Listed<PairPlace> {
        let stop = self.stop;
        if listing.k <= self.rank {
            return passed(self.next_stop());
        }
        let Some(other) = number_at(listing.neighbours, 50 * stop + self.rank) else {
            return passed(self.next_stop());
        };
        let one = number_at(listing.vehicles, stop);
        let two = number_at(listing.vehicles, other);
        match (one, two) {
            (Some(one), Some(two)) => pair_trial(self, stop as u32, other as u32, one, two),
            _ => passed(self.next_rank()),
        }
    }
}
