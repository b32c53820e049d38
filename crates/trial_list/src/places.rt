// What the pairs and the tips of the trial list have in common: places, which are passed over up to the next that has a trial.
ghost use Rattle.std.specs.Prelude.{◌≡◌, true, false, [], Some, None};
ghost use Rattle.trial_list.specs.Listing.{ListingOf, Part, Step, NextListed};

use crate::listing::{Listed, Listing, Trial};
use edits::Edit;

// A place of the list, which is one of a pair or of a tip.
pub(crate) trait Place: Copy {
    // The part of the list that it is a place of.
    ghost part: { Part Self };

    // Whether it is before the end of its part of the list.
    fn is_inside(self, listing: &Listing) -> bool
        requires { ListingOf listing.now × part.fits listing.now self }
        ensures inside { result ≡ true → part.inside listing.now self }
        ensures over { result ≡ false → (s : ListingOf listing.now) → part.rest listing.now s self ≡ [] };

    // The trial at a place, if there is one; else the place behind it.
    fn look(self, listing: &Listing) -> Listed<Self>
        requires { part.inside listing.now self }
        ensures { Step part listing.now self result };
}

// A trial, and the place behind it.
pub(crate) fn found<P>(edit: Edit, one: usize, other: usize, next: P) -> Listed<P>
    ensures trial { result.trial ≡ Some (record { edit = edit; one = one; other = other }) }
    ensures next { result.next ≡ next }
{
    Listed {
        trial: Some(Trial { edit, one, other }),
        next,
    }
}

// No trial, and the place behind.
pub(crate) fn passed<P>(next: P) -> Listed<P>
    ensures trial { result.trial ≡ None }
    ensures next { result.next ≡ next }
{
    Listed { trial: None, next }
}

// The next trial from a place on, passing over the places that have none.
pub(crate) fn next_listed<P: Place>(listing: &Listing, first: P) -> Listed<P>
    requires { ListingOf listing.now × P.part.fits listing.now first }
    ensures { NextListed P.part listing.now first result }
{
    let mut place = first;
    // The place behind is known only once a place is looked at: there is no range to go over.
    while place.is_inside(listing) {
        let listed = place.look(listing);
        if listed.trial.is_some() {
            return listed;
        }
        place = listed.next;
    }
    passed(place)
}
