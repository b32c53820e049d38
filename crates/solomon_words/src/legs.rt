// The legs of the day: each is worked out once, and copied for the way back.
ghost use Rattle.std.specs.Prelude.{◌≡◌, ◌+◌, ◌-◌, ◌*◌, ◌≤◌, ◌<◌, length};
ghost use Rattle.rules.specs.DayFile.{legs_at, words_of};
ghost use Rattle.rules.specs.Lists.{listed, over};
ghost use Rattle.rules.specs.SolomonDay.{root, leg_word_of, way_word};
ghost use Rattle.solomon_words.specs.Table.{Begins};
ghost use Rattle.solomon_words.specs.Instances.{number_in, stops_in, word_at, row_at, LegAsked};

use crate::Instance;
use crate::words::{ACROSS, LEG, UPWARD};

// How far two customers are apart.
#[derive(Clone, Copy)]
struct Apart {
    across: u32,
    upward: u32,
    ghost near: { (across ≤ 1000) × (upward ≤ 1000) },
}

impl Apart {
    // Near the root of 100 times the sum of the two squares: ten times the greater side and four times the other.
    fn near_root(self) -> u32
        ensures { (1 ≤ result) × (result ≤ 14001) }
    {
        10 * self.across.max(self.upward) + 4 * self.across.min(self.upward) + 1
    }

    fn sum_of_squares(self) -> u32
        ensures { (result ≡ self.across * self.across + self.upward * self.upward) × (result ≤ 2000000) }
    {
        self.across * self.across + self.upward * self.upward
    }

    // The leg: a tenth of its distance is its minutes.
    #[tactic(auto, using(crate::proofs::LegLaws::distance_most))]
    fn leg(self) -> u32
        ensures { let sum = self.across * self.across + self.upward * self.upward in result ≡ leg_word_of (root sum) (root (100 * sum)) }
    {
        let sum = self.sum_of_squares();
        let distance = roots::root_of(100 * sum, self.near_root());
        LEG + (0x10000 * (distance / 10) + distance)
    }
}

impl<'a> Instance<'a> {
    // The leg between two customers.
    fn leg_between(&self, a: usize, b: usize) -> u32
        requires { (a ≤ stops_in self.now) × (b ≤ stops_in self.now) }
        ensures { result ≡ way_word (number_in self.now) a b }
    {
        let apart = Apart {
            across: self.number(a, ACROSS).abs_diff(self.number(b, ACROSS)),
            upward: self.number(a, UPWARD).abs_diff(self.number(b, UPWARD)),
        };
        apart.leg()
    }

    // Where the legs of a row begin.
    fn row_at(&self, row: usize) -> usize
        requires { row < 2 + stops_in self.now }
        ensures { result ≡ row_at self.now row }
    {
        9 + 3 * self.stops() + row * (2 + self.stops())
    }

    // The word of a leg, where those before it are written. Places 0 and 1 are the depot's, place 1 + k is customer k's.
    fn leg_word(&self, words: &[u32], from: usize, to: usize) -> u32
        requires { LegAsked self.now words.now from to }
        ensures { result ≡ way_word (number_in self.now) (from - 1) (to - 1) }
    {
        if to < from {
            words[self.row_at(to) + from]
        } else {
            self.leg_between(from.saturating_sub(1), to.saturating_sub(1))
        }
    }

    // The legs of a row, behind the words in front of them.
    fn write_row(&self, from: usize, words: &mut [u32])
        requires row { from < 2 + stops_in self.now }
        requires room { words_of 1 (stops_in self.now) ≤ length words.old }
        requires begins { Begins (word_at self.now) words.old (row_at self.now from) }
        ensures { words.new ≡ over (listed (word_at self.now) (row_at self.now (from + 1))) words.old }
    {
        let row = self.row_at(from);
        // An index, and no items of the row: the word of a leg reads those in front of it.
        for to in 0..2 + self.stops() {
            words[row + to] = self.leg_word(words, from, to);
        }
    }

    // All legs, behind the words in front of them.
    pub(crate) fn write_legs(&self, words: &mut [u32])
        requires room { words_of 1 (stops_in self.now) ≤ length words.old }
        requires begins { Begins (word_at self.now) words.old (legs_at 1 (stops_in self.now)) }
        ensures { words.new ≡ over (listed (word_at self.now) (words_of 1 (stops_in self.now))) words.old }
    {
        for from in 0..2 + self.stops() {
            self.write_row(from, words);
        }
    }
}
