// A day of the right length, read by its layout: n, d and where the legs begin are decoded once, and no index is tested. A contract sees
// a day as the list of its words.
ghost use Rattle.std.specs.Prelude.{◌≡◌, ◌+◌, ◌*◌, ◌<◌, ◌≤◌, length, List, ℕ};
ghost use Rattle.rules.specs.DayFile.{lone_number, window_opening, window_closing, words_of};
ghost use Rattle.rules.specs.Fields.{word_at, tips, stops, places, stop_place, load_limit, day_limit, stop_limit, rest_opening, rest_closing, rest_minutes, service, quantity, leg_index};
ghost use Rattle.day.specs.Layout.{LayoutOf, WindowOf, LegOf, VisitOf};

use crate::fields::{Layout, Leg, Visit, Window, layout_of};
use std::marker::Model;

// That a day is accepted is a clause of those who need it, and no type: behind a model a caller does not see a type's invariant.
#[derive(Drop)]
pub struct Day<'a> {
    words: &'a [u32],
    layout: Layout,
}

impl<'a> Model for Day<'a> {
    ghost Value = { List ℕ };

    ghost view = { λ day. day.words.now };

    ghost invariant = { λ day. LayoutOf day.words.now day.layout };
}

// The lone number at an index, in bits 26-0.
fn number_at(words: &[u32], i: usize) -> u32
    requires { i < length words.now }
    ensures { result ≡ lone_number (word_at words.now i) }
{
    words[i] % 0x8000000
}

// The two ends of the window at an index: its opening in bits 23-12, its closing in bits 11-0.
fn window_at(words: &[u32], i: usize) -> Window
    requires { i < length words.now }
    ensures { (result.opening ≡ window_opening (word_at words.now i)) × (result.closing ≡ window_closing (word_at words.now i)) }
{
    let word = words[i];
    Window {
        opening: word / 0x1000 % 0x1000,
        closing: word % 0x1000,
    }
}

impl<'a> Day<'a> {
    // A day whose length is known to be right.
    pub fn new(words: &'a [u32]) -> Self
        requires { length words.now ≡ words_of (tips words.now) (stops words.now) }
        ensures { result ≡ words.now }
    {
        Day {
            words,
            layout: layout_of(words),
        }
    }

    // All words of the day.
    pub fn words(&self) -> &[u32]
        ensures same { result.now ≡ self.now }
        ensures long { length self.now ≡ words_of (tips self.now) (stops self.now) }
    {
        self.words
    }

    // How many stops there are.
    pub fn stops(&self) -> usize
        ensures count { result ≡ stops self.now }
        ensures few { result < 256 }
    {
        self.layout.stops
    }

    // How many tips there are.
    pub fn tips(&self) -> usize
        ensures count { result ≡ tips self.now }
        ensures few { result < 16 }
    {
        self.layout.tips
    }

    // The depot, the tips and the stops.
    pub fn places(&self) -> usize
        ensures { result ≡ places self.now }
    {
        self.layout.places
    }

    // The place of a stop. That a stop's or a tip's number is in range stays a clause, here and in some forty contracts more: it names a day, and
    // a type of such numbers would carry the day to all that only count.
    pub fn stop_place(&self, stop: usize) -> usize
        requires { stop ≤ stops self.now }
        ensures { result ≡ stop_place self.now stop }
    {
        self.layout.tips + stop
    }

    pub fn load_limit(&self) -> u32
        ensures { result ≡ load_limit self.now }
    {
        number_at(self.words, 1)
    }

    pub fn day_limit(&self) -> u32
        ensures { result ≡ day_limit self.now }
    {
        number_at(self.words, 2)
    }

    pub fn stop_limit(&self) -> u32
        ensures { result ≡ stop_limit self.now }
    {
        number_at(self.words, 3)
    }

    pub fn depot_window(&self) -> Window
        ensures { WindowOf self.now 0 result }
    {
        window_at(self.words, 4)
    }

    pub fn rest_window(&self) -> Window
        ensures { (result.opening ≡ rest_opening self.now) × (result.closing ≡ rest_closing self.now) }
    {
        window_at(self.words, 5)
    }

    pub fn rest_minutes(&self) -> u32
        ensures { result ≡ rest_minutes self.now }
    {
        number_at(self.words, 6)
    }

    pub fn tip_window(&self, tip: usize) -> Window
        requires { (0 < tip) × (tip ≤ tips self.now) }
        ensures { WindowOf self.now tip result }
    {
        window_at(self.words, 5 + 2 * tip)
    }

    pub fn tip_service(&self, tip: usize) -> u32
        requires { (0 < tip) × (tip ≤ tips self.now) }
        ensures { result ≡ service self.now tip }
    {
        number_at(self.words, 6 + 2 * tip)
    }

    pub fn stop_window(&self, stop: usize) -> Window
        requires { (0 < stop) × (stop ≤ stops self.now) }
        ensures { WindowOf self.now (stop_place self.now stop) result }
    {
        window_at(self.words, 4 + 2 * self.layout.tips + 3 * stop)
    }

    pub fn stop_service(&self, stop: usize) -> u32
        requires { (0 < stop) × (stop ≤ stops self.now) }
        ensures { result ≡ service self.now (stop_place self.now stop) }
    {
        number_at(self.words, 5 + 2 * self.layout.tips + 3 * stop)
    }

    pub fn stop_quantity(&self, stop: usize) -> u32
        requires { (0 < stop) × (stop ≤ stops self.now) }
        ensures { result ≡ quantity self.now (stop_place self.now stop) }
    {
        number_at(self.words, 6 + 2 * self.layout.tips + 3 * stop)
    }

    // A visit to a tip.
    pub fn tip_visit(&self, tip: usize) -> Visit
        requires { (0 < tip) × (tip ≤ tips self.now) }
        ensures visit { VisitOf self.now result }
        ensures place { result.place ≡ tip }
    {
        Visit {
            place: tip,
            hours: self.tip_window(tip),
            minutes: self.tip_service(tip),
        }
    }

    // A visit to a stop.
    pub fn stop_visit(&self, stop: usize) -> Visit
        requires { (0 < stop) × (stop ≤ stops self.now) }
        ensures visit { VisitOf self.now result }
        ensures place { result.place ≡ stop_place self.now stop }
    {
        Visit {
            place: self.stop_place(stop),
            hours: self.stop_window(stop),
            minutes: self.stop_service(stop),
        }
    }

    // Where the leg from place p to place q stands among the words.
    pub fn leg_index(&self, p: usize, q: usize) -> usize
        requires { (p < places self.now) × (q < places self.now) }
        ensures at { result ≡ leg_index (tips self.now) (stops self.now) p q }
        ensures inside { result < length self.now }
    {
        self.layout.legs + p * self.layout.places + q
    }

    // The leg from place p to place q: its minutes in bits 27-16, its distance in bits 15-0.
    pub fn leg(&self, p: usize, q: usize) -> Leg
        requires { (p < places self.now) × (q < places self.now) }
        ensures { LegOf self.now p q result }
    {
        let word = self.words[self.leg_index(p, q)];
        Leg {
            minutes: word / 0x10000 % 0x1000,
            distance: word % 0x10000,
        }
    }
}
