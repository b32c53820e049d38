// The words of the day in front of its legs.
ghost use Rattle.std.specs.Prelude.{◌≡◌, ◌+◌, ◌≤◌, ◌<◌, ◌/◌, length};
ghost use Rattle.rules.specs.DayFile.{legs_at, words_of};
ghost use Rattle.rules.specs.Lists.{listed, over};
ghost use Rattle.rules.specs.SolomonDay.{hours_word, head_word, tip_word, stop_word};
ghost use Rattle.solomon_words.specs.Instances.{number_in, stops_in, word_at};

use crate::Instance;

// The fields of a customer that the day asks for. A customer stays an array of seven numbers, and is no struct: the definitions number
// the text's fields (`customer_number`), and `numbers_at` reads all of a line in one loop.
pub const ACROSS: usize = 1;

pub const UPWARD: usize = 2;

const DEMAND: usize = 3;

const OPENS: usize = 4;

const CLOSES: usize = 5;

const SERVICE: usize = 6;

// The kinds of the day's words, in bits 31-28.
const COUNTS: u32 = 0x10000000;

const LOAD: u32 = 0x20000000;

const DAY_KG: u32 = 0x30000000;

const STOPS: u32 = 0x40000000;

const WINDOW: u32 = 0x50000000;

const REST: u32 = 0x60000000;

const MINUTES: u32 = 0x70000000;

const QUANTITY: u32 = 0x80000000;

pub const LEG: u32 = 0x90000000;

impl<'a> Instance<'a> {
    // Field i of customer k.
    pub(crate) fn number(&self, k: usize, i: usize) -> u32
        requires { (k ≤ stops_in self.now) × (i < 7) }
        ensures { result ≡ number_in self.now k i }
    {
        self.customers[k][i]
    }

    fn hours(&self, k: usize) -> u32
        requires { k ≤ stops_in self.now }
        ensures { result ≡ hours_word (number_in self.now) k }
    {
        WINDOW + (0x1000 * self.number(k, OPENS) + self.number(k, CLOSES))
    }

    #[tactic(auto, unfolding(rules::specs::SolomonDay::head_word))]
    fn head_word(&self, i: usize) -> u32
        ensures { result ≡ head_word (number_in self.now) self.now.load (stops_in self.now) i }
    {
        match i {
            0 => COUNTS + (0x100 + self.stops() as u32),
            1 => LOAD + self.load,
            2 => DAY_KG + 1000000,
            3 => STOPS + 240,
            4 => self.hours(0),
            5 => REST + (0x1000 * 1440 + 1440),
            _ => MINUTES,
        }
    }

    #[tactic(auto, unfolding(rules::specs::SolomonDay::tip_word))]
    fn tip_word(&self, j: usize) -> u32
        ensures { result ≡ tip_word (number_in self.now) j }
    {
        if j % 2 == 0 { self.hours(0) } else { MINUTES }
    }

    #[tactic(auto, unfolding(rules::specs::SolomonDay::stop_word))]
    fn stop_word(&self, j: usize) -> u32
        requires { 1 + j / 3 ≤ stops_in self.now }
        ensures { result ≡ stop_word (number_in self.now) j }
    {
        let k = 1 + j / 3;
        match j % 3 {
            0 => self.hours(k),
            1 => MINUTES + self.number(k, SERVICE),
            _ => QUANTITY + self.number(k, DEMAND),
        }
    }

    #[tactic(auto, unfolding(rules::specs::SolomonDay::day_word))]
    fn front_word(&self, i: usize) -> u32
        requires { i < legs_at 1 (stops_in self.now) }
        ensures { result ≡ word_at self.now i }
    {
        if i < 7 {
            self.head_word(i)
        } else if i < 9 {
            self.tip_word(i - 7)
        } else {
            self.stop_word(i - 9)
        }
    }

    // All of them, written at the front of the buffer.
    pub(crate) fn write_front(&self, words: &mut [u32])
        requires { words_of 1 (stops_in self.now) ≤ length words.old }
        ensures { words.new ≡ over (listed (word_at self.now) (legs_at 1 (stops_in self.now))) words.old }
    {
        let front = 9 + 3 * self.stops();
        for (i, word) in words[..front].iter_mut().enumerate() {
            *word = self.front_word(i);
        }
    }
}
