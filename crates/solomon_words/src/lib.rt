// The words of the day that a text gives, written from the numbers of its customers.
#![tactic(auto)]

mod legs;
pub mod numbers;
mod words;

ghost use Rattle.std.specs.Prelude.{◌≡◌, ◌-◌, ◌≤◌, length};
ghost use Rattle.solomon_words.specs.Table.{cell, Fit};

// What a text says: the capacity, and the numbers of its customers, of which the depot is the first. They are within a day file's limits.
#[derive(Clone, Copy)]
pub struct Instance<'a> {
    pub load: u32,
    pub customers: &'a [[u32; 7]],
    pub ghost depot: { 1 ≤ length customers.now },
    pub ghost fits: { Fit (cell customers.now) load (length customers.now - 1) },
}

impl<'a> Instance<'a> {
    ghost use Rattle.rules.specs.DayFile.{words_of};
    ghost use Rattle.rules.specs.Lists.{listed, over};
    ghost use Rattle.solomon_words.specs.Instances.{stops_in, word_at};

    // How many stops there are.
    pub(crate) fn stops(&self) -> usize
        ensures { result ≡ stops_in self.now }
    {
        self.customers.len() - 1
    }

    // The day, written at the front of the buffer.
    pub fn write_day(&self, words: &mut [u32])
        requires { words_of 1 (stops_in self.now) ≤ length words.old }
        ensures { words.new ≡ over (listed (word_at self.now) (words_of 1 (stops_in self.now))) words.old }
    {
        self.write_front(words);
        self.write_legs(words)
    }
}
