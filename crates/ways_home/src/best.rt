// The best so far of a search for the least key. Its key is carried along, so that each key is read once.
ghost use Rattle.std.specs.Prelude.{◌≡◌, ◌<◌, IfSome};
ghost use Rattle.rules.specs.Tests.{number_or_none};

// A number from 1 on with its key; number 0 is none, with a key past every other. So one comparison tells whether a key is better, where an
// Option would be asked first whether there is one. The promise of the pass over the tips (`CarriedAfter` in promises) speaks of number 0 and of
// its key too.
#[derive(Clone, Copy)]
pub struct Best {
    pub number: usize,
    pub key: u32,
}

impl Best {
    // The number, where there is one.
    pub fn choice(self) -> Option<usize>
        ensures number { number_or_none result ≡ self.number }
        ensures some { IfSome result (λ number. 0 < number) }
    {
        if self.number == 0 {
            return None;
        }
        Some(self.number)
    }
}

// Past every key: minutes of a day file, or such minutes and a closing behind them, of twelve bits each.
pub const NO_KEY: u32 = 0x1000000;
