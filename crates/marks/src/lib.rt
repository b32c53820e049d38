// A set of the numbers 0 to 255, such as the stops that are still to be routed: number k is bit k % 64 of word k / 64.
// What a function does to the set is said through `marked`, the set that the words hold.
#![tactic(auto)]

ghost use Rattle.std.specs.Prelude.{ℕ, ◌-◌, ◌^◌, ◌<◌, ◌≡◌, true, false, replicate, MatchOption};
ghost use Rattle.laws.specs.Bits.{bit, LowestBit};
ghost use Rattle.laws.specs.Marks.{marked, ones_of, up_to, Unmarked, Marked, Lowest};

#[derive(Clone, Copy, PartialEq, Eq)]
pub struct Marks {
    pub words: [u64; 4],
}

impl Marks {
    // No number is marked.
    fn none() -> Marks
        ensures { result.words ≡ replicate 4 0 }
    {
        Marks { words: [0; 4] }
    }

    // The numbers 1 to n.
    pub fn all_to(n: usize) -> Marks
        requires { n < 256 }
        ensures marks { marked result.words ≡ up_to n }
        ensures count { ones_of result.words ≡ n }
    {
        let mut marks = Marks::none();
        // From 0: a range with its end included has two exits, and its proof was 23 lines longer.
        for k in 0..n {
            marks = marks.mark(k + 1);
        }
        marks
    }

    // The set with k, which was not in it.
    fn mark(mut self, k: usize) -> Marks
        requires within { k < 256 }
        requires unmarked { marked self.words k ≡ false }
        ensures { Marked self.words k result.words }
    {
        self.words[k / 64] += 1 << (k % 64);
        self
    }

    // The set without k, which was in it.
    pub fn unmark(mut self, k: usize) -> Marks
        requires { marked self.words k ≡ true }
        ensures { Unmarked self.words k result.words }
    {
        self.words[k / 64] -= 1 << (k % 64);
        self
    }

    // How many numbers are marked.
    pub fn remaining(self) -> u32
        ensures { result ≡ ones_of self.words }
    {
        self.words.iter().map(|word| word.count_ones()).sum()
    }

    // The lowest marked number, where one is marked.
    pub fn lowest(self) -> Option<usize>
        ensures { MatchOption result ((j : ℕ) → marked self.words j ≡ false) (λ k. (k < 256) × Lowest (marked self.words) 256 k) }
    {
        for (i, word) in self.words.iter().enumerate() {
            if *word != 0 {
                return Some(i * 64 + lowest_bit(*word));
            }
        }
        None
    }
}

// The lowest set bit of a word that has one.
pub fn lowest_bit(w: u64) -> usize
    requires { 0 < w }
    ensures { LowestBit 64 w result }
{
    w.trailing_zeros() as usize
}

// The word without bit b, which was set.
pub fn clear_bit(w: u64, b: usize) -> u64
    requires { (b < 64) × (bit w b ≡ 1) }
    ensures { (result ≡ w - 2 ^ b) × (result < w) }
{
    w - (1 << b)
}
