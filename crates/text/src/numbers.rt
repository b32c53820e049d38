// Numbers put at the end of a text: decimal, and words of eight hexadecimal digits.
ghost use Rattle.std.specs.Prelude.{◌≡◌, ◌+◌, ◌-◌, ◌*◌, ◌/◌, ◌%◌, ◌^◌, ◌<◌, ◌≤◌, ◌++◌, length};
ghost use Rattle.text.specs.Lines.{number, word_line, word_lines};
ghost use Rattle.text.specs.Numbers.{decimal, hexadecimal, digit as Numbers·digit};

use crate::put::Text;

// A number below 16 as `0` to `9` or `A` to `F`.
#[tactic(auto, unfolding(crate::specs::Numbers::digit))]
fn digit(value: u8) -> u8
    requires { value < 16 }
    ensures { result ≡ Numbers·digit value }
{
    match value {
        0..=9 => b'0' + value,
        _ => b'A' + (value - 10),
    }
}

// Digit i of a word's eight hexadecimal digits, the highest first.
fn hexadecimal_digit(word: u32, i: u32) -> u8
    requires { i < 8 }
    ensures { result ≡ Numbers·digit (word / 2 ^ (28 - 4 * i) % 16) }
{
    digit(((word >> (28 - 4 * i)) % 16) as u8)
}

impl<const ROOM: usize> Text<ROOM> {
    // A number's decimal digits.
    fn put_decimal(&mut self, n: u64)
        requires { length self.old + 20 ≤ ROOM }
        ensures text { self.new ≡ self.old ++ decimal n }
        ensures room { length self.new ≤ length self.old + 20 }
    {
        let mut digits = [0; 20];
        let count = io::decimal(n, &mut digits);
        self.put_all(&digits[..count]);
    }

    // A number, and the mark behind it.
    #[tactic(auto, unfolding(crate::specs::Lines::number))]
    pub(crate) fn put_number(&mut self, n: u64, mark: u8)
        requires { length self.old + 21 ≤ ROOM }
        ensures text { self.new ≡ self.old ++ number n mark }
        ensures room { length self.new ≤ length self.old + 21 }
    {
        self.put_decimal(n);
        self.put(mark);
    }

    // A word's eight hexadecimal digits.
    fn put_hexadecimal(&mut self, word: u32)
        requires { length self.old + 8 ≤ ROOM }
        ensures { self.new ≡ self.old ++ hexadecimal word }
    {
        for i in 0..8u32 {
            self.put(hexadecimal_digit(word, i));
        }
    }

    // A word in a line.
    #[tactic(auto, unfolding(crate::specs::Lines::word_line))]
    fn put_word(&mut self, word: u32)
        requires { length self.old + 9 ≤ ROOM }
        ensures { self.new ≡ self.old ++ word_line word }
    {
        self.put_hexadecimal(word);
        self.put(b'\n');
    }

    // Words, one a line.
    pub(crate) fn put_words(&mut self, words: &[u32])
        requires { length self.old + 9 * length words.now ≤ ROOM }
        ensures { self.new ≡ self.old ++ word_lines words.now }
    {
        for word in words {
            self.put_word(*word);
        }
    }
}
