// The words of a plan, made and taken apart. A word is taken apart here alone; the trials make words by adding a number to the first of its kind.
#![tactic(auto)]

ghost use Rattle.std.specs.Prelude.{◌≡◌, ◌<◌};
ghost use Rattle.rules.specs.PlanWords.{number_of, vehicle_word, stop_word, tip_word, rest_word, back_word, left_word, word_of};
ghost use Rattle.plan_words.specs.Indexes.{IndexFrom};
ghost use Rattle.plan_words.specs.Reading.{meaning};

// The word of each kind with number 0.
pub const VEHICLE: u32 = 0xA0000000;

pub const STOP: u32 = 0xB0000000;

pub const TIP: u32 = 0xC0000000;

pub const REST: u32 = 0xD0000000;

pub const BACK: u32 = 0xE0000000;

const LEFT: u32 = 0xF0000000;

// The kinds that carry a number, with the zero bits behind them: bits 31-8 of a word.
const VEHICLE_KIND: u32 = VEHICLE / 0x100;

const STOP_KIND: u32 = STOP / 0x100;

const TIP_KIND: u32 = TIP / 0x100;

const LEFT_KIND: u32 = LEFT / 0x100;

// The number of a word, in bits 7-0.
pub fn number(word: u32) -> u32
    ensures { result ≡ number_of word }
{
    word % 0x100
}

// What a word says, with its number.
#[derive(Clone, Copy)]
pub enum PlanWord {
    Vehicle(u32),
    Stop(usize),
    Tip(usize),
    Rest,
    Back,
    Left(u32),
}

// A word taken apart; none where it is of no kind.
pub fn read_word(word: u32) -> Option<PlanWord>
    ensures { meaning result ≡ word_of word }
{
    let number = number(word);
    match word / 0x100 {
        VEHICLE_KIND => Some(PlanWord::Vehicle(number)),
        STOP_KIND => Some(PlanWord::Stop(number as usize)),
        TIP_KIND => Some(PlanWord::Tip(number as usize)),
        LEFT_KIND => Some(PlanWord::Left(number)),
        _ => match word {
            REST => Some(PlanWord::Rest),
            BACK => Some(PlanWord::Back),
            _ => None,
        },
    }
}

// The number of a stop's word less one; of any other word something that is no number of a stop less one. Kind and number are one range
// of words, so that one test against the number of stops tells both.
pub fn stop_index(word: u32) -> u32
    ensures { IndexFrom (stop_word 1) word result }
{
    word.wrapping_sub(STOP + 1)
}

// The same for a tip's word. One function for both would be no plainer: each is one difference from a constant.
pub fn tip_index(word: u32) -> u32
    ensures { IndexFrom (tip_word 1) word result }
{
    word.wrapping_sub(TIP + 1)
}

// The word of each kind with a number. One function over the kinds would be no plainer: each is one sum with a constant.
pub fn vehicle_word(number: u32) -> u32
    requires { number < 256 }
    ensures { result ≡ vehicle_word number }
{
    VEHICLE + number
}

pub fn stop_word(stop: usize) -> u32
    requires { stop < 256 }
    ensures { result ≡ stop_word stop }
{
    STOP + stop as u32
}

pub fn tip_word(tip: usize) -> u32
    requires { tip < 256 }
    ensures { result ≡ tip_word tip }
{
    TIP + tip as u32
}

pub fn left_word(stop: usize) -> u32
    requires { stop < 256 }
    ensures { result ≡ left_word stop }
{
    LEFT + stop as u32
}
