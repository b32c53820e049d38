// Where one vehicle's words stand in a plan.
ghost use Rattle.std.specs.Prelude.{◌≡◌, ◌+◌, ◌≤◌, length, drop};
ghost use Rattle.std.specs.List.{position};
ghost use Rattle.rules.specs.PlanWords.{word_of};
ghost use Rattle.rules.specs.VehiclePlace.{is_vehicle, is_back, words_to_back, place_from};
ghost use Rattle.rules.specs.AnswerValues.{place_values};

use plan_words::{PlanWord, read_word};
use rules::answers::PlaceAnswer;
use rules::faults::CallFault;

// Whether a word is the A word of a number.
fn is_vehicle(w: u32, number: u64) -> bool
    ensures { result ≡ is_vehicle number (word_of w) }
{
    matches!(read_word(w), Some(PlanWord::Vehicle(other)) if u64::from(other) == number)
}

// Whether a word is an E word.
fn is_back(w: u32) -> bool
    ensures { result ≡ is_back (word_of w) }
{
    matches!(read_word(w), Some(PlanWord::Back))
}

// The first E word.
fn first_back(words: &[u32]) -> Option<usize>
    ensures { result ≡ position (λ w. is_back (word_of w)) words.now }
{
    words.iter().position(|word| is_back(*word))
}

// The first A word of a number.
fn first_vehicle(words: &[u32], number: u64) -> Option<usize>
    ensures { result ≡ position (λ w. is_vehicle number (word_of w)) words.now }
{
    words.iter().position(|word| is_vehicle(*word, number))
}

// How many words there are from an index up to the first E.
fn part_length(plan: &[u32], from: usize) -> usize
    requires { from ≤ length plan.now }
    ensures { (result ≡ words_to_back (drop from plan.now)) × (from + result ≤ length plan.now) }
{
    let behind = &plan[from..];
    match first_back(behind) {
        Some(before) => before + 1,
        None => behind.len(),
    }
}

// Where a vehicle's words stand in a lawful plan.
pub(crate) fn place_in(plan: &[u32], number: u64) -> PlaceAnswer
    ensures { place_values result ≡ place_from number plan.now 0 }
{
    match first_vehicle(plan, number) {
        Some(start) => PlaceAnswer::Found {
            start,
            length: part_length(plan, start),
        },
        None => PlaceAnswer::Refused {
            number: CallFault::Vehicle as u32,
            place: number as usize,
        },
    }
}
