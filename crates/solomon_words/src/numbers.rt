// The numbers of a text without fault.
ghost use Rattle.std.specs.Prelude.{◌≡◌, ◌<◌, ℕ, length, slice_index};
ghost use Rattle.rules.specs.TextFields.{line_at, field_at};
ghost use Rattle.rules.specs.SolomonForm.{place_of};
ghost use Rattle.text_fields.specs.Runs.{held_at};
ghost use Rattle.solomon_words.specs.Table.{Stored};

use text_fields::{first_line, next_field, next_line, number_at};

// Line j of those that are not blank.
fn line_at(text: &[u8], j: usize) -> usize
    ensures { result ≡ line_at text.now j }
{
    let mut at = first_line(text);
    for _ in 0..j {
        at = next_line(text, at);
    }
    at
}

#[tactic(auto, unfolding(rules::specs::TextFields::field_at))]
pub fn capacity_of(text: &[u8]) -> u32
    ensures { result ≡ held_at text.now (place_of text.now 3 1) }
{
    let at = line_at(text, 3);
    number_at(text, next_field(text, at))
}

// The numbers of the line that stands at `at`.
fn numbers_at(text: &[u8], at: usize) -> [u32; 7]
    ensures { (i : ℕ) → i < 7 → slice_index result i ≡ held_at text.now (field_at text.now at i) }
{
    let mut numbers = [0; 7];
    let mut place = at;
    for number in numbers.iter_mut() {
        *number = number_at(text, place);
        place = next_field(text, place);
    }
    numbers
}

// The numbers of the customers, line by line.
pub fn store_numbers(text: &[u8], customers: &mut [[u32; 7]])
    ensures { Stored text.now customers.new (length customers.old) }
{
    let mut at = line_at(text, 6);
    for customer in customers.iter_mut() {
        *customer = numbers_at(text, at);
        at = next_line(text, at);
    }
}
