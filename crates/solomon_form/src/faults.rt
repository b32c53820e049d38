// What is found of one field of a line: nothing, or a fault.
// Lines and fields stay numbers, j and i: the definitions number them, and a text is read by counting them up.
// A text and a place stay two parameters: of a struct of them a clause says `self.entry.text.now self.entry.at`, and not `text.now at`.
ghost use Rattle.std.specs.Prelude.{◌≡◌, ◌≤◌, ◌<◌, if◌then◌else◌};
ghost use Rattle.rules.specs.TextFields.{number_at};
ghost use Rattle.rules.specs.SolomonForm.{fine, plain_fault, range_fault, order_fault, end_fault, name_fault, word_fault, fleet_fault};
ghost use Rattle.rules.specs.SolomonForm.{is_unused, most_of, least_of, customer_fault, beyond_fault, field_fault};
ghost use Rattle.text_fields.specs.Runs.{held_at};

use rules::faults::TextFault;
use text_fields::{ends_line, is_number, is_word, number_at};

// The fault of a field that fails a test.
fn unless(test: bool, fault: TextFault) -> Result<(), TextFault>
    ensures { result ≡ (if test then fine else Err fault) }
{
    if test { Ok(()) } else { Err(fault) }
}

#[tactic(auto, unfolding(rules::specs::SolomonForm::plain_fault))]
fn plain_fault(text: &[u8], at: usize) -> Result<(), TextFault>
    ensures { result ≡ plain_fault text.now at }
{
    unless(is_number(text, at), TextFault::Form)
}

#[tactic(auto, unfolding(rules::specs::SolomonForm::range_fault))]
fn range_fault(text: &[u8], at: usize, least: u32, most: u32) -> Result<(), TextFault>
    requires { (least ≤ 1000000) × (most < 1000000) }
    ensures { result ≡ range_fault text.now at least most }
{
    plain_fault(text, at)?;
    unless(
        (least..=most).contains(&number_at(text, at)),
        TextFault::Range,
    )
}

#[tactic(auto, unfolding(rules::specs::SolomonForm::order_fault))]
fn order_fault(text: &[u8], at: usize, k: u8) -> Result<(), TextFault>
    ensures { result ≡ order_fault text.now at k }
{
    plain_fault(text, at)?;
    unless(number_at(text, at) == u32::from(k), TextFault::Form)
}

#[tactic(auto, unfolding(rules::specs::SolomonForm::end_fault))]
fn end_fault(text: &[u8], at: usize) -> Result<(), TextFault>
    ensures { result ≡ end_fault text.now at }
{
    unless(ends_line(text, at), TextFault::Form)
}

#[tactic(auto, unfolding(rules::specs::SolomonForm::name_fault))]
fn name_fault(text: &[u8], i: u8, at: usize) -> Result<(), TextFault>
    ensures { result ≡ name_fault text.now i at }
{
    unless(i != 0 || at < text.len(), TextFault::Form)
}

#[tactic(auto, unfolding(rules::specs::SolomonForm::word_fault))]
fn word_fault(text: &[u8], word: &[u8], i: u8, at: usize) -> Result<(), TextFault>
    ensures { result ≡ word_fault text.now word.now i at }
{
    if i == 0 {
        unless(is_word(text, at, word), TextFault::Form)
    } else {
        end_fault(text, at)
    }
}

#[tactic(auto, unfolding(rules::specs::SolomonForm::fleet_fault))]
fn fleet_fault(text: &[u8], i: u8, at: usize) -> Result<(), TextFault>
    ensures { result ≡ fleet_fault text.now i at }
{
    match i {
        0 => plain_fault(text, at),
        1 => range_fault(text, at, 1, 100_000),
        _ => end_fault(text, at),
    }
}

#[tactic(auto, unfolding(rules::specs::SolomonForm::is_unused))]
fn is_unused(k: u8, i: u8) -> bool
    ensures { result ≡ is_unused k i }
{
    k == 0 && matches!(i, 3 | 6)
}

#[tactic(auto, unfolding(rules::specs::SolomonForm::most_of))]
fn most_of(i: u8) -> u32
    ensures { (result ≡ most_of i) × (result < 1000000) }
{
    match i {
        0..=2 => 1000,
        3 => 100_000,
        4 | 5 => 1440,
        _ => 240,
    }
}

// A due date is no less than the ready time before it.
#[tactic(auto, unfolding(rules::specs::SolomonForm::least_of))]
fn least_of(text: &[u8], i: u8, before: usize) -> u32
    ensures { (result ≡ least_of i (held_at text.now before)) × (result ≤ 1000000) }
{
    if i == 5 { number_at(text, before) } else { 0 }
}

#[tactic(auto, unfolding(rules::specs::SolomonForm::customer_fault))]
fn customer_fault(text: &[u8], k: u8, i: u8, at: usize, before: usize) -> Result<(), TextFault>
    ensures { result ≡ customer_fault text.now k i at (number_at text.now before) }
{
    match i {
        0 => order_fault(text, at, k),
        7.. => end_fault(text, at),
        _ if is_unused(k, i) => plain_fault(text, at),
        _ => range_fault(text, at, least_of(text, i, before), most_of(i)),
    }
}

#[tactic(auto, unfolding(rules::specs::SolomonForm::beyond_fault))]
fn beyond_fault(text: &[u8], k: u8, i: u8, at: usize) -> Result<(), TextFault>
    ensures { result ≡ beyond_fault text.now k i at }
{
    if i != 0 {
        return Ok(());
    }
    order_fault(text, at, k)?;
    Err(TextFault::Range)
}

// Field i of line j, which stands at `at` behind the field at `before`.
#[tactic(auto, unfolding(rules::specs::SolomonForm::field_fault, rules::specs::SolomonForm::vehicle_word, rules::specs::SolomonForm::customer_word))]
pub fn field_fault(text: &[u8], j: u8, i: u8, at: usize, before: usize) -> Result<(), TextFault>
    ensures { result ≡ field_fault text.now j i at (number_at text.now before) }
{
    match j {
        1 => word_fault(text, b"VEHICLE", i, at),
        3 => fleet_fault(text, i, at),
        4 => word_fault(text, b"CUSTOMER", i, at),
        6..=246 => customer_fault(text, j - 6, i, at, before),
        247.. => beyond_fault(text, j - 6, i, at),
        _ => name_fault(text, i, at),
    }
}
