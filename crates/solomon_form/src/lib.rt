// A text held against the public Solomon form, field by field: the first fault is the one at the earliest byte.
#![tactic(auto)]

mod faults;

ghost use Rattle.std.specs.Prelude.{◌≡◌};
ghost use Rattle.rules.specs.TextFields.{line_at};
ghost use Rattle.rules.specs.SolomonForm.{is_over, line_offence, judge_text};

use crate::faults::field_fault;
use rules::texts::Offence;
use text_fields::{first_line, next_field, next_line};

// The first offence of line j, which stands at `at`.
fn line_offence(text: &[u8], j: u8, at: usize) -> Result<(), Offence>
    requires { at ≡ line_at text.now j }
    ensures { result ≡ line_offence text.now j }
{
    let mut place = at;
    let mut before = at;
    for i in 0..8 {
        field_fault(text, j, i, place, before).map_err(|fault| Offence { fault, place })?;
        before = place;
        place = next_field(text, place);
    }
    Ok(())
}

// Line j, which would stand at `at`, is not asked for and is not there.
#[tactic(auto, unfolding(rules::specs::SolomonForm::is_over))]
fn is_over(text: &[u8], j: u8, at: usize) -> bool
    requires { at ≡ line_at text.now j }
    ensures { result ≡ is_over text.now j }
{
    7 <= j && text.len() <= at
}

// The stops of the whole text, line by line, or the first offence. Behind 240 stops there may be no other line.
pub fn judge_text(text: &[u8]) -> Result<usize, Offence>
    ensures { result ≡ judge_text text.now }
{
    let mut at = first_line(text);
    for j in 0..247 {
        if is_over(text, j, at) {
            return Ok(usize::from(j - 7));
        }
        line_offence(text, j, at)?;
        at = next_line(text, at);
    }
    if !is_over(text, 247, at) {
        line_offence(text, 247, at)?;
    }
    Ok(240)
}
