// A plan against a day: lawful, or refused at its first word at fault.
#![tactic(auto)]

mod run;

ghost use Rattle.std.specs.Prelude.{◌≡◌};
ghost use Rattle.rules.specs.Check.{check_words, check_plan};
ghost use Rattle.rules.specs.AnswerValues.{answer_values};

use crate::run::check_words;
use day::days::Day;
use judge::lay_out;
use rules::answers::Answer;
use rules::faults::CallFault;

// The answer on a plan of a day that is laid out: for callers that check many plans of one accepted day.
pub fn check_laid_out(day: &Day, plan: &[u32]) -> Answer
    ensures { answer_values result ≡ check_words day.now plan.now }
{
    if 4096 < plan.len() {
        return Answer::Refused {
            number: CallFault::Plan as u32,
            place: 4096,
        };
    }
    check_words(day, plan)
}

// The answer on any day and any plan.
pub fn check(day: &[u32], plan: &[u32]) -> Answer
    ensures { answer_values result ≡ check_plan day.now plan.now }
{
    match lay_out(day) {
        Ok(laid) => check_laid_out(&laid, plan),
        Err(refusal) => refusal.into(),
    }
}
