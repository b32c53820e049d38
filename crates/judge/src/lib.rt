// A day judged: accepted, or refused at its first word at fault.
#![tactic(auto)]

ghost use Rattle.std.specs.Prelude.{◌≡◌, IfOk, IfErr, MatchResult};
ghost use Rattle.rules.specs.Answers.{refused};
ghost use Rattle.rules.specs.DayFile.{judge_day};
ghost use Rattle.rules.specs.Fields.{tips, stops, IsAccepted};
ghost use Rattle.rules.specs.AnswerValues.{day_values, answer_values, plan_values};
ghost use Rattle.day_faults.specs.Judging.{judged_from};
ghost use Rattle.judge.specs.Refusals.{refusal_number, refusal_place};
ghost use Rattle.judge.specs.declared.Refusal.TheVariants.{Word};

use day::days::Day;
use day_faults::faults::Fault;
use day_faults::legs::check_legs;
use day_faults::parts::{check_head, check_stops, check_tips};
use day_faults::sizes::SizedDay;
use rules::answers::{Answer, DayAnswer, PlanAnswer};
use rules::faults::{CallFault, DayFault};

// Why a day is refused: it has no whole head, too many stops or no tip, another length than they ask for, or a word at fault.
#[derive(Clone, Copy, PartialEq, Eq, Debug)]
pub enum Refusal {
    Short { words: usize },
    Sizes,
    Length { words: usize },
    Word(Fault),
}

impl From<Fault> for Refusal {
    ghost from_gives = { λ found refusal. refusal ≡ Word found };

    fn from(found: Fault) -> Refusal {
        Refusal::Word(found)
    }
}

impl Refusal {
    // Its number.
    fn number(self) -> u32
        ensures { result ≡ refusal_number self }
    {
        match self {
            Refusal::Short { .. } => CallFault::Short as u32,
            Refusal::Sizes => CallFault::Sizes as u32,
            Refusal::Length { .. } => CallFault::Length as u32,
            Refusal::Word(found) => found.fault as u32,
        }
    }

    // Its place.
    fn place(self) -> usize
        ensures { result ≡ refusal_place self }
    {
        match self {
            Refusal::Short { words } => words,
            Refusal::Sizes => 0,
            Refusal::Length { words } => words,
            Refusal::Word(found) => found.place,
        }
    }
}

// A refused day as each call answers it.
impl From<Refusal> for DayAnswer {
    ghost from_gives = { λ refusal answer. day_values answer ≡ refused (refusal_number refusal) (refusal_place refusal) };

    fn from(refusal: Refusal) -> DayAnswer {
        DayAnswer::Refused {
            number: refusal.number(),
            place: refusal.place(),
        }
    }
}

impl From<Refusal> for Answer {
    ghost from_gives = { λ refusal answer. answer_values answer ≡ refused (refusal_number refusal) (refusal_place refusal) };

    fn from(refusal: Refusal) -> Answer {
        Answer::Refused {
            number: refusal.number(),
            place: refusal.place(),
        }
    }
}

impl From<Refusal> for PlanAnswer {
    ghost from_gives = { λ refusal answer. plan_values answer ≡ refused (refusal_number refusal) (refusal_place refusal) };

    fn from(refusal: Refusal) -> PlanAnswer {
        PlanAnswer::Refused {
            number: refusal.number(),
            place: refusal.place(),
        }
    }
}

// The day's words with the tips and stops of word 0, where its length is right for them: kind 1 in bits 31-28, zeros in bits 27-12, d in
// bits 11-8, n in bits 7-0.
#[tactic(auto, using(day_faults::proofs::Judged::whole_day), unfolding(rules::specs::DayFile::judge_day, rules::specs::DayFile::judge_sized, day_faults::specs::Judging::judged_from))]
fn sized(day: &[u32]) -> Result<SizedDay<'_>, Refusal>
    ensures size { IfOk result (λ sized. (sized.words.now ≡ day.now) × (sized.tips ≡ tips day.now) × (sized.stops ≡ stops day.now)) }
    ensures judged { IfOk result (λ sized. judged_from sized.tips sized.stops day.now 1 ≡ judge_day day.now) }
    ensures refusal { IfErr result (λ refusal. refused (refusal_number refusal) (refusal_place refusal) ≡ judge_day day.now) }
{
    if day.len() < 7 {
        return Err(Refusal::Short { words: day.len() });
    }
    let word = day[0];
    if word / 0x1000 != 0x10000 {
        return Err(Refusal::Word(Fault {
            fault: DayFault::Form,
            place: 0,
        }));
    }
    let tips = (word / 0x100 % 0x10) as usize;
    let stops = (word % 0x100) as usize;
    if stops > 240 || tips == 0 {
        return Err(Refusal::Sizes);
    }
    let places = 1 + tips + stops;
    if day.len() != 7 + 2 * tips + 3 * stops + places * places {
        return Err(Refusal::Length { words: day.len() });
    }
    Ok(SizedDay {
        words: day,
        tips,
        stops,
    })
}

// A day of any words and any length, laid out where it is accepted.
#[tactic(auto, using(day_faults::proofs::Judged::end_judged))]
pub fn lay_out(day: &[u32]) -> Result<Day<'_>, Refusal>
    ensures { MatchResult result (λ laid. (laid ≡ day.now) × IsAccepted day.now) (λ refusal. refused (refusal_number refusal) (refusal_place refusal) ≡ judge_day day.now) }
{
    let sized = sized(day)?;
    check_head(&sized)?;
    check_tips(&sized)?;
    check_stops(&sized)?;
    check_legs(&sized)?;
    Ok(Day::new(day))
}

// A day of any words and any length is accepted, or refused by 1 to 5.
pub fn judge(day: &[u32]) -> DayAnswer
    ensures { day_values result ≡ judge_day day.now }
{
    match lay_out(day) {
        Ok(laid) => DayAnswer::Accepted {
            stops: laid.stops() as u32,
            tips: laid.tips() as u32,
        },
        Err(refusal) => refusal.into(),
    }
}
