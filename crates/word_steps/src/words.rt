// A word of the plan: its form, then whether the stop that it names was met before, then what the word does.
ghost use Rattle.std.specs.Prelude.{◌≡◌, Bool, List, OnOk};
ghost use Rattle.rules.specs.PlanWords.{vehicle, stop, tip, rest, back, left, word_of};
ghost use Rattle.rules.specs.Check.{within};
ghost use Rattle.word_steps.specs.Steps.{fault_by, StepOf, Within};

use crate::steps::{State, Step, come_back, empty_out, leave_out, serve, set_out, take_rest};
use day::days::Day;
use plan_words::{BACK, PlanWord, REST, read_word};
use rules::faults::PlanFault;
use trips::limits::LimitedDay;

// A number from 1 to the most.
#[tactic(auto, unfolding(rules::specs::Check::within))]
fn is_within(most: usize, k: usize) -> bool
    ensures { result ≡ within most k }
{
    (1..=most).contains(&k)
}

fn stop_word(
    limited: &LimitedDay,
    s: State,
    met: &[bool; 256],
    number: usize,
) -> Result<Step, PlanFault>
    requires { Within limited.now.day.now 4096 s }
    ensures { StepOf (fault_by limited.now.day.now met.now s (stop number)) limited.now.day.now s (stop number) result }
{
    if !(s.tally.inside & is_within(limited.day.stops(), number)) {
        return Err(PlanFault::Form);
    }
    if met[number] {
        return Err(PlanFault::Stop);
    }
    serve(limited, s, number)
}

fn tip_word(day: &Day, s: State, number: usize) -> Result<Step, PlanFault>
    requires { Within day.now 4096 s }
    ensures { (met : List Bool) → StepOf (fault_by day.now met s (tip number)) day.now s (tip number) result }
{
    if !(s.tally.inside & is_within(day.tips(), number)) {
        return Err(PlanFault::Form);
    }
    empty_out(day, s, number)
}

fn rest_word(day: &Day, s: State) -> Result<Step, PlanFault>
    requires { Within day.now 4096 s }
    ensures { (met : List Bool) → StepOf (fault_by day.now met s rest) day.now s rest result }
{
    if !s.tally.inside {
        return Err(PlanFault::Form);
    }
    take_rest(day, s)
}

fn back_word(day: &Day, s: State) -> Result<Step, PlanFault>
    requires { Within day.now 4096 s }
    ensures { (met : List Bool) → StepOf (fault_by day.now met s back) day.now s back result }
{
    if !(s.tally.inside & (0 < s.cargo.visits)) {
        return Err(PlanFault::Form);
    }
    come_back(day, s)
}

pub fn vehicle_word(day: &Day, s: State, number: u32) -> Result<Step, PlanFault>
    requires { Within day.now 4096 s }
    ensures { (met : List Bool) → StepOf (fault_by day.now met s (vehicle number)) day.now s (vehicle number) result }
{
    let y = s.tally;
    if !(!y.inside & (y.last == 0) & (number == y.vehicles + 1)) {
        return Err(PlanFault::Form);
    }
    Ok(set_out(day, s))
}

pub fn left_word(day: &Day, s: State, met: &[bool; 256], number: u32) -> Result<Step, PlanFault>
    requires { Within day.now 4096 s }
    ensures { StepOf (fault_by day.now met.now s (left number)) day.now s (left number) result }
{
    let y = s.tally;
    let at = number as usize;
    if !(!y.inside & is_within(day.stops(), at) & (y.last < number)) {
        return Err(PlanFault::Form);
    }
    if met[at] {
        return Err(PlanFault::Stop);
    }
    Ok(leave_out(s, number))
}

// The step of a word.
pub fn word_step(
    limited: &LimitedDay,
    s: State,
    met: &[bool; 256],
    w: u32,
) -> Result<Step, PlanFault>
    requires { Within limited.now.day.now 4096 s }
    ensures { StepOf (fault_by limited.now.day.now met.now s (word_of w)) limited.now.day.now s (word_of w) result }
{
    match read_word(w) {
        Some(PlanWord::Vehicle(number)) => vehicle_word(limited.day, s, number),
        Some(PlanWord::Stop(stop)) => stop_word(limited, s, met, stop),
        Some(PlanWord::Tip(tip)) => tip_word(limited.day, s, tip),
        Some(PlanWord::Rest) => rest_word(limited.day, s),
        Some(PlanWord::Back) => back_word(limited.day, s),
        Some(PlanWord::Left(stop)) => left_word(limited.day, s, met, stop),
        None => Err(PlanFault::Form),
    }
}

// The step of a word of a vehicle that is out, the frequent kinds first. Another word's step is at fault here, whatever it is. No word is
// taken apart: kind and number are one range of words, so that one test tells both. By `read_word`, in three forms of it, the check of one
// plan took from 8 to 70 % longer.
pub fn task_step(
    limited: &LimitedDay,
    s: State,
    met: &[bool; 256],
    w: u32,
) -> Result<Step, PlanFault>
    requires { Within limited.now.day.now 4096 s }
    ensures { OnOk result (StepOf (fault_by limited.now.day.now met.now s (word_of w)) limited.now.day.now s (word_of w) result) }
{
    let day = limited.day;
    let stop = plan_words::stop_index(w) as usize;
    if stop < day.stops() {
        return stop_word(limited, s, met, stop + 1);
    }
    let tip = plan_words::tip_index(w) as usize;
    if tip < day.tips() {
        return tip_word(day, s, tip + 1);
    }
    if w == REST {
        return rest_word(day, s);
    }
    if w == BACK {
        return back_word(day, s);
    }
    Err(PlanFault::Form)
}
