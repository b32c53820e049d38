// What a word does to the walk, one function for each kind, where the word has the form and names no stop that was met before.
ghost use Rattle.std.specs.Prelude.{◌≡◌, true, ◌<◌, ◌≤◌, List, ℕ};
ghost use Rattle.rules.specs.Fields.{tips, stops};
ghost use Rattle.rules.specs.PlanWords.{vehicle, stop, tip, rest, back, left};
ghost use Rattle.trips.specs.Trips.{TallyWithin};
ghost use Rattle.word_steps.specs.Steps.{formed_fault, Next, StepOf, Within};

use day::days::Day;
use rules::faults::PlanFault;
use rules::walk::{Cargo, Tally, Trip};
use trips::cargo::{load_on, nothing, same_cargo, tip_out};
use trips::drives::{back, leave, rest, same_trip, visit_stop, visit_tip};
use trips::limits::LimitedDay;
use trips::tally::{one_back, one_left, one_out, one_served, same_tally};

// The walk between two words, but for the stops met. Its parts are copied field by field, for the reason of `same_trip`, and a step is taken
// apart by let-else: with block copies, as `..s` makes, and `?` in the loop over the words, the check took half as long again.
#[derive(Clone, Copy)]
pub struct State {
    pub tally: Tally,
    pub cargo: Cargo,
    pub trip: Trip,
}

// The state after a word, and the stop that the word names, 0 for none, which the caller marks. Day, state and marks go from function to
// function beside each other, as no struct: the marks are lent and never copied, while a state is copied at each step and dropped at a fault.
#[derive(Clone, Copy)]
pub struct Step {
    pub stop: usize,
    pub state: State,
}

// B, a stop is served.
pub(crate) fn serve(limited: &LimitedDay, s: State, number: usize) -> Result<Step, PlanFault>
    requires { Within limited.now.day.now 4096 s × (0 < number) × (number ≤ stops limited.now.day.now) }
    ensures { StepOf (formed_fault limited.now.day.now s (stop number)) limited.now.day.now s (stop number) result }
{
    let cargo = load_on(s.cargo, limited.day.stop_quantity(number));
    if limited.is_over(cargo) {
        return Err(PlanFault::Limit);
    }
    let trip = visit_stop(limited.day, s.trip, number)?;
    let tally = one_served(s.tally);
    Ok(Step {
        stop: number,
        state: State { tally, cargo, trip },
    })
}

// C, the load is tipped.
pub(crate) fn empty_out(day: &Day, s: State, number: usize) -> Result<Step, PlanFault>
    requires { Within day.now 4096 s × (0 < number) × (number ≤ tips day.now) }
    ensures { StepOf (formed_fault day.now s (tip number)) day.now s (tip number) result }
{
    let trip = visit_tip(day, s.trip, number)?;
    let tally = same_tally(s.tally);
    let cargo = tip_out(s.cargo);
    Ok(Step {
        stop: 0,
        state: State { tally, cargo, trip },
    })
}

// D, the vehicle rests.
pub(crate) fn take_rest(day: &Day, s: State) -> Result<Step, PlanFault>
    requires { Within day.now 4096 s }
    ensures { StepOf (formed_fault day.now s rest) day.now s rest result }
{
    let trip = rest(day, s.trip)?;
    let tally = same_tally(s.tally);
    let cargo = same_cargo(s.cargo);
    Ok(Step {
        stop: 0,
        state: State { tally, cargo, trip },
    })
}

// E, the vehicle is back.
pub(crate) fn come_back(day: &Day, s: State) -> Result<Step, PlanFault>
    requires { Within day.now 4096 s × (s.tally.inside ≡ true) }
    ensures { StepOf (formed_fault day.now s back) day.now s back result }
{
    if 0 < s.cargo.load {
        return Err(PlanFault::Load);
    }
    let trip = back(day, s.trip)?;
    let tally = one_back(s.tally, trip.distance);
    let cargo = same_cargo(s.cargo);
    Ok(Step {
        stop: 0,
        state: State { tally, cargo, trip },
    })
}

// A, a vehicle leaves.
pub(crate) fn set_out(day: &Day, s: State) -> Step
    requires { Within day.now 4096 s }
    ensures { (number : ℕ) → Next day.now s (vehicle number) result }
{
    Step {
        stop: 0,
        state: State {
            tally: one_out(s.tally),
            cargo: nothing(),
            trip: leave(day),
        },
    }
}

// F, a stop is left out.
pub(crate) fn leave_out(s: State, number: u32) -> Step
    requires { TallyWithin 4096 s.tally }
    ensures { (day : List ℕ) → Next day s (left number) result }
{
    Step {
        stop: number as usize,
        state: State {
            tally: one_left(s.tally, number),
            cargo: same_cargo(s.cargo),
            trip: same_trip(s.trip),
        },
    }
}
