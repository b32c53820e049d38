// A vehicle on its way, by value: where and when it is, what it carries, and the marks of the stops still to be routed. That its numbers are
// small is known of a vehicle that the build reaches, and not of any that does a task, so it is asked for and is no part of the type.
ghost use Rattle.std.specs.Prelude.{◌≡◌, true, ◌<◌, ◌≤◌};
ghost use Rattle.rules.specs.PlanWords.{word_of};
ghost use Rattle.rules.specs.Fields.{tips, stops};
ghost use Rattle.rules.specs.Cargo.{empty};
ghost use Rattle.rules.specs.Trip.{leaving};
ghost use Rattle.laws.specs.Marks.{marked};
ghost use Rattle.next_task.specs.NextBy.{NextWithin, is_task};
ghost use Rattle.vehicle_writer.specs.Done.{SmallState, Doable, Fits, next_said, Served, Emptied, Done, Rested, MadeReady};
ghost use Rattle.vehicle_writer.specs.Going.{SetsOut};

use day::days::Day;
use marks::Marks;
use next_task::tasks::{Next, next_task};
use plan_words::{BACK, stop_word, tip_word};
use rules::walk::{Cargo, Trip};
use trips::cargo::{load_on, nothing, tip_out};
use trips::drives::leave;
use ways_home::ways::{after_stop, after_tip, rest_if_due};

#[derive(Clone, Copy)]
pub struct State {
    pub trip: Trip,
    pub cargo: Cargo,
    pub left: Marks,
}

// A fresh vehicle.
fn fresh_state(day: &Day, left: Marks) -> State
    ensures { (result.trip ≡ leaving day.now) × (result.cargo ≡ empty) × (result.left ≡ left) }
{
    State {
        trip: leave(day),
        cargo: nothing(),
        left,
    }
}

// A stop is served.
fn serve_stop(day: &Day, state: State, stop: usize) -> State
    requires { SmallState day.now state × (0 < stop) × (stop ≤ stops day.now) × (marked state.left.words stop ≡ true) }
    ensures { Served day.now state stop result }
{
    State {
        trip: after_stop(day, state.trip, stop),
        cargo: load_on(state.cargo, day.stop_quantity(stop)),
        left: state.left.unmark(stop),
    }
}

// The load is emptied at a tip.
fn empty_load(day: &Day, state: State, tip: usize) -> State
    requires { SmallState day.now state × (0 < tip) × (tip ≤ tips day.now) }
    ensures { Emptied day.now state tip result }
{
    State {
        trip: after_tip(day, state.trip, tip),
        cargo: tip_out(state.cargo),
        ..state
    }
}

// The next task is done.
pub(crate) fn do_task(day: &Day, state: State, next: Next) -> State
    requires { SmallState day.now state × NextWithin day.now next × Doable state.left.words next }
    ensures { Done day.now state next result }
{
    match next {
        Next::Stop(stop) => serve_stop(day, state, stop),
        Next::Tip(tip) => empty_load(day, state, tip),
        Next::Home => state,
    }
}

// A rest is taken if due.
fn rest_state(day: &Day, state: State) -> State
    requires { SmallState day.now state }
    ensures { Rested day.now state result }
{
    State {
        trip: rest_if_due(day, state.trip),
        ..state
    }
}

// A vehicle that has rested if due, with its next task before it.
#[derive(Clone, Copy)]
pub struct Ready {
    pub state: State,
    pub next: Next,
}

// A rest is taken if due, and the next task is found.
pub(crate) fn make_ready(day: &Day, before: State) -> Ready
    requires { SmallState day.now before }
    ensures { MadeReady day.now before result }
{
    let state = rest_state(day, before);
    Ready {
        state,
        next: next_task(day, state.trip, state.cargo, state.left),
    }
}

// A fresh vehicle, ready for its first task.
pub(crate) fn set_out(day: &Day, left: Marks) -> Ready
    ensures { SetsOut day.now left result }
{
    make_ready(day, fresh_state(day, left))
}

// The word of a task: B or C; E where there is none.
pub(crate) fn word_of(next: Next) -> u32
    requires { Fits next }
    ensures { word_of result ≡ next_said next }
{
    match next {
        Next::Stop(stop) => stop_word(stop),
        Next::Tip(tip) => tip_word(tip),
        Next::Home => BACK,
    }
}

// Whether there is a task.
pub(crate) fn has_task(ready: Ready) -> bool
    ensures { result ≡ is_task ready.next }
{
    matches!(ready.next, Next::Stop(_) | Next::Tip(_))
}
