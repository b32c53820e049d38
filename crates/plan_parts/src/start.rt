// Before the first word of a plan.
ghost use Rattle.std.specs.Prelude.{◌≡◌, []};
ghost use Rattle.rules.specs.Check.{start};
ghost use Rattle.plan_parts.specs.Walked.{none_met, walk_of};

use day::days::Day;
use trips::cargo::nothing;
use trips::drives::leave;
use trips::tally::none_told;
use word_steps::steps::State;

// Before the first word.
pub fn first_state(day: &Day) -> State
    ensures { walk_of result [] ≡ start day.now }
{
    State {
        tally: none_told(),
        cargo: nothing(),
        trip: leave(day),
    }
}

// No stop is met.
pub fn no_stops() -> [bool; 256]
    ensures { result ≡ none_met }
{
    [false; 256]
}
