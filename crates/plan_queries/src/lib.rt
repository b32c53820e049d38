// One vehicle's part of a lawful plan, and the rounds of two lawful plans.
#![tactic(auto)]

mod rounds;
mod vehicles;

ghost use Rattle.std.specs.Prelude.{◌≡◌, length};
ghost use Rattle.rules.specs.VehiclePlace.{vehicle_place, vehicle_words};
ghost use Rattle.rules.specs.SameRounds.{same_rounds, second_answer};
ghost use Rattle.rules.specs.AnswerValues.{rounds_values, RoundsNumbered, place_values};

use crate::rounds::are_same;
use crate::vehicles::place_in;
use checker::check;
use rules::answers::{Answer, PlaceAnswer, RoundsAnswer};

// Where the words of a vehicle stand in a lawful plan.
pub fn vehicle_place(day: &[u32], plan: &[u32], number: u64) -> PlaceAnswer
    ensures { place_values result ≡ vehicle_place day.now plan.now number }
{
    match check(day, plan) {
        Answer::Lawful { .. } => place_in(plan, number),
        // Not by From: it would give a lawful answer a place too, and that alone has none.
        Answer::Refused { number, place } => PlaceAnswer::Refused { number, place },
    }
}

// The words of a vehicle, as that part of the caller's plan: empty exactly where `vehicle_place` refuses.
pub fn vehicle_words<'a>(day: &[u32], plan: &'a [u32], number: u64) -> &'a [u32]
    ensures { result.now ≡ vehicle_words day.now plan.now number }
{
    match vehicle_place(day, plan, number) {
        PlaceAnswer::Found { start, length } => {
            let end = start + length;
            &plan[start..end]
        }
        PlaceAnswer::Refused { .. } => &plan[0..0],
    }
}

// The answer once the first plan is known to be lawful.
fn second_answer(day: &[u32], first: &[u32], second: &[u32]) -> RoundsAnswer
    ensures answer { rounds_values result ≡ second_answer day.now first.now second.now }
    ensures numbered { RoundsNumbered result }
{
    match check(day, second) {
        Answer::Lawful { .. } => {
            if are_same(first, second) {
                RoundsAnswer::Same
            } else {
                RoundsAnswer::Different
            }
        }
        // Not by From: the place counts on from the first plan's length.
        Answer::Refused { number, place } => RoundsAnswer::Refused {
            number,
            place: place + first.len(),
        },
    }
}

// Whether two plans that are both lawful have the same rounds.
pub fn same_rounds(day: &[u32], first: &[u32], second: &[u32]) -> RoundsAnswer
    ensures answer { rounds_values result ≡ same_rounds day.now first.now second.now }
    ensures numbered { RoundsNumbered result }
{
    match check(day, first) {
        Answer::Lawful { .. } => second_answer(day, first, second),
        // Not by From: a lawful answer on one plan is none on the rounds of two.
        Answer::Refused { number, place } => RoundsAnswer::Refused { number, place },
    }
}
