// Each answer as six numbers: 0 and its values, or the refusal's number and place; what is not named is 0.
#![tactic(auto, unfolding(rules::specs::Answers::in_six))]

ghost use Rattle.std.specs.Prelude.{◌≡◌, ℕ, List};
ghost use Rattle.rules.specs.Answers.{in_six, refused as Answers·refused};
ghost use Rattle.rules.specs.AnswerValues.{words_values, import_values, day_values, answer_values, place_values, rounds_values, plan_values};

use rules::answers::{
    Answer, DayAnswer, ImportAnswer, PlaceAnswer, PlanAnswer, RoundsAnswer, WordsAnswer,
};

// What a call answers, as six numbers.
pub trait SixNumbers {
    // The answer's values, as the rules name them.
    ghost values: { Self → List ℕ };

    fn six_numbers(self) -> [u64; 6]
        ensures { result ≡ in_six (values self) };
}

// A refusal's six numbers.
fn refused(number: u32, place: usize) -> [u64; 6]
    ensures { result ≡ in_six (Answers·refused number place) }
{
    [u64::from(number), place as u64, 0, 0, 0, 0]
}

// The answer to byte reading.
impl SixNumbers for WordsAnswer {
    ghost values = { words_values };

    fn six_numbers(self) -> [u64; 6] {
        match self {
            WordsAnswer::Read { words } => [0, words as u64, 0, 0, 0, 0],
            WordsAnswer::Refused { number, place } => refused(number, place),
        }
    }
}

// The answer to an import.
impl SixNumbers for ImportAnswer {
    ghost values = { import_values };

    fn six_numbers(self) -> [u64; 6] {
        match self {
            ImportAnswer::Read { words } => [0, words as u64, 0, 0, 0, 0],
            ImportAnswer::Refused { number, place } => refused(number, place),
        }
    }
}

// The answer on a day.
impl SixNumbers for DayAnswer {
    ghost values = { day_values };

    fn six_numbers(self) -> [u64; 6] {
        match self {
            DayAnswer::Accepted { stops, tips } => [0, u64::from(stops), u64::from(tips), 0, 0, 0],
            DayAnswer::Refused { number, place } => refused(number, place),
        }
    }
}

// The answer on a plan.
impl SixNumbers for Answer {
    ghost values = { answer_values };

    fn six_numbers(self) -> [u64; 6] {
        match self {
            Answer::Lawful {
                distance,
                vehicles,
                served,
            } => [
                0,
                u64::from(distance),
                u64::from(vehicles),
                u64::from(served),
                0,
                0,
            ],
            Answer::Refused { number, place } => refused(number, place),
        }
    }
}

// The answer on one vehicle.
impl SixNumbers for PlaceAnswer {
    ghost values = { place_values };

    fn six_numbers(self) -> [u64; 6] {
        match self {
            PlaceAnswer::Found { start, length } => [0, start as u64, length as u64, 0, 0, 0],
            PlaceAnswer::Refused { number, place } => refused(number, place),
        }
    }
}

// The answer on the rounds of two plans.
impl SixNumbers for RoundsAnswer {
    ghost values = { rounds_values };

    fn six_numbers(self) -> [u64; 6] {
        match self {
            RoundsAnswer::Same => [0, 1, 0, 0, 0, 0],
            RoundsAnswer::Different => [0, 0, 0, 0, 0, 0],
            RoundsAnswer::Refused { number, place } => refused(number, place),
        }
    }
}

// The answer on a plan that was made.
impl SixNumbers for PlanAnswer {
    ghost values = { plan_values };

    fn six_numbers(self) -> [u64; 6] {
        match self {
            PlanAnswer::Planned {
                distance,
                trials,
                settled,
                left_out,
                words,
            } => [
                0,
                u64::from(distance),
                trials,
                u64::from(settled),
                left_out as u64,
                words as u64,
            ],
            PlanAnswer::Refused { number, place } => refused(number, place),
        }
    }
}
