// Demands 1 and 2 of each call: a small client makes the call, and promises what the call owes, in the words of the rules.
// Answer and buffers are exactly those of the rules. The answer is given or has one of the call's refusal numbers; a refusal leaves every lent
// buffer alone; an answer means what it should.
ghost use Rattle.std.specs.Prelude.{◌≡◌, false, [], ◌∷◌, length};
ghost use Rattle.rules.specs.Answers.{is_given};
ghost use Rattle.rules.specs.DayFile.{judge_day};
ghost use Rattle.rules.specs.Check.{check_plan};
ghost use Rattle.rules.specs.Bytes.{read_answer, read_buffer};
ghost use Rattle.rules.specs.VehiclePlace.{vehicle_place};
ghost use Rattle.rules.specs.SameRounds.{same_rounds};
ghost use Rattle.rules.specs.SolomonDay.{import_answer, import_buffer};
ghost use Rattle.rules.specs.AnswerValues.{words_values, import_values, day_values, answer_values, place_values, rounds_values, plan_values};
ghost use Rattle.rules.specs.Planned.{build_answer, build_buffer, plan_answer, plan_buffer, growing_answer, growing_buffer};
ghost use Rattle.rules.specs.Demands.{AnswersBy};
ghost use Rattle.promises.specs.Exactly.{DemandTwo, SaysSame};
ghost use Rattle.promises.specs.Imported.{ImportedBy};

use rules::answers::{
    Answer, DayAnswer, ImportAnswer, PlaceAnswer, PlanAnswer, RoundsAnswer, WordsAnswer,
};

// Byte reading: 1 or 14.
pub fn read(bytes: &[u8], words: &mut [u32]) -> WordsAnswer
    ensures answer { words_values result ≡ read_answer bytes.now (length words.old) }
    ensures buffer { words.new ≡ read_buffer bytes.now words.old }
    ensures numbers { AnswersBy (1 ∷ 14 ∷ []) (words_values result) }
    ensures kept { is_given (words_values result) ≡ false → words.new ≡ words.old }
{
    day_bytes::read_words(bytes, words)
}

// The judge of a day: 1 to 5.
pub fn judge(day: &[u32]) -> DayAnswer
    ensures answer { day_values result ≡ judge_day day.now }
    ensures numbers { AnswersBy (1 ∷ 2 ∷ 3 ∷ 4 ∷ 5 ∷ []) (day_values result) }
{
    judge::judge(day)
}

// The check of a plan: 1 to 12. Demand 2: lawful exactly when it is, with its distance, its vehicles and its stops served.
pub fn check(day: &[u32], plan: &[u32]) -> Answer
    ensures answer { answer_values result ≡ check_plan day.now plan.now }
    ensures numbers { AnswersBy (1 ∷ 2 ∷ 3 ∷ 4 ∷ 5 ∷ 6 ∷ 7 ∷ 8 ∷ 9 ∷ 10 ∷ 11 ∷ 12 ∷ []) (answer_values result) }
    ensures exactly { DemandTwo day.now plan.now (answer_values result) }
{
    checker::check(day, plan)
}

// Where one vehicle's words stand: 1 to 12, 15.
pub fn vehicle_place(day: &[u32], plan: &[u32], number: u64) -> PlaceAnswer
    ensures answer { place_values result ≡ vehicle_place day.now plan.now number }
    ensures numbers { AnswersBy (1 ∷ 2 ∷ 3 ∷ 4 ∷ 5 ∷ 6 ∷ 7 ∷ 8 ∷ 9 ∷ 10 ∷ 11 ∷ 12 ∷ 15 ∷ []) (place_values result) }
{
    plan_queries::vehicle_place(day, plan, number)
}

// Same rounds: 1 to 12, and Same exactly where the vehicles of two lawful plans, in order, visit the same stops in order.
pub fn same_rounds(day: &[u32], first: &[u32], second: &[u32]) -> RoundsAnswer
    ensures answer { rounds_values result ≡ same_rounds day.now first.now second.now }
    ensures numbers { AnswersBy (1 ∷ 2 ∷ 3 ∷ 4 ∷ 5 ∷ 6 ∷ 7 ∷ 8 ∷ 9 ∷ 10 ∷ 11 ∷ 12 ∷ []) (rounds_values result) }
    ensures exactly { SaysSame day.now first.now second.now (rounds_values result) }
{
    plan_queries::same_rounds(day, first, second)
}

// The greedy plan: 1 to 5, 14.
pub fn build(day: &[u32], plan: &mut [u32]) -> PlanAnswer
    ensures answer { plan_values result ≡ build_answer day.now (length plan.old) }
    ensures buffer { plan.new ≡ build_buffer day.now plan.old }
    ensures numbers { AnswersBy (1 ∷ 2 ∷ 3 ∷ 4 ∷ 5 ∷ 14 ∷ []) (plan_values result) }
    ensures kept { is_given (plan_values result) ≡ false → plan.new ≡ plan.old }
{
    planner::build(day, plan)
}

// Planning with trials: 1 to 5, 13, 14.
pub fn plan(day: &[u32], k: u64, budget: u64, plan: &mut [u32], work: &mut [u32]) -> PlanAnswer
    ensures answer { plan_values result ≡ plan_answer day.now k budget (length plan.old) (length work.old) }
    ensures buffer { plan.new ≡ plan_buffer day.now k budget (length work.old) plan.old }
    ensures numbers { AnswersBy (1 ∷ 2 ∷ 3 ∷ 4 ∷ 5 ∷ 13 ∷ 14 ∷ []) (plan_values result) }
    ensures kept { is_given (plan_values result) ≡ false → plan.new ≡ plan.old }
    ensures spare { is_given (plan_values result) ≡ false → work.new ≡ work.old }
{
    planner::plan(day, k, budget, plan, work)
}

// Planning with growing neighbour sets: 1 to 5, 14.
pub fn plan_growing(day: &[u32], budget: u64, plan: &mut [u32], work: &mut [u32]) -> PlanAnswer
    ensures answer { plan_values result ≡ growing_answer day.now budget (length plan.old) (length work.old) }
    ensures buffer { plan.new ≡ growing_buffer day.now budget (length work.old) plan.old }
    ensures numbers { AnswersBy (1 ∷ 2 ∷ 3 ∷ 4 ∷ 5 ∷ 14 ∷ []) (plan_values result) }
    ensures kept { is_given (plan_values result) ≡ false → plan.new ≡ plan.old }
    ensures spare { is_given (plan_values result) ≡ false → work.new ≡ work.old }
{
    planner::plan_growing(day, budget, plan, work)
}

// Bringing in a Solomon instance: 17, 18, then 14. What is written is an accepted day that says what the text says.
pub fn import_solomon(text: &[u8], words: &mut [u32]) -> ImportAnswer
    ensures answer { import_values result ≡ import_answer text.now (length words.old) }
    ensures buffer { words.new ≡ import_buffer text.now words.old }
    ensures numbers { AnswersBy (14 ∷ 17 ∷ 18 ∷ []) (import_values result) }
    ensures kept { is_given (import_values result) ≡ false → words.new ≡ words.old }
    ensures exactly { ImportedBy text.now (import_values result) words.new }
{
    solomon::import_solomon(text, words)
}
