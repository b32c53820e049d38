// The calls for programs in C and Rust. Each writes the whole of `out`: 0 and the answer's values, or the refusal's number and
// place; what is not named is 0.
#![tactic(auto)]

ghost use Rattle.std.specs.Prelude.{◌≡◌, length};
ghost use Rattle.rules.specs.Answers.{in_six};
ghost use Rattle.rules.specs.DayFile.{judge_day};
ghost use Rattle.rules.specs.Check.{check_plan};
ghost use Rattle.rules.specs.Bytes.{read_answer, read_buffer};
ghost use Rattle.rules.specs.VehiclePlace.{vehicle_place};
ghost use Rattle.rules.specs.SameRounds.{same_rounds};
ghost use Rattle.rules.specs.SolomonDay.{import_answer, import_buffer};
ghost use Rattle.rules.specs.Planned.{build_answer, build_buffer, plan_answer, plan_buffer, growing_answer, growing_buffer, SpareKept};

use answer_numbers::SixNumbers;

#[unsafe(no_mangle)]
pub extern "C" fn kz_read_words(bytes: &[u8], words: &mut [u32], out: &mut [u64; 6])
    ensures answer { out.new ≡ in_six (read_answer bytes.now (length words.old)) }
    ensures buffer { words.new ≡ read_buffer bytes.now words.old }
{
    *out = day_bytes::read_words(bytes, words).six_numbers();
}

#[unsafe(no_mangle)]
pub extern "C" fn kz_judge(day: &[u32], out: &mut [u64; 6])
    ensures { out.new ≡ in_six (judge_day day.now) }
{
    *out = judge::judge(day).six_numbers();
}

#[unsafe(no_mangle)]
pub extern "C" fn kz_check(day: &[u32], plan: &[u32], out: &mut [u64; 6])
    ensures { out.new ≡ in_six (check_plan day.now plan.now) }
{
    *out = checker::check(day, plan).six_numbers();
}

#[unsafe(no_mangle)]
pub extern "C" fn kz_vehicle(day: &[u32], plan: &[u32], number: u64, out: &mut [u64; 6])
    ensures { out.new ≡ in_six (vehicle_place day.now plan.now number) }
{
    *out = plan_queries::vehicle_place(day, plan, number).six_numbers();
}

#[unsafe(no_mangle)]
pub extern "C" fn kz_same_rounds(day: &[u32], first: &[u32], second: &[u32], out: &mut [u64; 6])
    ensures { out.new ≡ in_six (same_rounds day.now first.now second.now) }
{
    *out = plan_queries::same_rounds(day, first, second).six_numbers();
}

#[unsafe(no_mangle)]
pub extern "C" fn kz_build(day: &[u32], plan: &mut [u32], out: &mut [u64; 6])
    ensures answer { out.new ≡ in_six (build_answer day.now (length plan.old)) }
    ensures buffer { plan.new ≡ build_buffer day.now plan.old }
{
    *out = planner::build(day, plan).six_numbers();
}

#[unsafe(no_mangle)]
pub extern "C" fn kz_plan(
    day: &[u32],
    k: u64,
    budget: u64,
    plan: &mut [u32],
    work: &mut [u32],
    out: &mut [u64; 6],
)
    ensures answer { out.new ≡ in_six (plan_answer day.now k budget (length plan.old) (length work.old)) }
    ensures buffer { plan.new ≡ plan_buffer day.now k budget (length work.old) plan.old }
    ensures spare { SpareKept (plan_answer day.now k budget (length plan.old) (length work.old)) work.old work.new }
{
    *out = planner::plan(day, k, budget, plan, work).six_numbers();
}

#[unsafe(no_mangle)]
pub extern "C" fn kz_plan_growing(
    day: &[u32],
    budget: u64,
    plan: &mut [u32],
    work: &mut [u32],
    out: &mut [u64; 6],
)
    ensures answer { out.new ≡ in_six (growing_answer day.now budget (length plan.old) (length work.old)) }
    ensures buffer { plan.new ≡ growing_buffer day.now budget (length work.old) plan.old }
    ensures spare { SpareKept (growing_answer day.now budget (length plan.old) (length work.old)) work.old work.new }
{
    *out = planner::plan_growing(day, budget, plan, work).six_numbers();
}

#[unsafe(no_mangle)]
pub extern "C" fn kz_import_solomon(text: &[u8], words: &mut [u32], out: &mut [u64; 6])
    ensures answer { out.new ≡ in_six (import_answer text.now (length words.old)) }
    ensures buffer { words.new ≡ import_buffer text.now words.old }
{
    *out = solomon::import_solomon(text, words).six_numbers();
}
