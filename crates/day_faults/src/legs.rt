// The first leg at fault. A row is looked at as a whole, and word by word only where that finds something.
ghost use Rattle.std.specs.Prelude.{◌≡◌, ◌+◌, ◌<◌, true, length};
ghost use Rattle.rules.specs.DayFile.{places_of, legs_at};
ghost use Rattle.day_faults.specs.Judging.{row_at};
ghost use Rattle.day_faults.specs.Parts.{PartJudged};
ghost use Rattle.day_faults.specs.Rows.{InRange, RowRight};

use crate::faults::{Fault, placed};
use crate::sizes::SizedDay;
use crate::words::test_leg;

// Whether each word is a leg of at most 1,440 minutes. Such legs are one range of words: kind 9 in bits 31-28, minutes 0 to 0x5A0 in
// bits 27-16, any distance in bits 15-0. The fold has no way out but its end, so that several words are compared at once.
fn all_legs(row: &[u32]) -> bool
    ensures { result ≡ true → InRange row.now }
{
    row.iter().fold(true, |right, word| {
        right & (0x9000_0000..=0x95A0_FFFF).contains(word)
    })
}

// Whether a row is right at a glance: every word in range, and nothing to drive from the place to itself.
fn row_right(row: &[u32], own: usize) -> bool
    requires { own < length row.now }
    ensures { result ≡ true → RowRight row.now own }
{
    all_legs(row) && row[own] == 0x9000_0000
}

// The leg from one place to another, or to itself.
fn check_leg(day: &SizedDay, from: usize, to: usize) -> Result<(), Fault>
    requires { (from < places_of day.now.tips day.now.stops) × (to < places_of day.now.tips day.now.stops) }
    ensures { PartJudged day.now (row_at day.now.tips day.now.stops from + to) (row_at day.now.tips day.now.stops from + to + 1) result }
{
    let at = day.leg_index(from, to);
    placed(test_leg(day.words[at], from == to), at)
}

// The legs from a place, word by word.
fn check_row(day: &SizedDay, from: usize) -> Result<(), Fault>
    requires { from < places_of day.now.tips day.now.stops }
    ensures { PartJudged day.now (row_at day.now.tips day.now.stops from) (row_at day.now.tips day.now.stops (from + 1)) result }
{
    for to in 0..day.places() {
        check_leg(day, from, to)?;
    }
    Ok(())
}

// The legs from every place. In line: called, it makes a day of two stops a tenth slower to judge.
#[inline(always)]
pub fn check_legs(day: &SizedDay) -> Result<(), Fault>
    ensures { PartJudged day.now (legs_at day.now.tips day.now.stops) (length day.now.words.now) result }
{
    let places = day.places();
    for from in 0..places {
        let start = day.leg_index(from, 0);
        let end = start + places;
        if !row_right(&day.words[start..end], from) {
            check_row(day, from)?;
        }
    }
    Ok(())
}
