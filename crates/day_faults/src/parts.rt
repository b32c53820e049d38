// The first word at fault among those before the legs: head, tips, stops.
ghost use Rattle.std.specs.Prelude.{◌≡◌, ◌+◌, ◌*◌, ◌<◌};
ghost use Rattle.rules.specs.DayFile.{lone, window, tips_end, legs_at, words_of, form_at};
ghost use Rattle.day_faults.specs.Kinds.{kind_number};
ghost use Rattle.day_faults.specs.Parts.{PartJudged};

use crate::faults::{Fault, placed};
use crate::sizes::SizedDay;
use crate::words::{Kind, test_number, test_window};

// The lone number at an index.
fn check_number(day: &SizedDay, at: usize, kind: Kind, least: u32, most: u32) -> Result<(), Fault>
    requires inside { at < words_of day.now.tips day.now.stops }
    requires form { form_at day.now.tips day.now.stops at ≡ lone (kind_number kind) least most }
    ensures { PartJudged day.now at (at + 1) result }
{
    placed(test_number(day.words[at], kind, least, most), at)
}

// The window at an index.
fn check_window(day: &SizedDay, at: usize, kind: Kind) -> Result<(), Fault>
    requires inside { at < words_of day.now.tips day.now.stops }
    requires form { form_at day.now.tips day.now.stops at ≡ window (kind_number kind) }
    ensures { PartJudged day.now at (at + 1) result }
{
    placed(test_window(day.words[at], kind), at)
}

// The words 1 to 6: the load in kg, the kg a day, the stops a day, the depot's window, the rest's window, the rest minutes.
#[tactic(auto, unfolding(rules::specs::DayFile::form_at, rules::specs::DayFile::head_form))]
pub fn check_head(day: &SizedDay) -> Result<(), Fault>
    ensures { PartJudged day.now 1 7 result }
{
    check_number(day, 1, Kind::Load, 1, 100_000)?;
    check_number(day, 2, Kind::DayKg, 1, 1_000_000)?;
    check_number(day, 3, Kind::Stops, 1, 240)?;
    check_window(day, 4, Kind::Window)?;
    check_window(day, 5, Kind::Rest)?;
    check_number(day, 6, Kind::Minutes, 0, 240)
}

// The two words of every tip: its window, its service minutes.
pub fn check_tips(day: &SizedDay) -> Result<(), Fault>
    ensures { PartJudged day.now 7 (tips_end day.now.tips) result }
{
    for tip in 0..day.tips {
        let at = 7 + 2 * tip;
        check_window(day, at, Kind::Window)?;
        check_number(day, at + 1, Kind::Minutes, 0, 240)?;
    }
    Ok(())
}

// The three words of every stop: its window, its service minutes, its kg.
pub fn check_stops(day: &SizedDay) -> Result<(), Fault>
    ensures { PartJudged day.now (tips_end day.now.tips) (legs_at day.now.tips day.now.stops) result }
{
    for stop in 0..day.stops {
        let at = 7 + 2 * day.tips + 3 * stop;
        check_window(day, at, Kind::Window)?;
        check_number(day, at + 1, Kind::Minutes, 0, 240)?;
        check_number(day, at + 2, Kind::Quantity, 0, 100_000)?;
    }
    Ok(())
}
