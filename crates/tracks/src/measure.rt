// A vehicle that a trial touches, walked from its first changed word until what is left is known.
ghost use Rattle.std.specs.Prelude.{◌≡◌, ◌+◌, ◌<◌, ◌≤◌, length};
ghost use Rattle.rules.specs.Fields.{places, IsAccepted};
ghost use Rattle.rules.specs.Plan.{Round};
ghost use Rattle.rules.specs.Edits.{changed};
ghost use Rattle.edits.specs.EditWords.{edit_of, EditKnown};
ghost use Rattle.onward.specs.Behind.{distance_onward};
ghost use Rattle.tracks.specs.Measure.{is_cut, SomeCuttable, CutsAll, Measurable, SomeMeasurable, DrivesAgain};

use crate::before::cab_at;
use crate::plan_tables::Tracks;
use day::days::Day;
use edits::Edit;
use onward::{Onward, ROWS, is_smooth, onward_distance};
use plan_words::VEHICLE;
use spans::Span;
use walks::cabs::Cab;
use walks::vehicle::{come_back, walk_task};

// Whether nothing changes any more from this task on, and the load fits what is left.
fn is_cut(task: usize, last: usize, load: u32, onward: Onward) -> bool
    ensures { result ≡ is_cut task last load onward }
{
    (last < task) & is_smooth(onward, load)
}

// How far the vehicle drives where it drives what is left as it stands.
fn drive_onward(day: &Day, cab: Cab, onward: Onward) -> u32
    requires { (cab.trip.place < places day.now) × (cab.trip.distance < 2147483648) × (onward.next < places day.now) × (onward.distance < 1073741824) }
    ensures { result ≡ cab.trip.distance + distance_onward day.now cab.trip.place onward }
{
    cab.trip.distance + onward_distance(day, onward, cab.trip.place)
}

// The tasks from the first changed one on are walked, until what is left is known.
fn walk_span(
    day: &Day,
    edit: Edit,
    span: Span,
    from: usize,
    tasks: &[u32],
    behind: &[Onward],
    first: Cab,
    part: &mut [u32],
) -> Option<u32>
    requires { IsAccepted day.now × EditKnown day.now edit × (length behind.now ≡ ROWS) × (from + length tasks.now ≤ 1200) × SomeCuttable day.now (edit_of edit) tasks.now part.old from behind.now span.first span.last first }
    ensures { CutsAll day.now (edit_of edit) tasks.now part.old from behind.now span.first span.last first result }
{
    let mut cab = first;
    for task in span.first..tasks.len() {
        let onward = behind[from + task];
        if is_cut(task, span.last, cab.load, onward) {
            return Some(drive_onward(day, cab, onward));
        }
        cab = walk_task(day, edit, task, cab, tasks[task], part)?;
    }
    let back = come_back(day, Some(cab), part)?;
    Some(back.distance)
}

// How far the vehicle drives once it is changed; none where the trial fails.
pub fn measure(
    day: &Day,
    edit: Edit,
    span: Span,
    from: usize,
    tasks: &[u32],
    tracks: &Tracks,
    part: &mut [u32],
) -> Option<u32>
    requires { IsAccepted day.now × EditKnown day.now edit × (from + length tasks.now ≤ 1200) × SomeMeasurable day.now (edit_of edit) tasks.now part.old from tracks.now.before tracks.now.behind span.first span.last }
    ensures { (ts : Round) → Measurable day.now (edit_of edit) tasks.now part.old from tracks.now.before tracks.now.behind span.first span.last ts → DrivesAgain day.now (changed (edit_of edit) 0 ts) result }
{
    let cab = cab_at(&tracks.before, from + span.first)?;
    part[0] = VEHICLE;
    walk_span(day, edit, span, from, tasks, &tracks.behind, cab, part)
}
