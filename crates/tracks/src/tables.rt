// The tables by which a trial is measured, made anew from the present plan.
ghost use Rattle.std.specs.Prelude.{◌≡◌, ◌-◌, ◌<◌, ◌≤◌, length, take, drop};
ghost use Rattle.rules.specs.Fields.{IsAccepted};
ghost use Rattle.tracks.specs.Tables.{SomeTrackable, TracksIn, SomeVehicle, TracksVehicle, spot_after, spots_after};

use crate::before::fill_before;
use crate::plan_tables::Tracks;
use day::days::Day;
use onward::fill_behind;
use plan_words::{PlanWord, read_word};

// The place of a word, where it is a stop's.
fn put_spot(word: u32, at: usize, spots: &mut [u32])
    requires { (length spots.old ≡ 256) × (at < 1200) }
    ensures { spots.new ≡ spot_after word at spots.old }
{
    if let Some(PlanWord::Stop(stop)) = read_word(word) {
        spots[stop] = at as u32;
    }
}

// The places of the stops among the words of one vehicle. They are tested where they are used.
fn fill_spots(plan: &[u32], from: usize, end: usize, spots: &mut [u32])
    requires { (length spots.old ≡ 256) × (end ≤ length plan.now) × (length plan.now ≤ 1200) }
    ensures { spots.new ≡ spots_after (take (end - from) (drop from plan.now)) from spots.old }
{
    for at in from..end {
        put_spot(plan[at], at, spots);
    }
}

// The rows of vehicle v, counted from 0: its tasks stand behind its A word and before its E word.
fn track_vehicle(
    day: &Day,
    plan: &[u32],
    starts: &[u32],
    v: usize,
    tracks: &mut Tracks,
    work: &mut [u32],
)
    requires { IsAccepted day.now × SomeVehicle day.now plan.now starts.now (length work.old) v }
    ensures { TracksVehicle day.now plan.now starts.now (length work.old) v tracks.old tracks.new }
{
    let from = starts[v] as usize + 1;
    let end = starts[v + 1] as usize - 1;
    fill_before(day, &plan[from..end], from, &mut tracks.before, work);
    fill_behind(day, plan, from, end, &mut tracks.behind);
    fill_spots(plan, from, end, &mut tracks.spots);
}

// The tables of the plan, made anew. The working buffer is worked in.
pub fn track(
    day: &Day,
    plan: &[u32],
    starts: &[u32],
    count: usize,
    tracks: &mut Tracks,
    work: &mut [u32],
)
    requires { IsAccepted day.now × SomeTrackable day.now plan.now starts.now (length work.old) count }
    ensures { TracksIn day.now plan.now starts.now (length work.old) count tracks.new }
{
    for v in 0..count {
        track_vehicle(day, plan, starts, v, tracks, work);
    }
}
