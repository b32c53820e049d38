// The vehicles of the present plan before each of their words, so that a trial starts where it changes something.
ghost use Rattle.std.specs.Prelude.{◌≡◌, ◌+◌, ◌<◌, length, IfSome};
ghost use Rattle.rules.specs.Fields.{IsAccepted};
ghost use Rattle.tracks.specs.Before.{row_of, cab_of, cab_at, RowHolds, RowsKept, SomeVehicleTasks, TaskToWalk, WalksOrPasses, FilledBefore};

use day::days::Day;
use onward::ROWS;
use plan_words::{REST, VEHICLE};
use rules::walk::Trip;
use walks::cabs::Cab;
use walks::vehicle::{fresh_cab, walk_word};

// A vehicle before one of its words. A row is kept small: the place is a u32, and how many words are written is left out.
#[derive(Clone, Copy)]
pub struct Row {
    minute: u32,
    place: u32,
    distance: u32,
    load: u32,
    rested: bool,
}

impl Row {
    // The row of a vehicle.
    fn of(cab: Cab) -> Row
        requires { cab.trip.place < 4294967296 }
        ensures { result ≡ row_of cab }
    {
        Row {
            minute: cab.trip.minute,
            place: cab.trip.place as u32,
            distance: cab.trip.distance,
            load: cab.load,
            rested: cab.trip.rested,
        }
    }

    // The vehicle of a row; it has written its A word.
    fn cab(self) -> Cab
        ensures { result ≡ cab_of self }
    {
        Cab {
            trip: Trip {
                minute: self.minute,
                place: self.place as usize,
                rested: self.rested,
                distance: self.distance,
            },
            load: self.load,
            at: 1,
        }
    }
}

// The row of a vehicle is written, or of one that has failed that there is none.
fn put_cab(before: &mut [Option<Row>], at: usize, cab: Option<Cab>)
    requires { (length before.old ≡ ROWS) × (at < ROWS) × IfSome cab (λ c. c.trip.place < 4294967296) }
    ensures holds { RowHolds before.new at cab }
    ensures others { RowsKept at before.old before.new }
{
    before[at] = cab.map(Row::of);
}

// The vehicle that a row holds; none where it has failed.
pub(crate) fn cab_at(before: &[Option<Row>], at: usize) -> Option<Cab>
    requires { (length before.now ≡ ROWS) × (at < ROWS) }
    ensures { result ≡ cab_at before.now at }
{
    before[at].map(Row::cab)
}

// One task is walked; a rest, which is one word without a number, is passed over.
fn walk_task(day: &Day, cab: Option<Cab>, word: u32, part: &mut [u32]) -> Option<Cab>
    requires { IsAccepted day.now × TaskToWalk day.now part.old cab word }
    ensures { WalksOrPasses day.now part.old cab word part.new result }
{
    if word == REST {
        return cab;
    }
    walk_word(day, cab, word, part)
}

// The rows of the vehicle whose tasks are these words, of which the first stands at a place of the plan. The part is worked in.
pub(crate) fn fill_before(
    day: &Day,
    words: &[u32],
    from: usize,
    before: &mut [Option<Row>],
    part: &mut [u32],
)
    requires { IsAccepted day.now × SomeVehicleTasks day.now words.now part.old × (length before.old ≡ ROWS) × (from + length words.now < ROWS) }
    ensures { FilledBefore day.now words.now from before.old before.new part.old part.new }
{
    part[0] = VEHICLE;
    let mut cab = Some(fresh_cab(day));
    put_cab(before, from, cab);
    for (i, word) in words.iter().enumerate() {
        cab = walk_task(day, cab, *word, part);
        put_cab(before, from + i + 1, cab);
    }
}
