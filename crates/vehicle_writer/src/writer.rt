// One vehicle's words, written at the front of the part of the plan that is lent.
ghost use Rattle.std.specs.Prelude.{◌≡◌, ◌<◌, length};
ghost use Rattle.rules.specs.Home.{due};
ghost use Rattle.vehicle_writer.specs.Going.{WordPut, RestSaid, StartSaid, TaskAhead, GoesOn, SomeGoing, EndsAll, SomeLeft, WritesOne};

use crate::state::{Ready, do_task, has_task, make_ready, set_out, word_of};
use day::days::Day;
use marks::Marks;
use plan_words::{BACK, REST, vehicle_word};
use rules::walk::Trip;
use trips::drives::leave;
use ways_home::ways::is_due;

// The part of a plan that is lent, and how many of its words are written. Who takes it writes into this same part.
#[derive(Drop)]
struct Words<'a> {
    part: &'a mut [u32],
    count: usize,
}

impl<'a> Words<'a> {
    // One word more.
    fn put(&mut self, word: u32)
        requires { self.old.count < length self.old.part.now }
        ensures same_part { self.new.part.ghost_name ≡ self.old.part.ghost_name }
        ensures put { WordPut self.old.part.now self.old.count word self.new.part.now self.new.count }
    {
        self.part[self.count] = word;
        self.count += 1;
    }
}

// The D word where a rest is due.
fn write_rest(day: &Day, trip: Trip, words: &mut Words)
    requires { words.old.count < length words.old.part.now }
    ensures same_part { words.new.part.ghost_name ≡ words.old.part.ghost_name }
    ensures said { RestSaid (due day.now trip) words.old.part.now words.old.count words.new.part.now words.new.count }
{
    if is_due(day, trip) {
        words.put(REST);
    }
}

// One task more is written and done, and the rest behind it where one is due.
fn write_task(day: &Day, ready: Ready, words: &mut Words) -> Ready
    requires { TaskAhead day.now words.old.part.now words.old.count ready }
    ensures same_part { words.new.part.ghost_name ≡ words.old.part.ghost_name }
    ensures grows { words.old.count < words.new.count }
    ensures goes_on { GoesOn day.now words.old.part.now words.old.count ready words.new.part.now words.new.count result }
{
    words.put(word_of(ready.next));
    let done = do_task(day, ready.state, ready.next);
    write_rest(day, done.trip, words);
    make_ready(day, done)
}

// The tasks of a vehicle that has its first one before it, and its way back; the stops still to be routed then.
fn write_tasks(day: &Day, first: Ready, words: &mut Words) -> Marks
    requires { SomeGoing day.now words.old.part.now words.old.count first }
    ensures same_part { words.new.part.ghost_name ≡ words.old.part.ghost_name }
    ensures ends { EndsAll day.now words.old.part.now words.old.count first words.new.part.now result words.new.count }
{
    let mut ready = first;
    // How many tasks there are is known only at the end: there is no range to go over.
    while has_task(ready) {
        ready = write_task(day, ready, words);
    }
    words.put(BACK);
    ready.state.left
}

// The words of a vehicle before its first task: A, and D where a rest is due.
fn write_start(day: &Day, number: u32, words: &mut Words)
    requires { (number < 256) × (words.old.count ≡ 0) × (1 < length words.old.part.now) }
    ensures same_part { words.new.part.ghost_name ≡ words.old.part.ghost_name }
    ensures said { StartSaid day.now number words.old.part.now words.new.part.now words.new.count }
{
    words.put(vehicle_word(number));
    write_rest(day, leave(day), words);
}

// What the writer of one vehicle hands back: the stops still to be routed, and how many words it wrote.
#[derive(Clone, Copy)]
pub struct Written {
    pub left: Marks,
    pub words: usize,
}

// One vehicle, with the stops still to be routed; none, and nothing is written, where it takes no stop.
pub fn write_vehicle(day: &Day, left: Marks, number: u32, part: &mut [u32]) -> Option<Written>
    requires { (number < 256) × SomeLeft day.now part.old left }
    ensures { WritesOne day.now left number part.old part.new result }
{
    let ready = set_out(day, left);
    if !has_task(ready) {
        return None;
    }
    let mut words = Words { part, count: 0 };
    write_start(day, number, &mut words);
    Some(Written {
        left: write_tasks(day, ready, &mut words),
        words: words.count,
    })
}
