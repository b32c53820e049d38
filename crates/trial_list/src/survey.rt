// The present plan in tables, so that a trial finds its vehicles without a walk over the plan.
ghost use Rattle.std.specs.Prelude.{◌≡◌, ◌<◌, ◌≤◌, length};
ghost use Rattle.rules.specs.PlanWords.{word_of};
ghost use Rattle.rules.specs.Fields.{places};
ghost use Rattle.trial_list.specs.Survey.{SomePlan, SurveysAll, SomeRound, EndsAll, ride_at, vehicles_with, NamesOf, RideBehind, names_vehicle, is_vehicle};

use day::days::Day;
use plan_words::{PlanWord, read_word};

// Where a vehicle is, and how far it drove.
#[derive(Clone, Copy)]
pub struct Ride {
    pub place: usize,
    pub distance: u32,
}

// A vehicle at its next place.
fn drive_to(day: &Day, ride: Ride, place: usize) -> Ride
    requires { (ride.place < places day.now) × (place < places day.now) × (ride.distance < 2147483648) }
    ensures { result ≡ ride_at day.now ride place }
{
    Ride {
        place,
        distance: ride.distance + day.leg(ride.place, place).distance,
    }
}

// A stop has its vehicle, where it has none yet.
fn mark_stop(vehicles: &mut [u8], number: u8, stop: usize)
    requires { (length vehicles.old ≡ 256) × (stop < 256) }
    ensures { vehicles.new ≡ vehicles_with vehicles.old number stop }
{
    if vehicles[stop] == 0 {
        vehicles[stop] = number;
    }
}

// A vehicle behind the word of one more task, with its stop marked; none once it is back.
fn ride_on(day: &Day, ride: Ride, vehicles: &mut [u8], number: u8, word: u32) -> Option<Ride>
    requires vehicle { (ride.place < places day.now) × (ride.distance < 2147483648) × (length vehicles.old ≡ 256) }
    requires names { NamesOf day.now (word_of word) }
    ensures { RideBehind day.now ride number vehicles.old vehicles.new (word_of word) result }
{
    match read_word(word) {
        Some(PlanWord::Stop(stop)) => {
            mark_stop(vehicles, number, stop);
            Some(drive_to(day, ride, day.tips() + stop))
        }
        Some(PlanWord::Tip(tip)) => Some(drive_to(day, ride, tip)),
        Some(PlanWord::Rest) => Some(ride),
        _ => None,
    }
}

// What one vehicle's words come to: the place behind its E word, and how far it drives.
#[derive(Clone, Copy)]
pub struct Driven {
    pub end: usize,
    pub distance: u32,
}

// The words of one vehicle, from the one behind its A word on.
fn survey_vehicle(day: &Day, plan: &[u32], from: usize, number: u8, vehicles: &mut [u8]) -> Driven
    requires { (length plan.now ≤ 1200) × SomeRound day.now plan.now from × (0 < number) × (length vehicles.old ≡ 256) }
    ensures { EndsAll day.now plan.now from number vehicles.old vehicles.new result }
{
    let mut ride = Ride {
        place: 0,
        distance: 0,
    };
    let mut at = from;
    // One pass marks, drives and counts, and where it ends is known only once its words are read: there is no range to go over.
    while let Some(next) = ride_on(day, ride, vehicles, number, plan[at]) {
        ride = next;
        at += 1;
    }
    let home = day.leg(ride.place, 0);
    Driven {
        end: at + 1,
        distance: ride.distance + home.distance,
    }
}

// Whether a word is an A word.
fn names_vehicle(word: u32) -> bool
    ensures { result ≡ names_vehicle (word_of word) }
{
    matches!(read_word(word), Some(PlanWord::Vehicle(_)))
}

// Whether an A word stands at a place of the plan: its vehicles are before the stops that it leaves out.
fn is_vehicle(plan: &[u32], at: usize) -> bool
    ensures { result ≡ is_vehicle plan.now at }
{
    at < plan.len() && names_vehicle(plan[at])
}

// The tables of a plan, and how many vehicles it has.
pub fn survey(
    day: &Day,
    plan: &[u32],
    starts: &mut [u32],
    vehicles: &mut [u8],
    distances: &mut [u32],
) -> usize
    requires plan { (length plan.now ≤ 1200) × SomePlan day.now plan.now }
    requires tables { (length starts.old ≡ 256) × (length vehicles.old ≡ 256) × (length distances.old ≡ 256) }
    ensures { SurveysAll day.now plan.now starts.new vehicles.new distances.new result }
{
    vehicles.fill(0);
    let mut count: usize = 0;
    let mut at: usize = 0;
    // A vehicle begins where the one before it ends: there is no range to go over.
    while is_vehicle(plan, at) {
        starts[count] = at as u32;
        let driven = survey_vehicle(day, plan, at + 1, (count + 1) as u8, vehicles);
        distances[count] = driven.distance;
        at = driven.end;
        count += 1;
    }
    starts[count] = at as u32;
    count
}
