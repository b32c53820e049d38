// What the walk over a plan carries from word to word.

// The plan so far: whether a vehicle is out (a flag, and no Option of its cargo and trip: the definitions of the check carry those
// between vehicles too), how many vehicles, stops served and stops left out there were, the last stop left out
// (0 for none, as in the definitions of the check: no stop has that number), and the distance of the vehicles that are back.
#[derive(Clone, Copy)]
pub struct Tally {
    pub inside: bool,
    pub vehicles: u32,
    pub served: u32,
    pub left: u32,
    pub last: u32,
    pub distance: u32,
}

// What a vehicle carries: its load, the day's kg, the stops it served.
#[derive(Clone, Copy)]
pub struct Cargo {
    pub load: u32,
    pub kg: u32,
    pub visits: u32,
}

// Where and when a vehicle is: the minute from which it is free, the place, whether it rested, and the distance it has driven.
#[derive(Clone, Copy)]
pub struct Trip {
    pub minute: u32,
    pub place: usize,
    pub rested: bool,
    pub distance: u32,
}
