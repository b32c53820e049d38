// The tables of the present plan, by which its trials are listed and measured.
ghost use Rattle.std.specs.Prelude.{◌≡◌, None, length, replicate};
ghost use Rattle.onward.specs.Behind.{homeward};
ghost use Rattle.onward.specs.declared.TheConstants.{ROWS};

use crate::before::Row;
use onward::{Onward, ROWS};

// What its vehicles are before each word, or none where the walk has failed; what is left of them from each word on; and the place of each
// stop.
#[derive(Drop)]
pub struct Tracks {
    pub before: [Option<Row>; ROWS],
    pub behind: [Onward; ROWS],
    pub spots: [u32; 256],
    pub ghost before_size: { length before ≡ ROWS },
    pub ghost behind_size: { length behind ≡ ROWS },
    pub ghost spots_size: { length spots ≡ 256 },
}

// Where each vehicle starts, the vehicle of each stop, how far each vehicle drives, and what its trials are measured by.
#[derive(Drop)]
pub struct Tables {
    pub starts: [u32; 256],
    pub vehicles: [u8; 256],
    pub distances: [u32; 256],
    pub tracks: Tracks,
    pub ghost starts_size: { length starts ≡ 256 },
    pub ghost vehicles_size: { length vehicles ≡ 256 },
    pub ghost distances_size: { length distances ≡ 256 },
}

impl Tables {
    // Room for the tables of a plan: each number is 0, no vehicle is held, and what is left is the way back.
    pub fn new() -> Self
        ensures numbers { (result.starts ≡ replicate 256 0) × (result.vehicles ≡ replicate 256 0) × (result.distances ≡ replicate 256 0) }
        ensures rows { (result.tracks.before ≡ replicate ROWS None) × (result.tracks.behind ≡ replicate ROWS homeward) × (result.tracks.spots ≡ replicate 256 0) }
    {
        Tables {
            starts: [0; 256],
            vehicles: [0; 256],
            distances: [0; 256],
            tracks: Tracks {
                before: [None; ROWS],
                behind: [Onward::default(); ROWS],
                spots: [0; 256],
            },
        }
    }
}

// A plan held: how many words it has, and how far it drives.
#[derive(Clone, Copy)]
pub struct Held {
    pub words: usize,
    pub distance: u32,
}
