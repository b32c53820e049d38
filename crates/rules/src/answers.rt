// What the calls answer. Each refusal has its number and its place. By a rule of the project an answer is one enum with its refusal, and no
// Result, and a definition gives each case's number and values.

// The answer on a day: how many stops and tips it has, or the refusal's number and place.
#[derive(Clone, Copy)]
pub enum DayAnswer {
    Accepted { stops: u32, tips: u32 },
    Refused { number: u32, place: usize },
}

// The answer to byte reading: how many words were written, or the refusal's number and place.
#[derive(Clone, Copy)]
pub enum WordsAnswer {
    Read { words: usize },
    Refused { number: u32, place: usize },
}

// The answer to an import: how many words were written, or the refusal's number and place.
#[derive(Clone, Copy)]
pub enum ImportAnswer {
    Read { words: usize },
    Refused { number: u32, place: usize },
}

// The answer on a plan: its distance, vehicles and stops served, or the refusal's number and place.
#[derive(Clone, Copy)]
pub enum Answer {
    Lawful {
        distance: u32,
        vehicles: u32,
        served: u32,
    },
    Refused {
        number: u32,
        place: usize,
    },
}

// The answer on two plans: the same rounds or not, or the refusal's number and place.
#[derive(Clone, Copy)]
pub enum RoundsAnswer {
    Same,
    Different,
    Refused { number: u32, place: usize },
}

// The answer on one vehicle: where its words start and how many they are, or the refusal's number and place.
#[derive(Clone, Copy)]
pub enum PlaceAnswer {
    Found { start: usize, length: usize },
    Refused { number: u32, place: usize },
}

// The answer on a plan that was made: its distance, the trials, whether it is settled, how many stops it leaves out and how many words it
// has, or the refusal's number and place.
#[derive(Clone, Copy)]
pub enum PlanAnswer {
    Planned {
        distance: u32,
        trials: u64,
        settled: bool,
        left_out: usize,
        words: usize,
    },
    Refused {
        number: u32,
        place: usize,
    },
}
