// Why a word, a field or a whole call is refused. Each fault has the number of its refusal.

// Of a word of a day: its kind or its zero bits, or its value.
#[derive(Clone, Copy, PartialEq, Eq, Debug)]
pub enum DayFault {
    Form = 2,
    Range = 5,
}

// Of a word of a plan: the form of plans, a stop met again or missing, a limit passed, back with a load, too late, or the rest.
#[derive(Clone, Copy, PartialEq, Eq, Debug)]
pub enum PlanFault {
    Form = 7,
    Stop = 8,
    Limit = 9,
    Load = 10,
    Late = 11,
    Rest = 12,
}

// Of a whole call: a day with no whole head, its sizes, its length, a plan too long, K, a lent buffer too short, or a vehicle that isn't there.
#[derive(Clone, Copy, PartialEq, Eq, Debug)]
pub enum CallFault {
    Short = 1,
    Sizes = 3,
    Length = 4,
    Plan = 6,
    Neighbours = 13,
    Room = 14,
    Vehicle = 15,
}

// Of a field of a text: its form, or its value.
#[derive(Clone, Copy, PartialEq, Eq, Debug)]
pub enum TextFault {
    Form = 17,
    Range = 18,
}
