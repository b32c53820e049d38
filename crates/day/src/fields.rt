// What a day is made of: its layout, the windows of its places, visits to them and the legs between them.
ghost use Rattle.std.specs.Prelude.{◌≡◌, ◌&&◌, leb, length};
ghost use Rattle.rules.specs.DayFile.{words_of};
ghost use Rattle.rules.specs.Fields.{tips, stops};
ghost use Rattle.day.specs.Layout.{LayoutOf};

// How many stops, tips and places a day has, and where its legs begin.
#[derive(Clone, Copy)]
pub(crate) struct Layout {
    pub stops: usize,
    pub tips: usize,
    pub places: usize,
    pub legs: usize,
}

#[derive(Clone, Copy)]
pub struct Window {
    pub opening: u32,
    pub closing: u32,
}

impl Window {
    // Whether a minute is within the window, its two ends included.
    pub fn holds(self, minute: u32) -> bool
        ensures { result ≡ (leb self.opening minute && leb minute self.closing) }
    {
        (self.opening <= minute) & (minute <= self.closing)
    }
}

// A visit to a place: the place, its window, and how long it lasts.
#[derive(Clone, Copy)]
pub struct Visit {
    pub place: usize,
    pub hours: Window,
    pub minutes: u32,
}

#[derive(Clone, Copy)]
pub struct Leg {
    pub minutes: u32,
    pub distance: u32,
}

// The layout of a day of the right length: word 0 has d in bits 11-8, n in bits 7-0.
pub(crate) fn layout_of(day: &[u32]) -> Layout
    requires { length day.now ≡ words_of (tips day.now) (stops day.now) }
    ensures { LayoutOf day.now result }
{
    let w = day[0];
    let tips = (w / 0x100 % 0x10) as usize;
    let stops = (w % 0x100) as usize;
    Layout {
        stops,
        tips,
        places: 1 + tips + stops,
        legs: 7 + 2 * tips + 3 * stops,
    }
}
