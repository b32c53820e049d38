// The words of a day with the numbers of tips and stops that they are judged for.
ghost use Rattle.std.specs.Prelude.{◌≡◌, ◌<◌, length};
ghost use Rattle.rules.specs.DayFile.{places_of};
ghost use Rattle.rules.specs.Fields.{leg_index};
ghost use Rattle.day_faults.specs.Judging.{Whole};

// There are as many words as a day of so many tips and stops has. What word 0 says is left open.
#[derive(Clone, Copy)]
pub struct SizedDay<'a> {
    pub words: &'a [u32],
    pub tips: usize,
    pub stops: usize,
    pub ghost whole: { Whole words.now tips stops },
}

impl<'a> SizedDay<'a> {
    // The depot, the tips and the stops.
    pub(crate) fn places(&self) -> usize
        ensures { result ≡ places_of self.now.tips self.now.stops }
    {
        1 + self.tips + self.stops
    }

    // Where the leg from one place to another stands among the words.
    pub(crate) fn leg_index(&self, from: usize, to: usize) -> usize
        requires { (from < places_of self.now.tips self.now.stops) × (to < places_of self.now.tips self.now.stops) }
        ensures at { result ≡ leg_index self.now.tips self.now.stops from to }
        ensures inside { result < length self.now.words.now }
    {
        7 + 2 * self.tips + 3 * self.stops + from * self.places() + to
    }
}
