// The nearest open tip is found in one pass: a small client looks at the first m tips, and promises what is carried along then.
ghost use Rattle.std.specs.Prelude.{◌<◌, ◌≤◌};
ghost use Rattle.rules.specs.Fields.{tips, places, IsAccepted};
ghost use Rattle.promises.specs.Carried.{CarriedAfter};

use day::days::Day;
use ways_home::best::Best;
use ways_home::nearest::nearest_of_first;

// The tip and its minutes after the first m tips, by the function that the nearest tip is found by.
pub fn tip_after(day: &[u32], place: usize, minute: u32, m: usize) -> Best
    requires { IsAccepted day.now × (place < places day.now) × (minute < 268435456) × (m ≤ tips day.now) }
    ensures { CarriedAfter day.now place minute m result.number result.key }
{
    nearest_of_first(&Day::new(day), place, minute, m)
}
