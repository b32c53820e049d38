// The vehicles of the greedy plan, one behind the other at the front of the plan's buffer.
ghost use Rattle.std.specs.Prelude.{◌*◌, ◌≤◌, length};
ghost use Rattle.rules.specs.Fields.{stops};
ghost use Rattle.builder.specs.Fleet.{AllWritten};

use day::days::Day;
use marks::Marks;
use vehicle_writer::writer::{Written, write_vehicle};

// The words of all vehicles: the stops still to be routed then, and how many words there are.
pub(crate) fn write_vehicles(day: &Day, plan: &mut [u32]) -> Written
    requires { (stops day.now ≤ 240) × (5 * stops day.now ≤ length plan.old) }
    ensures { AllWritten day.now plan.old plan.new result.left result.words }
{
    let mut left = Marks::all_to(day.stops());
    let mut words = 0;
    let mut number = 0;
    // How many vehicles go out is known only when none does. A `for number in 1..` would end at u32::MAX, which is no end of this loop, and
    // would still need a break.
    while let Some(written) = write_vehicle(day, left, number + 1, &mut plan[words..]) {
        left = written.left;
        words += written.words;
        number += 1;
    }
    Written { left, words }
}
