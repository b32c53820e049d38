// The words of the stops that no vehicle routes, and the zeros behind a plan.
ghost use Rattle.std.specs.Prelude.{◌≡◌, ◌++◌, ◌+◌, ◌-◌, ◌≤◌, length, take, drop, replicate};
ghost use Rattle.laws.specs.Marks.{ones_of};
ghost use Rattle.builder.specs.Lefts.{LeavesAll};

use marks::Marks;
use plan_words::left_word;

// The F words of the stops still to be routed, rising, at the front of the part; how many words there are.
pub(crate) fn write_lefts(left: Marks, part: &mut [u32]) -> usize
    requires { ones_of left.words ≤ length part.old }
    ensures count { result ≤ ones_of left.words }
    ensures text { LeavesAll part.old left part.new result }
{
    let mut others = left;
    let mut at = 0;
    // An `impl Iterator for Marks` would need `lowest` and `unmark` as its `next`, with a ghost list of what is left and its laws, for this one
    // loop: the two loops of `next_task` go over one word, for speed, and `fleet` lets a whole vehicle take its stops.
    while let Some(stop) = others.lowest() {
        part[at] = left_word(stop);
        others = others.unmark(stop);
        at += 1;
    }
    at
}

// Zeros from place `from` up to place `to`. It takes the whole buffer, of which its contract speaks as both callers hand it on. With `fill`
// in the callers each would need a law of its own, from the part that was lent to the whole: tried, and no plainer.
pub fn fill_zeros(part: &mut [u32], from: usize, to: usize)
    requires { (from ≤ to) × (to ≤ length part.old) }
    ensures { part.new ≡ take from part.old ++ replicate (to - from) 0 ++ drop to part.old }
{
    part[from..to].fill(0);
}
