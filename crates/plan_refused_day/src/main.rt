// Day M with stop 2 closing before it opens: word 12 is refused.
#![tactic(auto)]

use std::io;

fn main(rt: HostRuntime) -> io::Result<()> {
    day_file::print_plan(&rt)
}
