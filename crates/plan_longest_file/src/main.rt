// Day M and zeros behind it, 65,536 bytes: read whole, and refused for its length.
#![tactic(auto)]

use std::io;

fn main(rt: HostRuntime) -> io::Result<()> {
    day_file::print_plan(&rt)
}
