// Day M and zeros behind it, one byte more than is read.
#![tactic(auto)]

use std::io;

fn main(rt: HostRuntime) -> io::Result<()> {
    day_file::print_plan(&rt)
}
