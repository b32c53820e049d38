// No day file: it counts as empty.
#![tactic(auto)]

use std::io;

fn main(rt: HostRuntime) -> io::Result<()> {
    day_file::print_plan(&rt)
}
