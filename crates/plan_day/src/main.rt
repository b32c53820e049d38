// Prints the plan of day M.
#![tactic(auto)]

use std::io;

fn main(rt: HostRuntime) -> io::Result<()> {
    day_file::print_plan(&rt)
}
