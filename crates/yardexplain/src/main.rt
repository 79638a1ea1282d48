// yardexplain: reads lanes from yard.hex and a sheet's lines from standard input, and says in words what came of each.
#![tactic(auto)]

use std::io;

fn main(rt: HostRuntime) -> io::Result<()> {
    explain::program::run(&rt)
}
