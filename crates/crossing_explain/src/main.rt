// yardexplain, run on the example of the crossing: a crate of its own, as the gate runs a program on the input beside
// it.
#![tactic(auto)]

use std::io;

fn main(rt: HostRuntime) -> io::Result<()> {
    explain::program::run(&rt)
}
