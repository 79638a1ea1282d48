// yardjudge: reads lanes from yard.hex and a sheet's lines from standard input, and prints one reply a line.
#![tactic(auto)]

use std::io;

fn main(rt: HostRuntime) -> io::Result<()> {
    console::judge_lines::run(&rt)
}
