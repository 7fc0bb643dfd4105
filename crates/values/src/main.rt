// The bench values of document 01, worked out by the compiled code: P1 to P10, the values that are only run, and the worked
// example, step by step. One row a line, its name first.
#![tactic(auto)]

mod example;
mod slots;
mod tables;

use std::io;

fn main(rt: HostRuntime) -> io::Result<()> {
    slots::present(&rt)?;
    tables::rows(&rt)?;
    slots::accesses(&rt)?;
    slots::sizes(&rt)?;
    example::ride(&rt)
}
