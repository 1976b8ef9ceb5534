//! Reads lines such as `1000 100000`, a number of flows and one of Puts, and prints of each how many Puts a replica applied.
//!
//! It is there to be timed, by bench/puts.py.
#![tactic(auto)]

mod puts;

use std::io;

fn main(rt: HostRuntime) -> io::Result<()> {
    for line in rt.lines(rt.alloc()) {
        let text = puts::told(rt.alloc(), line?.as_str())?;
        println!(rt; "{text}")?;
    }
    Ok(())
}
