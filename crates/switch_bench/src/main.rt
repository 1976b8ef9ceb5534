//! Reads lines such as `32 100000` or `32 100000 512`, a number of flows, one of packets and one of Puts that wait for their Acks.
//!
//! It prints of each line how many outputs a switch released, and is there to be timed, by bench/packets.py.
#![tactic(auto)]

mod late;
mod packets;
mod rig;
mod wide;

use std::io;

fn main(rt: HostRuntime) -> io::Result<()> {
    for line in rt.lines(rt.alloc()) {
        let text = packets::told(rt.alloc(), line?.as_str())?;
        println!(rt; "{text}")?;
    }
    Ok(())
}
