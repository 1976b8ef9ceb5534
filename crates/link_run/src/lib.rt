//! A run whose frames go over a link: what goes out.
#![tactic(auto)]

mod answering;
mod carrying;
mod laws;

pub use answering::take_datagram;
pub use carrying::send_frames;
pub use laws::datagrams_are_pumped;
