//! A real machine behind the traits of the outside: its command line, files, output, clock and sockets.
//! None of these tells its contents, since no clause knows what a system holds.
#![tactic(auto)]

mod clock;
mod command_line;
mod files;
mod output;
mod sockets;

pub use clock::SystemClock;
pub use command_line::{CommandLine, ProcessCommandLine, words_of};
pub use files::FileInputs;
pub use output::WriterSink;
pub use sockets::UdpLink;

#[cfg(test)]
mod tests;
