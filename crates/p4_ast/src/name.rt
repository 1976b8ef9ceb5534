//! Names, numbers, paths and slices.

use rp_base::Bytes;
use sqlite_items::Items;

/// A name.
#[derive(Debug, Drop)]
pub struct P4Name {
    pub at: u64,
    pub text: Bytes,
}

/// A number: its value, and its width of 1 to 128 bits where one is written.
#[derive(Clone, Copy, Debug)]
pub struct P4Number {
    pub at: u64,
    pub value: u128,
    pub width: Option<u8>,
}

/// `path`: names with dots between them, at least one.
#[derive(Debug, Drop)]
pub struct P4Path {
    pub at: u64,
    pub names: Items<P4Name>,
}

/// `slice`: the highest and the lowest bit.
#[derive(Clone, Copy, Debug)]
pub struct P4Slice {
    pub at: u64,
    pub high: P4Number,
    pub low: P4Number,
}

/// `left`: what a statement gives a value to.
#[derive(Debug, Drop)]
pub struct P4Left {
    pub at: u64,
    pub path: P4Path,
    pub slice: Option<P4Slice>,
}
