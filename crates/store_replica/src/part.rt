//! A chunk of a flow's round, as a message brings it.

use proto_model::Chunk;
use rp_base::Key;

/// A chunk of a round of a flow, with its place among the chunks of the round, counted from 0.
#[derive(Drop)]
pub(crate) struct Part {
    pub(crate) key: Key,
    pub(crate) epoch: u64,
    pub(crate) round: u64,
    pub(crate) chunk: u8,
    pub(crate) chunks: u8,
    pub(crate) cells: Chunk,
}
