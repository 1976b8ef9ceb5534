//! How far a packet is.

use crate::value::Value;
use rp_app::Delta;
use rp_base::{Cells, Key};
use sqlite_items::Items;

/// A packet's run so far: the values of all slots, the cells of its flow, those of them that were written, and the flow's key, if
/// there is one.
#[derive(Debug, Drop)]
pub struct Run {
    pub values: Items<Value>,
    pub cells: Cells,
    pub delta: Delta,
    pub key: Option<Key>,
}
