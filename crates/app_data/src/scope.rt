//! Slots, and what names stand for.

use crate::value::Value;
use rp_base::Bytes;
use sqlite_items::Items;

/// A slot for one value, by its path. A header's path has a slot too, whose bit tells whether the header is valid; as many slots as
/// it has fields follow.
#[derive(Debug, Drop)]
pub struct Slot {
    pub path: Items<Bytes>,
    pub width: u8,
    pub fields: u64,
}

/// A declared type: the slots of one value of it.
#[derive(Debug, Drop)]
pub struct TypeSlots {
    pub name: Bytes,
    pub slots: Items<Slot>,
}

/// A constant.
#[derive(Debug, Drop)]
pub struct Constant {
    pub name: Bytes,
    pub value: Value,
}

/// Cells that are declared together: one, or an array of `size`, numbered from `first` on.
#[derive(Debug, Drop)]
pub struct Register {
    pub name: Bytes,
    pub first: u64,
    pub size: Option<u128>,
    pub width: u8,
}

/// What names stand for. While an action runs, `own` is its name: its parameters and variables have slots of their own, with the
/// action's name in front.
#[derive(Clone, Copy, Debug)]
pub struct Scope<'a> {
    pub types: &'a [TypeSlots],
    pub constants: &'a [Constant],
    pub registers: &'a [Register],
    pub slots: &'a [Slot],
    pub own: Option<&'a Bytes>,
}
