//! Parts of tables behind their checks: the first fault of each, what is known of it, and it with the widths of its literals.

use p4_ast::{P4Default, P4Entries, P4Key, P4Keyset, P4Match, P4One};
use p4_scope::Named;
use p4_typing::Form;
use rp_base::{Bytes, Refused};
use sqlite_items::{Boxed, Items};

/// A key of a table or a value of a `select`: how it is matched, and what it gives.
#[derive(Clone, Copy, Debug)]
pub struct Key {
    pub matching: P4Match,
    pub form: Form,
}

/// A value under its mask, and the mask.
#[derive(Clone, Copy, Debug, PartialEq, Eq)]
pub struct Masked {
    pub value: u128,
    pub mask: u128,
}

/// A member of a keyset. What it matches isn't known where it has a fault.
#[derive(Drop)]
pub struct Member {
    pub fault: Option<Refused>,
    pub masked: Option<Masked>,
    pub one: Boxed<P4One>,
}

/// The members of a keyset, and what they match where it is known.
#[derive(Drop)]
pub struct Members {
    pub fault: Option<Refused>,
    pub known: bool,
    pub row: Bytes,
    pub ones: Items<P4One>,
}

/// A keyset, and what it matches where it is known.
#[derive(Drop)]
pub struct Matched {
    pub fault: Option<Refused>,
    pub known: bool,
    pub row: Bytes,
    pub keyset: Boxed<P4Keyset>,
}

/// The keys of a table.
#[derive(Drop)]
pub struct Keyed {
    pub fault: Option<Refused>,
    pub forms: Items<Key>,
    pub keys: Items<P4Key>,
}

/// The listed actions of a table: their names with the place of each, and the numbers of those that are declared in the program.
#[derive(Drop)]
pub struct Listed {
    pub fault: Option<Refused>,
    pub names: Named<u64>,
    pub numbers: Items<u64>,
}

/// The parts of a table.
#[derive(Drop)]
pub struct Parts {
    pub fault: Option<Refused>,
    pub actions: Items<u64>,
    pub keys: Items<P4Key>,
    pub default: Option<P4Default>,
    pub entries: Option<P4Entries>,
}
