//! Why a text has no tree.

use rp_base::Refused;

/// Why a text has no tree.
#[derive(Clone, Copy, Debug, PartialEq, Eq)]
pub enum ParseEnd {
    /// The first fault, with its place.
    Refused(Refused),
    NoMemory,
}
