//! How much of each thing a run has room for.

/// The most flows of which a switch has a slot.
pub const SLOTS: usize = 1024;

/// The most copies of unacknowledged updates that a switch keeps.
pub const COPIES: usize = 1024;

/// The marks that a ring of remembered marks has room for.
pub const MARKS: usize = 64;

/// The most messages that a node sends in one step.
pub const MESSAGES: usize = 64;

/// The most entries that a replica keeps until they are known to be committed.
pub const PENDING: usize = 256;

/// The most flows of which a replica has a record.
pub const RECORDS: usize = 65_536;

/// The most frames of a run.
pub const FRAMES: usize = 65_536;

/// The most switches of a run.
pub const SWITCHES: u8 = 8;

/// The most replicas of a run, and the most members of a chain.
pub const REPLICAS: u8 = 5;
