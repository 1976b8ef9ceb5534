//! Copies of what goes out and of what is kept.
ghost use Rattle.std.specs.Prelude.{◌≡◌, IfOk};

use proto_model::{Carried, Config, Entry};
use rp_base::NoMemory;

/// An equal packet or output that rides on a message.
///
/// # Errors
/// `NoMemory`.
pub(crate) fn copy_load(load: &Option<Carried>) -> Result<Option<Carried>, NoMemory>
    ensures { IfOk result (λ copied. copied ≡ load.now) }
{
    match load {
        Some(carried) => Ok(Some(carried.copy()?)),
        None => Ok(None),
    }
}

/// An equal entry.
///
/// # Errors
/// `NoMemory`.
pub(crate) fn copy_entry(entry: &Entry) -> Result<Entry, NoMemory>
    ensures { IfOk result (λ copied. copied ≡ entry.now) }
{
    match entry {
        Entry::Grant {
            key,
            epoch,
            switch,
            inc,
            nonce,
        } => Ok(Entry::Grant {
            key: *key,
            epoch: *epoch,
            switch: *switch,
            inc: *inc,
            nonce: *nonce,
        }),
        Entry::Put {
            key,
            epoch,
            number,
            delta,
        } => Ok(Entry::Put {
            key: *key,
            epoch: *epoch,
            number: *number,
            delta: delta.copy()?,
        }),
        Entry::Snap {
            key,
            epoch,
            round,
            cells,
        } => Ok(Entry::Snap {
            key: *key,
            epoch: *epoch,
            round: *round,
            cells: cells.copy()?,
        }),
    }
}

/// An equal configuration.
///
/// # Errors
/// `NoMemory`.
pub(crate) fn copy_config(config: &Config) -> Result<Config, NoMemory>
    ensures { IfOk result (λ copied. copied ≡ config.now) }
{
    Ok(Config {
        number: config.number,
        chain: config.chain.copy()?,
    })
}
