//! The rows of a replica, each with what it needs.
ghost use Rattle.std.specs.Prelude.{◌≡◌, IfOk};

use crate::copies::copy_load;
use crate::part::Part;
use proto_model::{Body, Carried, Config, Echoed, Entry};
use rp_base::{Lost, NoMemory, Node};

/// A row with what it needs.
#[derive(Drop)]
pub(crate) enum Row {
    /// The message is lost.
    Loses(Lost),
    /// One message goes to a node, and nothing changes.
    Answers { to: Node, body: Body },
    /// The head asks the tail.
    Echoes { of: Echoed, load: Option<Carried> },
    /// An entry is appended.
    Appends { entry: Entry, load: Option<Carried> },
    /// A chunk of the next round is kept, and the round is appended where it is whole.
    Gathers(Part),
    /// More is known to be committed.
    Commits(u64),
    /// A newer configuration.
    Adopts(Config),
    /// Pending entries go again.
    Resends,
}

impl Row {
    /// An entry is appended, with what rode on the message.
    ///
    /// # Errors
    /// `NoMemory`.
    pub(crate) fn appends(entry: Entry, load: &Option<Carried>) -> Result<Row, NoMemory>
        ensures { IfOk result (λ row. row ≡ Row.Appends entry load.now) }
    {
        let load = copy_load(load)?;
        Ok(Row::Appends { entry, load })
    }
}
