//! What the tail answers to an Echo.
ghost use Rattle.std.specs.Prelude.{◌≡◌, IfOk};
ghost use Rattle.proto_data.specs.declared.message.Echoed.{Echoed as EchoedValue};

use crate::copies::copy_load;
use crate::row::Row;
use crate::state::ReplicaState;
use proto_model::{Body, Carried, Echoed};
use rp_base::{Key, Lost, NoMemory, Node};

impl ReplicaState {
    ghost use Rattle.proto_model.specs.ReplicaRows.{Echoes, covered, echo_row};
    ghost use Rattle.store_replica.specs.Rows.{ComesNext, row_of};

    /// The head asks the tail; where it is itself the tail, it answers as on that Echo.
    ///
    /// # Errors
    /// `NoMemory`.
    pub(crate) fn echo(&self, of: Echoed, load: &Option<Carried>) -> Result<Row, NoMemory>
        ensures row { IfOk result (λ row. row_of self.now row ≡ covered self.now (Echoes of load.now)) }
        ensures next { IfOk result (λ row. ComesNext self.now row) }
    {
        if self.is_tail() {
            self.echo_row(&of, load)
        } else {
            let load = copy_load(load)?;
            Ok(Row::Echoes { of, load })
        }
    }

    /// The row of an Echo at the tail.
    ///
    /// # Errors
    /// `NoMemory`.
    pub(crate) fn echo_row(&self, of: &Echoed, load: &Option<Carried>) -> Result<Row, NoMemory>
        ensures row { IfOk result (λ row. row_of self.now row ≡ echo_row self.now of.now load.now) }
        ensures next { IfOk result (λ row. ComesNext self.now row) }
    {
        match of {
            Echoed::Ask {
                switch,
                inc,
                nonce,
                key,
            } => self.grant_again(*switch, *inc, *nonce, key, load),
            Echoed::Put {
                switch,
                epoch,
                number,
                key,
            } => self.ack_again(*switch, *epoch, *number, key, load),
        }
    }

    // The flow still is the switch's by this Ask.
    fn grant_again(
        &self,
        switch: u8,
        inc: u64,
        nonce: u64,
        key: &Key,
        load: &Option<Carried>,
    ) -> Result<Row, NoMemory>
        ensures row { IfOk result (λ row. row_of self.now row ≡ echo_row self.now (EchoedValue.Ask switch inc nonce key.now) load.now) }
        ensures next { IfOk result (λ row. ComesNext self.now row) }
    {
        match self.leases.get(key) {
            Some(record) if record.switch == switch && record.inc == inc && record.nonce == nonce =>
                {
                    let body = Body::Grant {
                        inc,
                        nonce,
                        epoch: record.epoch,
                        key: *key,
                        cells: record.cells.copy()?,
                        load: copy_load(load)?,
                    };
                    Ok(Row::Answers {
                        to: Node::Switch(switch),
                        body,
                    })
                }
            _ => Ok(Row::Loses(Lost::Stale)),
        }
    }

    // The Put or round of this number was applied in the present epoch.
    fn ack_again(
        &self,
        switch: u8,
        epoch: u64,
        number: u64,
        key: &Key,
        load: &Option<Carried>,
    ) -> Result<Row, NoMemory>
        ensures row { IfOk result (λ row. row_of self.now row ≡ echo_row self.now (EchoedValue.Put switch epoch number key.now) load.now) }
        ensures next { IfOk result (λ row. ComesNext self.now row) }
    {
        match self.leases.get(key) {
            Some(record)
                if record.switch == switch && record.epoch == epoch && number <= record.last => {
                let body = Body::Ack {
                    inc: record.inc,
                    epoch,
                    upto: record.last,
                    key: *key,
                    load: copy_load(load)?,
                };
                Ok(Row::Answers {
                    to: Node::Switch(switch),
                    body,
                })
            }
            _ => Ok(Row::Loses(Lost::Stale)),
        }
    }
}
