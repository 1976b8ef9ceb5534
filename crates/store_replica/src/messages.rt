//! Which row an input meets.
ghost use Rattle.std.specs.Prelude.{◌≡◌, ◌<◌, ◌^◌, true, IfOk};

use crate::copies::{copy_config, copy_entry};
use crate::part::Part;
use crate::row::Row;
use crate::state::ReplicaState;
use proto_model::{Body, Carried, Config, Entry, Input};
use rp_base::{Lost, NoMemory, Node};

impl ReplicaState {
    ghost use Rattle.rp_base.specs.declared.node.Node.{Node as NodeValue};
    ghost use Rattle.proto_data.specs.MessageFits.{is_request};
    ghost use Rattle.proto_model.specs.ReplicaState.{is_head};
    ghost use Rattle.proto_data.specs.declared.message.Body.{Body as BodyValue};
    ghost use Rattle.proto_model.specs.ReplicaRows.{forward_row, store_message_row, store_row};
    ghost use Rattle.store_replica.specs.Rows.{ComesNext, row_of};

    /// Which row an input meets at the clock `now`.
    ///
    /// # Errors
    /// `NoMemory`.
    pub(crate) fn row(&self, now: u64, input: &Input) -> Result<Row, NoMemory>
        requires count { self.now.applied < 2 ^ 63 }
        ensures row { IfOk result (λ row. row_of self.now row ≡ store_row self.now now input.now) }
        ensures next { IfOk result (λ row. ComesNext self.now row) }
    {
        match input {
            Input::Packet(_) => Ok(Row::Loses(Lost::Role)),
            Input::Msg(msg) => self.message_row(now, msg.from, &msg.body),
            Input::Alarm => Ok(Row::Resends),
        }
    }

    // Which row a message meets.
    fn message_row(&self, now: u64, from: Node, body: &Body) -> Result<Row, NoMemory>
        requires count { self.now.applied < 2 ^ 63 }
        ensures row { IfOk result (λ row. row_of self.now row ≡ store_message_row self.now now from body.now) }
        ensures next { IfOk result (λ row. ComesNext self.now row) }
    {
        match body {
            Body::Ask { .. } | Body::Put { .. } | Body::Snap { .. } => {
                if self.is_head() {
                    self.request_row(now, from, body)
                } else {
                    Ok(Row::Loses(Lost::Role))
                }
            }
            Body::Forward {
                config,
                index,
                entry,
                load,
            } => self.forward_row(from, *config, *index, entry, load),
            Body::Echo { of, load } => {
                if self.is_tail() {
                    self.echo_row(of, load)
                } else {
                    Ok(Row::Loses(Lost::Role))
                }
            }
            Body::Have { index } => Ok(self.have_row(*index)),
            Body::Config(config) => self.config_row(config),
            _ => Ok(Row::Loses(Lost::Role)),
        }
    }

    // Which row a switch's request meets at the head.
    fn request_row(&self, now: u64, from: Node, body: &Body) -> Result<Row, NoMemory>
        requires count { self.now.applied < 2 ^ 63 }
        requires head { is_head self.now ≡ true }
        requires request { is_request body.now ≡ true }
        ensures row { IfOk result (λ row. row_of self.now row ≡ store_message_row self.now now from body.now) }
        ensures next { IfOk result (λ row. ComesNext self.now row) }
    {
        match body {
            Body::Ask {
                inc,
                nonce,
                key,
                load,
            } => self.ask_row(now, from, *inc, *nonce, key, load),
            Body::Put {
                inc,
                epoch,
                number,
                key,
                delta,
                load,
            } => {
                if self.leases.has_cells(delta) {
                    self.put_row(from, *inc, *epoch, *number, key, delta, load)
                } else {
                    Ok(Row::Loses(Lost::Stale))
                }
            }
            Body::Snap {
                inc,
                epoch,
                round,
                key,
                chunk,
                chunks,
                cells,
            } => {
                let part = Part {
                    key: *key,
                    epoch: *epoch,
                    round: *round,
                    chunk: *chunk,
                    chunks: *chunks,
                    cells: cells.copy()?,
                };
                if self.has_chunk(&part) {
                    self.snap_row(from, *inc, part)
                } else {
                    Ok(Row::Loses(Lost::Stale))
                }
            }
            _ => unreachable!(),
        }
    }

    // The entry behind the last one of this configuration is taken; what is there already is answered.
    fn forward_row(
        &self,
        from: Node,
        config: u64,
        index: u64,
        entry: &Entry,
        load: &Option<Carried>,
    ) -> Result<Row, NoMemory>
        ensures row { IfOk result (λ row. row_of self.now row ≡ forward_row self.now from config index entry.now load.now) }
        ensures next { IfOk result (λ row. ComesNext self.now row) }
    {
        if config != self.config.number {
            return Ok(Row::Loses(Lost::Config));
        }
        if index <= self.applied {
            let body = Body::Have { index: self.known };
            return Ok(Row::Answers { to: from, body });
        }
        if index - self.applied > 1 {
            return Ok(Row::Loses(Lost::Order));
        }
        if !self.leases.fits(entry) {
            return Ok(Row::Loses(Lost::Stale));
        }
        Row::appends(copy_entry(entry)?, load)
    }

    // More is committed, of what is applied.
    fn have_row(&self, index: u64) -> Row
        ensures row { row_of self.now result ≡ store_message_row self.now 0 NodeValue.Master (BodyValue.Have index) }
        ensures next { ComesNext self.now result }
    {
        if self.known < index && index <= self.applied {
            Row::Commits(index)
        } else {
            Row::Loses(Lost::Stale)
        }
    }

    // A configuration of a greater number.
    fn config_row(&self, config: &Config) -> Result<Row, NoMemory>
        ensures row { IfOk result (λ row. row_of self.now row ≡ store_message_row self.now 0 NodeValue.Master (BodyValue.Config config.now)) }
        ensures next { IfOk result (λ row. ComesNext self.now row) }
    {
        if self.config.number < config.number {
            Ok(Row::Adopts(copy_config(config)?))
        } else {
            Ok(Row::Loses(Lost::Stale))
        }
    }
}
