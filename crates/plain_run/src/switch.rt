//! The switch that never fails, event by event.
ghost use Rattle.std.specs.Prelude.{◌≡◌, ◌<◌, ◌++◌, ◌∷◌, [], false, true, flat_map, IfOk, OnOk, OnErr, IsErr};
ghost use Rattle.rp_app.specs.Application.{zeros};
ghost use Rattle.plain_run.specs.Plain.{begun, end_lines, fed, flow_lines, keyed, plain_step, released, taken};

use crate::app::PlainApp;
use crate::flow::Flow;
use key_table::KeyTable;
use rp_app::Delta;
use rp_base::{Cells, Event, Key, Line, Lines, NoMemory, Output, Packet};
use std::alloc::Global;
use std::marker::Model;

/// A switch that never fails, with its application.
#[derive(Drop)]
pub struct PlainSwitch<A: PlainApp> {
    app: A,
    event: u64,
    flows: KeyTable<Flow>,
    alloc: Global,
}

impl<A: PlainApp> Model for PlainSwitch<A> {
    ghost use Rattle.plain_run.specs.Running.{PlainRun};
    ghost use Rattle.plain_run.specs.Plain.{HaveCells};

    ghost Value = { PlainRun A };

    ghost view = { λ s. record { app = s.app; switch = record { event = s.event; flows = s.flows } } };

    ghost invariant = { λ s. HaveCells (A.meaning s.app).cell_count s.flows };
}

// The packet that an event feeds.
fn packet_of(mark: u64, e: &Event) -> Result<Option<Packet>, NoMemory>
    ensures { IfOk result (λ packet. packet ≡ fed mark e.now) }
{
    match e {
        Event::Feed { port, bytes } => Ok(Some(Packet {
            mark,
            port: *port,
            bytes: bytes.copy()?,
        })),
        Event::FeedAt { at: _, port, bytes } => Ok(Some(Packet {
            mark,
            port: *port,
            bytes: bytes.copy()?,
        })),
        _ => Ok(None),
    }
}

// The line of an output, if there is one.
fn lines_of(alloc: Global, event: u64, out: Option<Output>) -> Result<Lines, NoMemory>
    ensures { IfOk result (λ lines. lines ≡ released event out) }
{
    let mut lines = Lines::new(alloc);
    if let Some(out) = out {
        lines.push(Line::Release {
            event,
            mark: out.mark,
            port: out.port,
            bytes: out.bytes,
        })?;
    }
    Ok(lines)
}

impl<A: PlainApp> PlainSwitch<A> {
    /// The switch before its first event. Takes no memory.
    pub fn new(alloc: Global, app: A) -> PlainSwitch<A>
        ensures { result ≡ record { app = app; switch = begun } }
    {
        PlainSwitch {
            app,
            event: 0,
            flows: KeyTable::new(alloc),
            alloc,
        }
    }

    /// Takes one event, and gives the line of its output, if there is one. Events are numbered from 1, and all but those that feed a
    /// packet are passed over.
    ///
    /// # Errors
    /// `NoMemory`; then nothing is said of the switch.
    pub fn on(&mut self, e: &Event) -> Result<Lines, NoMemory>
        requires count { self.old.switch.event < 1000000000 }
        ensures step { IfOk result (λ lines. (self.new.switch, lines) ≡ plain_step (A.meaning self.old.app) self.old.switch e.now) }
        ensures app { self.new.app ≡ self.old.app }
    {
        self.event += 1;
        match packet_of(self.event, e)? {
            None => Ok(Lines::new(self.alloc)),
            Some(packet) => self.take(&packet),
        }
    }

    // Processes a packet.
    fn take(&mut self, p: &Packet) -> Result<Lines, NoMemory>
        ensures step { IfOk result (λ lines. (self.new.switch, lines) ≡ taken (A.meaning self.old.app) self.old.switch p.now ((A.meaning self.old.app).key_of p.now)) }
        ensures app { self.new.app ≡ self.old.app }
    {
        let out = match self.app.key_of(p)? {
            None => self.output(p)?,
            Some(key) => self.process(key, p)?,
        };
        lines_of(self.alloc, self.event, out)
    }

    // The output of a packet without a key.
    fn output(&self, p: &Packet) -> Result<Option<Output>, NoMemory>
        ensures { IfOk result (λ out. out ≡ ((A.meaning self.now.app).plain (zeros (A.meaning self.now.app).cell_count) p.now).1) }
    {
        let cells = Cells::zeros(self.alloc, self.app.cells())?;
        let mut delta = Delta::new(self.alloc);
        self.app.step(&cells, p, &mut delta)
    }

    // Processes a packet of the flow of this key.
    fn process(&mut self, key: Key, p: &Packet) -> Result<Option<Output>, NoMemory>
        ensures step { IfOk result (λ out. (self.new.switch, out) ≡ keyed (A.meaning self.old.app) self.old.switch p.now key) }
        ensures app { self.new.app ≡ self.old.app }
    {
        if let Some(flow) = self.flows.get_mut(&key) {
            return flow.process(self.alloc, &self.app, p);
        }
        let mut flow = Flow::new(self.alloc, self.app.cells())?;
        let out = flow.process(self.alloc, &self.app, p)?;
        self.flows.put(key, flow)?;
        Ok(out)
    }

    /// The lines at the end: each flow's serial list and cells, in the order of first packets, and the end.
    ///
    /// # Errors
    /// `NoMemory`.
    pub fn closing(&self) -> Result<Lines, NoMemory>
        ensures { IfOk result (λ lines. lines ≡ end_lines self.now.switch) }
    {
        let mut lines = Lines::new(self.alloc);
        push_flows(&mut lines, &self.flows)?;
        lines.push(Line::End)?;
        Ok(lines)
    }
}

// The lines of a flow come behind these.
fn push_flow(lines: &mut Lines, key: &Key, flow: &Flow) -> Result<(), NoMemory>
    ensures { OnOk result (lines.new ≡ lines.old ++ flow_lines (key.now, flow.now)) }
{
    lines.push(Line::Serial {
        key: *key,
        marks: flow.marks.copy()?,
    })?;
    lines.push(Line::Cells {
        key: *key,
        cells: flow.cells.copy()?,
    })
}

// The lines of all flows come behind these.
fn push_flows(lines: &mut Lines, flows: &KeyTable<Flow>) -> Result<(), NoMemory>
    ensures { OnOk result (lines.new ≡ lines.old ++ flat_map flow_lines flows.now) }
{
    for place in 0..flows.len() {
        if let Some((key, flow)) = flows.at(place) {
            push_flow(lines, key, flow)?;
        }
    }
    Ok(())
}
