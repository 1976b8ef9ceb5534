//! The frames of a run.
ghost use Rattle.std.specs.Prelude.{◌≡◌, ◌<◌, ◌≤◌, ◌&&◌, [], ◌∷◌, ◌++◌, Some, length, option_map, slice_get, IfOk, OnOk};
ghost use Rattle.std.specs.Option.{option_copied};
ghost use Rattle.proto_model.specs.Handing.{found_from};
ghost use Rattle.rp_frame.specs.Spelling.{spelling};
ghost use Rattle.proto_data.specs.declared.message.Msg.{Msg as MsgValue};
ghost use Rattle.sent_frames.specs.FirstFrames.{AreFirsts, going_at, place_in, right_place};
ghost use Rattle.sent_frames.specs.declared.frames.Sent.{Sent as SentValue};
ghost use Rattle.sent_frames.specs.Frames.{IsFrame, IsSendable, goes_to, message_of};

use crate::first_places::FirstPlaces;
use proto_model::Msg;
use rp_base::{Bytes, NoMemory, Node};
use rp_frame::{FrameEnd, decode, encode};
use std::alloc::Global;
use std::marker::Model;

/// The message that a frame spells.
///
/// # Errors
/// `NoMemory`.
fn read(alloc: Global, frame: &Bytes) -> Result<Msg, NoMemory>
    requires { IsFrame frame.now }
    ensures { IfOk result (λ m. m ≡ message_of frame.now) }
{
    match decode(alloc, frame.as_slice()) {
        Ok(m) => Ok(m),
        Err(FrameEnd::NoMemory) => Err(NoMemory),
        Err(FrameEnd::BadFrame { .. }) => unreachable!(),
    }
}

/// A frame: the bytes that spell its message, and the addressee that stands in them.
#[derive(Drop)]
pub(crate) struct Sent {
    to: Node,
    bytes: Bytes,
}

// The place that is noted for these bytes, where the frame there has them.
fn place_of(firsts: &FirstPlaces, frames: &[Sent], bytes: &[u8]) -> Option<usize>
    ensures { result ≡ right_place bytes.now frames.now (place_in firsts.now bytes.now) }
{
    let place = firsts.get(bytes)?;
    if frames.get(place)?.bytes.as_slice() == bytes {
        Some(place)
    } else {
        None
    }
}

// The place of a frame, where it goes to this node.
fn going(frames: &[Sent], to: Node, place: usize) -> Option<u64>
    ensures { result ≡ going_at to place (slice_get frames.now place) }
{
    if frames.get(place)?.to == to {
        Some(place as u64)
    } else {
        None
    }
}

// The bytes of the frame that comes next are noted, if they are new.
fn note(
    alloc: Global,
    firsts: &mut FirstPlaces,
    frames: &[Sent],
    bytes: &[u8],
) -> Result<(), NoMemory>
    requires { AreFirsts frames.now (place_in firsts.old) }
    ensures kept { AreFirsts frames.now (place_in firsts.new) }
    ensures next { OnOk result ((s : SentValue) → s.bytes ≡ bytes.now → AreFirsts (frames.now ++ s ∷ []) (place_in firsts.new)) }
{
    match place_of(firsts, frames, bytes) {
        Some(_place) => Ok(()),
        None => firsts.put(alloc, bytes, frames.len()),
    }
}

/// The frames that were sent, in order of their numbers. Of each message the bytes are kept, and not the message.
#[derive(Drop)]
pub struct Frames {
    items: Vec<Sent>,
    /// Where the bytes of each frame first stand.
    firsts: FirstPlaces,
    alloc: Global,
}

impl Model for Frames {
    ghost use Rattle.std.specs.Prelude.{List, map};
    ghost use Rattle.std.specs.List.{AllByRecursion};
    ghost use Rattle.proto_data.specs.declared.message.Msg.{Msg as MsgValue};
    ghost use Rattle.sent_frames.specs.FirstFrames.{AreFirsts, place_in};
    ghost use Rattle.sent_frames.specs.SentFrames.{IsSent, sent_message};

    ghost Value = { List MsgValue };

    ghost view = { λ f. map sent_message f.items.items };

    ghost invariant = { λ f. AllByRecursion IsSent f.items.items × AreFirsts f.items.items (place_in f.firsts) };
}

impl Frames {
    /// No frames. Takes no memory.
    pub fn new(alloc: Global) -> Frames
        ensures { result ≡ [] }
    {
        Frames {
            items: Vec::new(alloc),
            firsts: FirstPlaces::new(alloc),
            alloc,
        }
    }

    /// How many frames.
    pub fn len(&self) -> usize
        ensures { result ≡ length self.now }
    {
        self.items.len()
    }

    /// The message that the bytes of the frame with this number spell, if there is one.
    ///
    /// # Errors
    /// `NoMemory`.
    pub fn message(&self, number: usize) -> Result<Option<Msg>, NoMemory>
        ensures { IfOk result (λ m. m ≡ slice_get self.now number) }
    {
        match self.items.get(number) {
            Some(frame) => Ok(Some(read(self.alloc, &frame.bytes)?)),
            None => Ok(None),
        }
    }

    /// The message of the frame with this number, which there is.
    ///
    /// # Errors
    /// `NoMemory`.
    pub fn at(&self, number: usize) -> Result<Msg, NoMemory>
        requires { number < length self.now }
        ensures { IfOk result (λ m. slice_get self.now number ≡ Some m) }
    {
        read(self.alloc, &self.items[number].bytes)
    }

    /// The addressee of the frame with this number.
    pub fn to(&self, number: usize) -> Node
        requires { number < length self.now }
        ensures { option_map (λ (m : MsgValue). m.to) (slice_get self.now number) ≡ Some result }
    {
        self.items[number].to
    }

    /// Whether the frame with this number goes to this node.
    pub fn goes_to(&self, number: usize, to: Node) -> bool
        requires { number < length self.now }
        ensures { result ≡ goes_to to (slice_get self.now number) }
    {
        self.to(number) == to
    }

    /// The bytes of the frame with this number.
    pub fn bytes(&self, number: usize) -> &[u8]
        requires { number < length self.now }
        ensures spelled { option_map spelling (slice_get self.now number) ≡ Some result.now }
        ensures short { length result.now ≤ 3700 }
    {
        self.items[number].bytes.as_slice()
    }

    /// The number of the first frame to this node that has these bytes, if there is one.
    pub fn find(&self, to: Node, bytes: &[u8]) -> Option<u64>
        ensures { result ≡ found_from spelling to bytes.now 0 self.now }
    {
        let place = place_of(&self.firsts, &self.items, bytes)?;
        going(&self.items, to, place)
    }

    /// A message is sent: its frame comes last. Gives the bytes once more, for the frame's line.
    ///
    /// # Errors
    /// `NoMemory`.
    pub fn push(&mut self, m: &Msg) -> Result<Bytes, NoMemory>
        requires { IsSendable m.now }
        ensures frames { OnOk result (self.new ≡ self.old ++ m.now ∷ []) }
        ensures bytes { IfOk result (λ bytes. bytes ≡ spelling m.now) }
    {
        let frame = encode(self.alloc, m)?;
        let shown = frame.copy()?;
        note(self.alloc, &mut self.firsts, &self.items, frame.as_slice())?;
        self.items.push(Sent {
            to: m.to,
            bytes: frame,
        })?;
        Ok(shown)
    }
}
