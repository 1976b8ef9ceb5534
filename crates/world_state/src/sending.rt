//! Messages on their way: their frames and their lines.
ghost use Rattle.std.specs.Prelude.{◌≡◌, [], ◌∷◌, ◌++◌, length, OnOk};
ghost use Rattle.std.specs.List.{AllByRecursion};
ghost use Rattle.proto_model.specs.Lines.{send_line, send_lines};
ghost use Rattle.run_history.specs.Shown.{line_of, shown};
ghost use Rattle.sent_frames.specs.Frames.{IsSendable};

use proto_model::Msg;
use rp_base::{Line, Lines, NoMemory};
use rp_frame::kind_of;
use sent_frames::Frames;

/// A message is sent: its frame and its line come last.
fn send_one(lines: &mut Lines, event: u64, frames: &mut Frames, m: &Msg) -> Result<(), NoMemory>
    requires { IsSendable m.now }
    ensures frames { OnOk result (frames.new ≡ frames.old ++ m.now ∷ []) }
    ensures lines { OnOk result (lines.new ≡ lines.old ++ line_of (send_line event (length frames.old) m.now) ∷ []) }
{
    let frame = frames.len() as u64;
    let bytes = frames.push(m)?;
    lines.push(Line::Send {
        event,
        frame,
        from: m.from,
        to: m.to,
        kind: kind_of(&m.body),
        bytes,
    })
}

/// Messages are sent, in order.
///
/// # Errors
/// `NoMemory`.
pub(crate) fn send(
    lines: &mut Lines,
    event: u64,
    frames: &mut Frames,
    sent: &[Msg],
) -> Result<(), NoMemory>
    requires { AllByRecursion IsSendable sent.now }
    ensures frames { OnOk result (frames.new ≡ frames.old ++ sent.now) }
    ensures lines { OnOk result (lines.new ≡ lines.old ++ shown (send_lines event (length frames.old) sent.now)) }
{
    for m in sent {
        send_one(lines, event, frames, m)?;
    }
    Ok(())
}
