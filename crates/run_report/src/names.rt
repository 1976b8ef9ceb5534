//! The names of causes and of kinds of frames.
ghost use Rattle.std.specs.Prelude.{◌≡◌, ◌≤◌};
ghost use Rattle.run_report.specs.Names.{drop_name as drop_text, lost_name as lost_text, refusal_name as refusal_text, kind_name as kind_text};

use rp_base::{DropCause, Lost, Refusal};

/// The name of the cause of a drop.
pub fn drop_name(cause: DropCause) -> &'static [u8]
    ensures { result.now ≡ drop_text cause }
{
    match cause {
        DropCause::Full => b"full",
        DropCause::Mirror => b"mirror",
        DropCause::Late => b"late",
        DropCause::Busy => b"busy",
        DropCause::Bound => b"bound",
    }
}

/// The name of the cause of a loss.
pub fn lost_name(cause: Lost) -> &'static [u8]
    ensures { result.now ≡ lost_text cause }
{
    match cause {
        Lost::Stale => b"stale",
        Lost::Role => b"role",
        Lost::Gap => b"gap",
        Lost::Pending => b"pending",
        Lost::Config => b"config",
        Lost::Order => b"order",
    }
}

/// The name of the cause of a refusal.
pub fn refusal_name(cause: Refusal) -> &'static [u8]
    ensures { result.now ≡ refusal_text cause }
{
    match cause {
        Refusal::FramesFull => b"FramesFull",
        Refusal::Nowhere => b"Nowhere",
        Refusal::Dead => b"Dead",
        Refusal::NoFrame => b"NoFrame",
        Refusal::NoneLeft => b"NoneLeft",
        Refusal::Rates => b"Rates",
        Refusal::LastReplica => b"LastReplica",
        Refusal::Alive => b"Alive",
        Refusal::Known => b"Known",
        Refusal::Linked => b"Linked",
        Refusal::NoLink => b"NoLink",
    }
}

/// The name of the kind of a frame, by its byte.
pub fn kind_name(kind: u8) -> &'static [u8]
    requires some { 1 ≤ kind }
    requires fits { kind ≤ 11 }
    ensures { result.now ≡ kind_text kind }
{
    match kind {
        1 => b"Ask",
        2 => b"Grant",
        3 => b"Busy",
        4 => b"Put",
        5 => b"Ack",
        6 => b"Deny",
        7 => b"Forward",
        8 => b"Have",
        9 => b"Echo",
        10 => b"Config",
        _ => b"Snap",
    }
}
