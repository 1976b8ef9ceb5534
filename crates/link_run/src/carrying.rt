//! Frames on their way to a link.
ghost use Rattle.std.specs.Prelude.{◌≡◌, OnOk, OnErr};
ghost use Rattle.rp_base.specs.Outside.{Grows, GrowsByFront, HasCause};
ghost use Rattle.link_run.specs.Datagrams.{datagram_in, datagrams_in};

use rp_base::{Line, Link, LinkEnd};

// The frame of a line goes to the link, if it tells one.
fn send_one<L: Link>(line: &Line, link: &mut L) -> Result<(), LinkEnd>
    ensures ok { OnOk result (Grows (L.sent link.old) (L.sent link.new) (datagram_in line.now)) }
    ensures err { OnErr result (L.sent link.new ≡ L.sent link.old) }
    ensures received { L.received link.new ≡ L.received link.old }
    ensures cause { HasCause (L.faults link.old) (L.faults link.new) result LinkEnd.Failed }
{
    match line {
        Line::Send {
            from,
            to,
            bytes,
            ..
        } => link.send(*from, *to, bytes.as_slice()),
        _ => Ok(()),
    }
}

/// The frames that these lines tell go to the link, each once and in order.
///
/// # Errors
/// Those of the link's `send`; a front of the frames went.
pub fn send_frames<L: Link>(lines: &[Line], link: &mut L) -> Result<(), LinkEnd>
    ensures ok { OnOk result (Grows (L.sent link.old) (L.sent link.new) (datagrams_in lines.now)) }
    ensures err { OnErr result (GrowsByFront (L.sent link.old) (L.sent link.new) (datagrams_in lines.now)) }
    ensures received { L.received link.new ≡ L.received link.old }
    ensures cause { HasCause (L.faults link.old) (L.faults link.new) result LinkEnd.Failed }
{
    for line in lines {
        send_one(line, link)?;
    }
    Ok(())
}
