//! UDP sockets of this machine as a link: one for each node, opened at its first call.
ghost use Rattle.std.specs.Prelude.{◌≡◌, ◌≢◌, ◌+◌, [], None, Some, Ok, Err, IfOk, IfErr, IsOk, OnOk};
ghost use Rattle.std.specs.IoError.{error_kind};
ghost use Rattle.std.specs.Net.Socket.{socket_ip, socket_port};
ghost use Rattle.host_io.specs.Ports.{node_port, IsHere};

use rp_base::{Bytes, Link, LinkEnd, Node};
use std::alloc::Global;
use std::io;
use std::io::ErrorKind;
use std::net::{IpAddr, Ipv4Addr, Net, SocketAddr, UdpSocket};

// The port of switch 0, behind which the other nodes' are counted.
const FIRST_PORT: u16 = 47000;

// The room for a datagram, in bytes. The longest frame is shorter, so what is cut off was no frame.
const DATAGRAM_ROOM: usize = 4096;

// A socket of a node.
#[derive(Drop)]
struct Endpoint {
    node: Node,
    socket: UdpSocket,
}

/// One socket for each node, on this machine, opened at its first call. A port that can't be had is a fault.
#[derive(Drop)]
pub struct UdpLink<'a, R> {
    rt: &'a R,
    endpoints: Vec<Endpoint>,
    faults: u64,
}

impl<'a, R: Net> UdpLink<'a, R> {
    /// A link without open sockets, before any fault. Takes no memory.
    pub fn new(rt: &'a R, alloc: Global) -> UdpLink<'a, R>
        ensures none { result.endpoints.items ≡ [] }
        ensures faults { result.faults ≡ 0 }
    {
        UdpLink {
            rt,
            endpoints: Vec::new(alloc),
            faults: 0,
        }
    }
}

fn port_of(node: Node) -> u16
    ensures { result ≡ node_port node }
{
    match node {
        Node::Switch(n) => FIRST_PORT + u16::from(n),
        Node::Replica(n) => FIRST_PORT + 16 + u16::from(n),
        Node::Master => FIRST_PORT + 32,
    }
}

fn address_of(node: Node) -> SocketAddr
    ensures here { IsHere (socket_ip result) }
    ensures port { socket_port result ≡ node_port node }
{
    SocketAddr::new(IpAddr::V4(Ipv4Addr::LOCALHOST), port_of(node))
}

fn bound<R: Net>(rt: &R, node: Node) -> io::Result<Endpoint>
    ensures { IfOk result (λ made. made.node ≡ node) }
{
    let socket = UdpSocket::bind(rt, address_of(node))?;
    socket.set_nonblocking(true)?;
    Ok(Endpoint { node, socket })
}

fn endpoint_of<'b, R: Net>(
    rt: &R,
    endpoints: &'b mut Vec<Endpoint>,
    node: Node,
) -> Result<&'b Endpoint, LinkEnd>
    ensures { IfOk result (λ found. found.now.node ≡ node) }
{
    if let Some(i) = endpoints.iter().position(|e| e.node == node) {
        return Ok(&endpoints[i]);
    }
    let Ok(made) = bound(rt, node) else {
        return Err(LinkEnd::Failed);
    };
    if endpoints.push(made).is_err() {
        return Err(LinkEnd::NoMemory);
    }
    Ok(&endpoints[endpoints.len() - 1])
}

// What a send comes to. One that would block counts as sent, since a datagram may be lost.
fn sent(answer: io::Result<usize>) -> Result<(), LinkEnd>
    ensures ok { OnOk answer (IsOk result) }
    ensures would_block { IfErr answer (λ e. error_kind e ≡ ErrorKind.WouldBlock → IsOk result) }
    ensures failed { IfErr answer (λ e. error_kind e ≢ ErrorKind.WouldBlock → result ≡ Err LinkEnd.Failed) }
{
    match answer {
        Ok(_) => Ok(()),
        Err(e) if e.kind() == ErrorKind::WouldBlock => Ok(()),
        Err(_) => Err(LinkEnd::Failed),
    }
}

// What a receive comes to: how many bytes came. Where it would block, nothing was there.
fn received(answer: io::Result<(usize, SocketAddr)>) -> Result<Option<usize>, LinkEnd>
    ensures ok { IfOk answer (λ got. result ≡ Ok (Some got.0)) }
    ensures would_block { IfErr answer (λ e. error_kind e ≡ ErrorKind.WouldBlock → result ≡ Ok None) }
    ensures failed { IfErr answer (λ e. error_kind e ≢ ErrorKind.WouldBlock → result ≡ Err LinkEnd.Failed) }
{
    match answer {
        Ok((count, _)) => Ok(Some(count)),
        Err(e) if e.kind() == ErrorKind::WouldBlock => Ok(None),
        Err(_) => Err(LinkEnd::Failed),
    }
}

// Sends where both sockets are open, so that the addressee's keeps the datagram.
fn send_from<R: Net>(
    rt: &R,
    endpoints: &mut Vec<Endpoint>,
    from: Node,
    to: Node,
    frame: &[u8],
) -> Result<(), LinkEnd> {
    endpoint_of(rt, endpoints, to)?;
    let endpoint = endpoint_of(rt, endpoints, from)?;
    sent(endpoint.socket.send_to(frame, address_of(to)))
}

fn recv_at<R: Net>(
    rt: &R,
    endpoints: &mut Vec<Endpoint>,
    node: Node,
    into: &mut Bytes,
) -> Result<bool, LinkEnd> {
    let mut buf = [0u8; DATAGRAM_ROOM];
    let answer = endpoint_of(rt, endpoints, node)?.socket.recv_from(&mut buf);
    match received(answer)? {
        None => Ok(false),
        Some(count) => match into.append(&buf[..count]) {
            Ok(()) => Ok(true),
            Err(_) => Err(LinkEnd::NoMemory),
        },
    }
}

impl<R: Net> Link for UdpLink<'_, R> {
    ghost sent = { λ _. None };

    ghost received = { λ _. None };

    ghost faults = { λ s. s.faults };

    fn send(&mut self, from: Node, to: Node, frame: &[u8]) -> Result<(), LinkEnd> {
        let sent = send_from(self.rt, &mut self.endpoints, from, to, frame);
        if let Err(LinkEnd::Failed) = sent {
            self.faults = self.faults.saturating_add(1);
        }
        sent
    }

    fn recv(&mut self, node: Node, into: &mut Bytes) -> Result<bool, LinkEnd> {
        into.clear();
        match recv_at(self.rt, &mut self.endpoints, node, into) {
            Ok(true) => Ok(true),
            Ok(false) => {
                into.clear();
                Ok(false)
            }
            Err(end) => {
                into.clear();
                if end == LinkEnd::Failed {
                    self.faults = self.faults.saturating_add(1);
                }
                Err(end)
            }
        }
    }
}
