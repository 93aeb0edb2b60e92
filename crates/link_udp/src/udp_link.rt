//! Frames as datagrams of 127.0.0.1.
ghost use Rattle.std.specs.Prelude.{◌≡◌, ◌≤◌, None, length, IfOk, IfErr, IfSome, OnOk, IsErrOf};
ghost use Rattle.tcs_io.specs.Faults.{last_u64, one_more};
ghost use Rattle.tcs_link.specs.Told.{IsWithin};
ghost use Rattle.link_udp.specs.Senders.{node_at};

use std::alloc::Global;
use std::io::ErrorKind;
use std::marker::Model;
use std::net::{Ipv4Addr, Net, UdpSocket};
use tcs_link::{Link, LinkStop, Polled};
use tcs_terms::NodeId;
use tcs_terms::limits::MAX_NODES;

/// A sender whose port is not that of a node.
const STRANGER: NodeId = 255;

#[derive(Drop)]
struct Socket {
    name: NodeId,
    socket: UdpSocket,
}

/// Sends and takes datagrams on 127.0.0.1, each name at the attached port plus the name, without waiting. The sender of
/// a datagram is told by its port. Each error is counted, in 64 bits and up to the last value; the frames are not told.
#[derive(Drop)]
pub struct UdpLink<'a, R: Net> {
    net: &'a R,
    port: u16,
    sockets: Vec<Socket>,
    faults: u64,
    failed_sends: u64,
}

impl<'a, R: Net> Model for UdpLink<'a, R> {
    ghost use Rattle.link_udp.specs.Counts.{Counts};

    ghost Value = { Counts };

    ghost view = { λ l. record { faults = l.faults; failed_sends = l.failed_sends } };
}

impl<'a, R: Net> UdpLink<'a, R> {
    /// A link to which no name is attached.
    pub fn new(alloc: Global, net: &'a R) -> Self
        ensures { result ≡ record { faults = 0; failed_sends = 0 } }
    {
        UdpLink {
            net,
            port: 0,
            sockets: Vec::new(alloc),
            faults: 0,
            failed_sends: 0,
        }
    }
}

/// A socket at the port of a name, where one can be had.
fn bind<R: Net>(net: &R, port: u16, name: NodeId) -> Option<UdpSocket> {
    let port = port.checked_add(u16::from(name))?;
    let socket = UdpSocket::bind(net, (Ipv4Addr::LOCALHOST, port)).ok()?;
    socket.set_nonblocking(true).ok()?;
    Some(socket)
}

/// The sockets of these names.
fn bind_all<R: Net>(
    alloc: Global,
    net: &R,
    names: &[NodeId],
    port: u16,
) -> Result<Vec<Socket>, LinkStop> {
    let mut sockets = Vec::new(alloc);
    for name in names {
        let socket = bind(net, port, *name).ok_or(LinkStop::Failed)?;
        sockets.reserve(1)?;
        sockets.push_reserved(Socket {
            name: *name,
            socket,
        });
    }
    Ok(sockets)
}

fn socket_of(sockets: &[Socket], name: NodeId) -> Option<&UdpSocket> {
    let bound = sockets.iter().find(|bound| bound.name == name)?;
    Some(&bound.socket)
}

/// Sends a frame from the socket of a name to the port of another, and answers how many bytes went.
fn sent(sockets: &[Socket], port: u16, from: NodeId, to: NodeId, frame: &[u8]) -> Option<usize> {
    let socket = socket_of(sockets, from)?;
    let port = port.checked_add(u16::from(to))?;
    socket.send_to(frame, (Ipv4Addr::LOCALHOST, port)).ok()
}

/// The node at a port, where the port of node 0 is the base.
fn node_at(base: u16, port: u16) -> NodeId
    ensures { result ≡ node_at base port }
{
    match port.checked_sub(base) {
        Some(node) if node <= u16::from(MAX_NODES) => node as u8,
        _ => STRANGER,
    }
}

/// Takes the next datagram of a name's socket, and answers None where that fails.
fn received(sockets: &[Socket], base: u16, name: NodeId, buf: &mut [u8]) -> Option<Polled>
    ensures { IfSome result (IsWithin (length buf.new)) }
{
    match socket_of(sockets, name)?.recv_from(buf) {
        Ok((len, sender)) => Some(Polled::Frame {
            from: node_at(base, sender.port()),
            len,
        }),
        Err(e) if e.kind() == ErrorKind::WouldBlock => Some(Polled::Nothing),
        Err(_) => None,
    }
}

impl<'a, R: Net> Link for UdpLink<'a, R> {
    ghost faults = { λ link. link.faults };

    ghost failed_sends = { λ link. link.failed_sends };

    ghost told = { λ _. None };

    fn attach(&mut self, names: &[NodeId], port: u16) -> Result<(), LinkStop>
        ensures ok { OnOk result (self.new ≡ self.old) }
        ensures failed { IsErrOf result LinkStop.Failed
            → self.new ≡ record self.old { faults = one_more self.old.faults } }
        ensures memory { IsErrOf result LinkStop.OutOfMemory → self.new ≡ self.old }

        ensures count { self.old.faults ≤ self.new.faults }
        ensures limit { self.new.faults ≤ last_u64 }
    {
        let faults = self.faults;
        match bind_all(*self.sockets.allocator(), self.net, names, port) {
            Ok(sockets) => {
                self.sockets = sockets;
                self.port = port;
                Ok(())
            }
            Err(LinkStop::Failed) => {
                self.faults = faults.saturating_add(1);
                Err(LinkStop::Failed)
            }
            Err(LinkStop::OutOfMemory) => Err(LinkStop::OutOfMemory),
        }
    }

    fn send(&mut self, from: NodeId, to: NodeId, frame: &[u8]) -> Result<(), LinkStop>
        ensures ok { OnOk result (self.new ≡ self.old) }
        ensures failed { IsErrOf result LinkStop.Failed
            → self.new ≡ record self.old { failed_sends = one_more self.old.failed_sends } }
        ensures cause { IfErr result (λ stop. stop ≡ LinkStop.Failed) }

        ensures count { self.old.failed_sends ≤ self.new.failed_sends }
        ensures limit { self.new.failed_sends ≤ last_u64 }
    {
        let failed = self.failed_sends;
        if sent(&self.sockets, self.port, from, to, frame) == Some(frame.len()) {
            return Ok(());
        }
        self.failed_sends = failed.saturating_add(1);
        Err(LinkStop::Failed)
    }

    fn poll(&mut self, node: NodeId, buf: &mut [u8]) -> Result<Polled, LinkStop>
        ensures within { IfOk result (IsWithin (length buf.old)) }
        ensures ok { OnOk result (self.new ≡ self.old) }
        ensures failed { IsErrOf result LinkStop.Failed
            → self.new ≡ record self.old { faults = one_more self.old.faults } }
        ensures cause { IfErr result (λ stop. stop ≡ LinkStop.Failed) }

        ensures count { self.old.faults ≤ self.new.faults }
        ensures limit { self.new.faults ≤ last_u64 }
    {
        let faults = self.faults;
        match received(&self.sockets, self.port, node, buf) {
            Some(polled) => Ok(polled),
            None => {
                self.faults = faults.saturating_add(1);
                Err(LinkStop::Failed)
            }
        }
    }
}
