//! Datagrams over the sockets of this machine. What a socket carries is trusted: it is not proved.
#![tactic(auto)]

#[cfg(test)]
mod tests;
mod udp_link;

pub use udp_link::UdpLink;
