//! What a link tells of its calls.
ghost use Rattle.std.specs.Prelude.{◌≡◌, IfOk};

use crate::bytes::Bytes;
use std::alloc::Global;
use std::marker::Model;
use tcs_terms::{NodeId, OutOfMemory};

/// The names that were attached, and the port.
#[derive(Debug, Drop)]
pub struct Attachment {
    names: Vec<NodeId>,
    port: u16,
}

impl Model for Attachment {
    ghost use Rattle.tcs_link.specs.Told.{Attached};

    ghost Value = { Attached };

    ghost view = { λ a. record { names = a.names.items; port = a.port } };
}

impl Attachment {
    pub(crate) fn of(alloc: Global, names: &[NodeId], port: u16) -> Result<Attachment, OutOfMemory>
        ensures { IfOk result (λ a. a ≡ record { names = names.now; port = port }) }
    {
        Ok(Attachment {
            names: Vec::from_slice(alloc, names)?,
            port,
        })
    }

    pub fn names(&self) -> &[NodeId]
        ensures { result.now ≡ self.now.names }
    {
        self.names.as_slice()
    }

    pub fn port(&self) -> u16
        ensures { result ≡ self.now.port }
    {
        self.port
    }
}

/// A frame that was handed to `send`.
#[derive(Debug, Drop)]
pub struct Sent {
    pub from: NodeId,
    pub to: NodeId,
    pub bytes: Bytes,
}

/// A frame that came: its stated sender, which may be false, and its bytes.
#[derive(Debug, Drop)]
pub struct Arrival {
    pub from: NodeId,
    pub bytes: Bytes,
}

/// A poll that was answered, and what came.
#[derive(Debug, Drop)]
pub struct Poll {
    pub node: NodeId,
    pub arrived: Option<Arrival>,
}
