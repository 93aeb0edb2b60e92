//! Who takes part in a run, and what an event makes of them.
ghost use Rattle.std.specs.Prelude.{◌≡◌, ◌≤◌, [], IfOk, option_copied};
ghost use Rattle.std.specs.Option.{option_map};
ghost use Rattle.tcs_terms.specs.Events.{InputInRange};
ghost use Rattle.tcs_terms.specs.Setups.{IsDeployment};
ghost use Rattle.tcs_terms.specs.Messages.{InRange};
ghost use Rattle.protocol.specs.World.{message_of, node_of};

use crate::arena::{Arena, Delivery};
use crate::peers::Peers;
use crate::stopped::Stopped;
use config_service::ConfigService;
use node_core::Node;
use std::alloc::Global;
use std::marker::Model;
use tcs_laws::VoteGuard;
use tcs_terms::{
    Event, Handled, Input, Message, NodeId, Note, OutOfMemory, Outgoing, Result1, Setup,
};

/// The configuration service, in a message's ends.
const SERVICE: NodeId = 0;

/// The nodes of a run, its configuration service, and the nodes that stopped.
#[derive(Drop)]
pub(crate) struct Cast<G: VoteGuard> {
    pub(crate) peers: Peers<G>,
    pub(crate) service: ConfigService,
    pub(crate) stopped: Stopped,
}

impl<G: VoteGuard> Model for Cast<G> {
    ghost use Rattle.world.specs.Casts.{Cast};

    ghost Value = { Cast };

    ghost view = { λ c. record {
      peers = c.peers;
      configs = c.service;
      stopped = c.stopped;
    } };
}

/// What an event comes to: its result, and what is sent, by whom, and noted.
#[derive(Drop)]
pub(crate) struct Doing {
    pub(crate) result: Result1,
    pub(crate) from: NodeId,
    pub(crate) sends: Vec<Outgoing>,
    pub(crate) notes: Vec<Note>,
}

impl Doing {
    /// Nothing is sent or noted.
    fn nothing(alloc: Global, result1: Result1) -> Doing
        ensures result { result.result ≡ result1 }
        ensures sends { result.sends.items ≡ [] }
        ensures notes { result.notes.items ≡ [] }
        ensures from { result.from ≡ 0 }
    {
        Doing {
            result: result1,
            from: SERVICE,
            sends: Vec::new(alloc),
            notes: Vec::new(alloc),
        }
    }
}

impl<G: VoteGuard> Cast<G> {
    ghost use Rattle.world.specs.Casts.{first_cast, given, served, delivered, delivered_if_sent, stopping, does, MayReach};
    ghost use Rattle.world.specs.Doings.{IsDone};
    ghost use Rattle.world.specs.Nodes.{AreNamed};

    /// All nodes as they begin, the first configurations, and no node that stopped.
    pub(crate) fn first(alloc: Global, setup: &Setup) -> Result<Cast<G>, OutOfMemory>
        ensures cast { IfOk result (λ cast. cast ≡ first_cast setup.now) }
        ensures setup { IfOk result (λ _. IsDeployment setup.now) }
    {
        let peers = Peers::first(alloc, setup)?;
        let configs = setup.copy_configs(alloc)?;
        Ok(Cast {
            peers,
            service: ConfigService::build(alloc, configs)?,
            stopped: Stopped::new(alloc)?,
        })
    }

    /// The node of a name, where nodes are named from 1 on.
    pub(crate) fn node(&self, name: NodeId) -> Option<&Node<G>>
        ensures { AreNamed self.now.peers.nodes
            → option_map (λ n. n.kept) (option_copied result) ≡ node_of self.now.peers.nodes name }
    {
        if name == SERVICE {
            return None;
        }
        self.peers.node(name)
    }

    /// A node is given an input, unless it has stopped.
    fn give(&mut self, alloc: Global, name: NodeId, input: Input) -> Result<Doing, OutOfMemory>
        requires from_one { 1 ≤ name }
        requires range { InputInRange input }
        ensures { IfOk result (λ doing. IsDone doing self.new (given G.Rule.tests self.old name input)) }
    {
        if self.stopped.has(name) {
            return Ok(Doing::nothing(alloc, Result1::Gone));
        }
        if name > self.peers.len() {
            return Ok(Doing::nothing(alloc, Result1::Gone));
        }
        let (mut sends, mut notes) = (Vec::new(alloc), Vec::new(alloc));
        let handled = self.peers.step(name, input, &mut sends, &mut notes)?;
        Ok(Doing {
            result: Result1::Node(handled),
            from: name,
            sends,
            notes,
        })
    }

    /// A message reaches the configuration service.
    fn serve(
        &mut self,
        alloc: Global,
        from: NodeId,
        message: &Message,
    ) -> Result<Doing, OutOfMemory>
        ensures { IfOk result (λ doing. IsDone doing self.new (served self.old from message.now)) }
    {
        let mut sends = Vec::new(alloc);
        let nodes = self.peers.len();
        let handled = self.service.serve(alloc, nodes, from, message, &mut sends)?;
        Ok(Doing {
            result: Result1::Node(handled),
            from: SERVICE,
            sends,
            notes: Vec::new(alloc),
        })
    }

    /// A message reaches its receiver.
    fn deliver(&mut self, alloc: Global, delivery: Delivery) -> Result<Doing, OutOfMemory>
        requires { InRange delivery.message }
        ensures { IfOk result (λ doing. IsDone doing self.new (delivered G.Rule.tests self.old (record {
          from = delivery.from;
          to = delivery.to;
          message = delivery.message;
        }))) }
    {
        let Delivery { from, to, message } = delivery;
        if to == SERVICE {
            return self.serve(alloc, from, &message);
        }
        self.give(alloc, to, Input::Deliver { from, message })
    }

    /// The message of a number is delivered, if it was sent.
    fn deliver_number(
        &mut self,
        alloc: Global,
        arena: &Arena,
        number: u32,
    ) -> Result<Doing, OutOfMemory>
        ensures { IfOk result (λ doing. IsDone doing self.new (delivered_if_sent G.Rule.tests self.old (message_of arena.now number))) }
    {
        let taken = arena.take(alloc, number)?;
        match taken {
            None => Ok(Doing::nothing(alloc, Result1::Unsent)),
            Some(delivery) => self.deliver(alloc, delivery),
        }
    }

    /// A node stops.
    fn stop(&mut self, alloc: Global, name: NodeId) -> Result<Doing, OutOfMemory>
        ensures { IfOk result (λ doing. IsDone doing self.new (stopping self.old name)) }
    {
        if self.stopped.has(name) {
            return Ok(Doing::nothing(alloc, Result1::Gone));
        }
        self.stopped.add(name)?;
        Ok(Doing::nothing(alloc, Result1::Node(Handled::Acted)))
    }

    /// An event, given the messages that were sent.
    pub(crate) fn take_event(
        &mut self,
        alloc: Global,
        arena: &Arena,
        event: Event,
    ) -> Result<Doing, OutOfMemory>
        requires { MayReach event }
        ensures { IfOk result (λ doing. IsDone doing self.new (does G.Rule.tests self.old arena.now event)) }
    {
        match event {
            Event::Call { node, input } => self.give(alloc, node, input),
            Event::DeliverNumber(number) => self.deliver_number(alloc, arena, number),
            Event::Stop(name) => self.stop(alloc, name),
        }
    }
}
