//! What holds of the events of a run: what their types promise, and that the numbers of those that fit are in range.
ghost use Rattle.std.specs.Prelude.{◌≡◌, ℕ, List, [], ◌∷◌, ◌++◌, IsTrue};
ghost use Rattle.tcs_terms.specs.declared.ids.TxId.{TxId as Txn};
ghost use Rattle.tcs_terms.specs.declared.inputs.Input.{Input as Given};
ghost use Rattle.tcs_terms.specs.declared.inputs.Event.{Event as Happening};
ghost use Rattle.tcs_terms.specs.Places.{is_node, is_shard};
ghost use Rattle.tcs_terms.specs.Messages.{is_txn};
ghost use Rattle.tcs_terms.specs.Setups.{Deployment, IsDeployment, has_node};
ghost use Rattle.tcs_terms.specs.Events.{has_shard, may_be_of, input_fits, InputInRange};
ghost use Rattle.tcs_terms.specs.Runs.{IsInput, IsEvent, MayStand, AreEventsOf};

use crate::inputs::{Event, Input};

impl Input {
    /// Says what the types of the input promise, and does nothing: a payload is one, and a name is one.
    pub fn promise(&self)
        ensures { IsInput self.now }
    {
        match self {
            Input::Certify(payload) => {
                let _version = payload.version();
            }
            Input::ReadName(name) => {
                let _bytes = name.bytes();
            }
            Input::Take(_)
            | Input::Nudge
            | Input::Move { .. }
            | Input::Lower
            | Input::Ask(_)
            | Input::Deliver { .. } => {}
        }
    }
}

impl Event {
    /// Says what the types of the event promise, and does nothing.
    pub fn promise(&self)
        ensures { IsEvent self.now }
    {
        match self {
            Event::Call { input, .. } => input.promise(),
            Event::DeliverNumber(number) => {
                let _number = *number;
            }
            Event::Stop(_) => {}
        }
    }
}

/// What fits a setup is in range.
pub fn what_fits_is_in_range()
    ensures node { (d : Deployment) (node : ℕ) → IsDeployment d → IsTrue (has_node d.nodes node) → IsTrue (is_node node) }
    ensures shard { (d : Deployment) (shard : ℕ) → IsDeployment d → IsTrue (has_shard d shard) → IsTrue (is_shard shard) }
    ensures txn { (d : Deployment) (txn : Txn) → IsDeployment d → IsTrue (may_be_of d txn) → IsTrue (is_txn txn) }
    ensures input { (d : Deployment) (input : Given) → IsDeployment d → IsTrue (input_fits d input) → InputInRange input }
{}

/// The events of a run come one by one: none are events of a setup, one more that may stand joins them, and so do
/// those at the front of such events.
pub fn events_come_one_by_one()
    ensures none { (d : Deployment) → IsDeployment d → AreEventsOf d [] }
    ensures more { (d : Deployment) (events : List Happening) (event : Happening) → AreEventsOf d events → MayStand d event → AreEventsOf d (events ++ event ∷ []) }
    ensures front { (d : Deployment) (events more : List Happening) → AreEventsOf d (events ++ more) → AreEventsOf d events }
{}
