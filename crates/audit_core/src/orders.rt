//! The order that a trace tells, beside that of its history.
ghost use Rattle.std.specs.Prelude.{◌≡◌};
ghost use Rattle.audit_core.specs.Told.{first_difference};

use tcs_terms::TxId;

/// The first transaction of the told order that is not that of its place, or is left over; or else the first one that
/// it lacks.
#[tactic(auto, using(crate::proofs::Differences::same_there, crate::proofs::Differences::other_there, crate::proofs::Differences::left_over, crate::proofs::Differences::lacking, crate::proofs::Differences::none_left))]
pub fn first_difference(told: &[TxId], order: &[TxId]) -> Option<TxId>
    ensures { result ≡ first_difference told.now order.now }
{
    let mut place = 0;
    'places: while place < told.len() && place < order.len() {
        if told[place] != order[place] {
            return Some(told[place]);
        }
        place += 1;
    }
    if place < told.len() {
        Some(told[place])
    } else if place < order.len() {
        Some(order[place])
    } else {
        None
    }
}
