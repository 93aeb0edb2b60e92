//! How an input is refused.
ghost use Rattle.std.specs.Prelude.{◌≡◌};
ghost use Rattle.protocol.specs.Outcomes.{refusal};

use tcs_terms::{Epoch, Handled};

/// The answer to an input of this epoch that does not act, against this mark: `Stale` where its epoch is below the mark,
/// else `Held`.
#[tactic(auto, unfolding(protocol::specs::Outcomes::refusal, protocol::specs::Choices::when))]
pub fn refusal(epoch: Epoch, mark: Epoch) -> Handled
    ensures { result ≡ refusal epoch mark }
{
    if epoch < mark {
        Handled::Stale(mark)
    } else {
        Handled::Held(mark)
    }
}
