//! What happens next in a schedule.
ghost use Rattle.std.specs.Prelude.{◌≡◌, ◌≤◌};
ghost use Rattle.generator.specs.Choices.{fixed_at};

use tcs_terms::{Name, Payload};

/// What happens next. Which node reads, and whom node 5 takes over, is known only beside the run.
#[derive(Debug, Drop)]
pub enum Doing {
    /// Node 1 stops.
    Stop,
    /// Node 3 moves shard 1, with itself beside the new leader.
    FirstMove,
    /// Node 5 takes over the first transaction of its rows that is undecided and that it has no case of; without one
    /// node 9 is nudged.
    TakeOver,
    /// Node 6 moves shard 2, with itself beside the new leader.
    SecondMove,
    /// Node 9 is nudged.
    Nudge,
    /// The message of this number is delivered.
    Deliver(u32),
    /// This object is read at the leader that node 9 knows of its shard.
    Read(Name),
    /// Node 9 is given a payload.
    Certify(Payload),
}

/// What stands at a place, from 1, of a schedule of so many events, whatever the words.
pub(crate) fn fixed_at(count: u32, place: u32) -> Option<Doing>
    requires { count ≤ 50000 }
    ensures { result ≡ fixed_at count place }
{
    if place == count / 3 {
        Some(Doing::Stop)
    } else if place == count / 3 + 1 {
        Some(Doing::FirstMove)
    } else if place == count / 2 {
        Some(Doing::TakeOver)
    } else if place == 2 * count / 3 {
        Some(Doing::SecondMove)
    } else {
        None
    }
}
