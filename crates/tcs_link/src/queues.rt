//! The frames that wait for one receiver.
ghost use Rattle.std.specs.Prelude.{◌≡◌, ◌++◌, ◌∷◌, [], drop, OnOk, OnErr};
ghost use Rattle.std.specs.List.{slice_get};

use crate::telling::Arrival;
use std::alloc::Global;
use std::collections::VecDeque;
use std::marker::Model;
use tcs_terms::OutOfMemory;

/// The frames that wait for a receiver, the next one first. Seen as their list.
#[derive(Debug, Drop)]
pub(crate) struct Queue {
    frames: VecDeque<Arrival>,
}

impl Model for Queue {
    ghost use Rattle.std.specs.Prelude.{List};
    ghost use Rattle.tcs_link.specs.declared.telling.Arrival.{Arrival};

    ghost Value = { List Arrival };

    ghost view = { λ q. q.frames.items };
}

impl Queue {
    pub(crate) fn new(alloc: Global) -> Queue
        ensures { result ≡ [] }
    {
        Queue {
            frames: VecDeque::new(alloc),
        }
    }

    /// A frame comes behind all others.
    pub(crate) fn push(&mut self, frame: Arrival) -> Result<(), OutOfMemory>
        ensures ok { OnOk result (self.new ≡ self.old ++ frame ∷ []) }
        ensures err { OnErr result (self.new ≡ self.old) }
    {
        Ok(self.frames.push_back(frame)?)
    }

    /// Two frames come behind all others, or none.
    pub(crate) fn push_two(&mut self, first: Arrival, second: Arrival) -> Result<(), OutOfMemory>
        ensures ok { OnOk result (self.new ≡ self.old ++ first ∷ second ∷ []) }
        ensures err { OnErr result (self.new ≡ self.old) }
    {
        self.frames.reserve(2)?;
        self.frames.push_back_reserved(first);
        self.frames.push_back_reserved(second);
        Ok(())
    }

    /// Takes the next frame.
    pub(crate) fn pop(&mut self) -> Option<Arrival>
        ensures next { result ≡ slice_get self.old 0 }
        ensures rest { self.new ≡ drop 1 self.old }
    {
        self.frames.pop_front()
    }
}
