//! The nodes that stopped.
ghost use Rattle.std.specs.Prelude.{◌≡◌, ◌++◌, ◌∷◌, [], IfOk, OnOk};
ghost use Rattle.tcs_terms.specs.Places.{is_among};

use std::alloc::Global;
use std::marker::Model;
use tcs_terms::{NodeId, OutOfMemory};

/// The nodes that stopped, each found at once. Seen as the list of their names, in the order in which they stopped.
#[derive(Drop)]
pub(crate) struct Stopped {
    names: Vec<NodeId>,
    marks: Vec<bool>,
}

impl Model for Stopped {
    ghost use Rattle.std.specs.Prelude.{List, ℕ};
    ghost use Rattle.world.specs.Marks.{AreMarks};

    ghost Value = { List ℕ };

    ghost view = { λ s. s.names.items };

    ghost invariant = { λ s. AreMarks s.names.items s.marks.items };
}

impl Stopped {
    pub(crate) fn new(alloc: Global) -> Result<Stopped, OutOfMemory>
        ensures { IfOk result (λ stopped. stopped ≡ []) }
    {
        Ok(Stopped {
            names: Vec::new(alloc),
            marks: vec![in alloc; false; 256]?,
        })
    }

    /// Whether a node has stopped.
    pub(crate) fn has(&self, name: NodeId) -> bool
        ensures { result ≡ is_among self.now name }
    {
        self.marks[usize::from(name)]
    }

    pub(crate) fn add(&mut self, name: NodeId) -> Result<(), OutOfMemory>
        ensures { OnOk result (self.new ≡ self.old ++ name ∷ []) }
    {
        self.names.push(name)?;
        self.marks[usize::from(name)] = true;
        Ok(())
    }
}
