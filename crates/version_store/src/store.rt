//! The store, told of a log's rows as they are committed, and asked for objects.

use crate::kept::Writes;
use crate::writes::{take_marked, take_row};
use std::alloc::Global;
use std::collections::BTreeMap;
use tcs_terms::{Name, OutOfMemory, Row, Value};

/// What is read of an object: the version and the value of its committed write of greatest version. Version 0 and no
/// value where there is none.
#[derive(Clone, Copy, Debug)]
pub struct Reading<'a> {
    pub version: u64,
    pub value: Option<&'a Value>,
}

/// Keeps of each object the committed write of greatest version among the rows of a log, the one of lowest slot among
/// equal ones. A store stands for a list of rows: see `specs/Keeping.antt`. It is told of a row when that is committed;
/// a row that enters the log undecided or is marked aborted changes nothing: see `proofs/Undecided.antt`.
#[derive(Debug, Drop)]
pub struct VersionStore {
    writes: Writes,
}

impl VersionStore {
    ghost use Rattle.std.specs.Prelude.{◌≡◌, [], List, Contains, option_copied, IfOk, OnOk};
    ghost use Rattle.tcs_terms.specs.declared.logs.Row.{Row};
    ghost use Rattle.tcs_terms.specs.declared.logs.Mark.TheVariants.{Undecided, Committed};
    ghost use Rattle.protocol.specs.Log.{marked};
    ghost use Rattle.protocol.specs.Versions.{read_of};
    ghost use Rattle.version_store.specs.Keeping.{StandsFor, SlotsAscend};

    /// A store of no rows, which takes its memory from `alloc`.
    pub fn new(alloc: Global) -> VersionStore
        ensures { StandsFor result [] }
    {
        VersionStore {
            writes: BTreeMap::new(alloc),
        }
    }

    /// A store of these rows.
    pub fn build(alloc: Global, rows: &[Row]) -> Result<VersionStore, OutOfMemory>
        ensures { IfOk result (λ store. StandsFor store rows.now) }
    {
        let mut store = VersionStore::new(alloc);
        for row in rows {
            take_marked(alloc, &mut store.writes, row)?;
        }
        Ok(store)
    }

    /// A row, undecided so far, is marked committed. Slots ascend. After an error the store may have taken in a part
    /// of the row's writes: it is to be dropped.
    pub fn committed(&mut self, alloc: Global, row: &Row) -> Result<(), OutOfMemory>
        ensures { OnOk result ((rows : List Row) → StandsFor self.old rows → SlotsAscend rows → Contains rows row.now
            → row.now.mark ≡ Undecided → StandsFor self.new (marked rows row.now.entry.slot Committed)) }
    {
        take_row(alloc, &mut self.writes, row)
    }

    /// What is read of an object among the rows that the store stands for, whose slots ascend.
    pub fn read(&self, name: &Name) -> Reading<'_>
        ensures version { (rows : List Row) → StandsFor self.now rows → SlotsAscend rows
            → result.version ≡ (read_of rows name.now).version }
        ensures value { (rows : List Row) → StandsFor self.now rows → SlotsAscend rows
            → option_copied result.value ≡ (read_of rows name.now).value }
    {
        match self.writes.get(name) {
            None => Reading {
                version: 0,
                value: None,
            },
            Some(kept) => Reading {
                version: kept.version,
                value: Some(&kept.value),
            },
        }
    }
}
