//! The objects that a backup keeps.
ghost use Rattle.std.specs.Prelude.{◌≡◌, ◌<◌, ◌≤◌, IsTrue, length, OnOk, OnErr};
ghost use Rattle.backup_machine.specs.Backups.{with_object};
ghost use Rattle.backup_machine.specs.Objects.{in_range, comes_after};

use tcs_terms::{Name, OutOfMemory, Value, name_before};

/// A backup has at most this many objects.
pub const MAX_OBJECTS: usize = 4096;

/// An object of a backup: its version, from 1 on, and its value.
#[derive(Debug, Drop)]
pub struct Kept {
    pub name: Name,
    pub version: u64,
    pub value: Value,
}

/// Whether a name is one of the range, which its upper end is not.
pub fn in_range(from: &Name, upto: &Name, name: &Name) -> bool
    ensures { result ≡ in_range from.now upto.now name.now }
{
    !name_before(name.bytes(), from.bytes()) && name_before(name.bytes(), upto.bytes())
}

/// Whether a name stands behind the last one, where there is one.
pub fn comes_after(last: &Option<Name>, name: &Name) -> bool
    ensures { result ≡ comes_after last.now name.now }
{
    match last {
        None => true,
        Some(last) => name_before(last.bytes(), name.bytes()),
    }
}

/// Keeps an object, where it is there.
pub(crate) fn keep(kept: &mut Vec<Kept>, object: Kept) -> Result<(), OutOfMemory>
    ensures ok { OnOk result (kept.new.items ≡ with_object object kept.old.items) }
    ensures err { OnErr result (kept.new.items ≡ kept.old.items) }
{
    if object.version > 0 {
        kept.push(object)?;
    }
    Ok(())
}
