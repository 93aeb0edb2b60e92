//! What a session was given, by object.
ghost use Rattle.std.specs.Prelude.{◌≡◌, ◌+◌, ◌++◌, ◌<◌, ◌≤◌, false, length, Some, All, IfOk, OnOk, OnErr};
ghost use Rattle.std.specs.List.{position, prefix_len};
ghost use Rattle.tcs_terms.specs.Order.{name_before};
ghost use Rattle.tcs_terms.specs.Payloads.{same_name, IsReadPart, IsWritePart};
ghost use Rattle.store_client.specs.Parts.{AreParts, has, with_read, with_put, reads, write_of, writes, greatest, payload_of};
ghost use Rattle.tcs_terms.specs.declared.limits.TheConstants.{MAX_READS};

use std::alloc::Global;
use tcs_terms::{Name, OutOfMemory, Payload, ReadPart, Value, WritePart, name_before, same_name};

/// An object that was read: the version and the value that were seen, and what it is to get, if anything.
#[derive(Debug, Drop)]
pub struct Part {
    pub name: Name,
    pub version: u64,
    pub value: Value,
    pub put: Option<Value>,
}

/// The place of an object's part.
pub(crate) fn place_of(parts: &[Part], name: &Name) -> Option<usize>
    ensures { result ≡ position (λ p. same_name p.name name.now) parts.now }
{
    parts
        .iter()
        .position(|part| same_name(part.name.bytes(), name.bytes()))
}

/// Whether an object was read.
pub(crate) fn has(parts: &[Part], name: &Name) -> bool
    ensures { result ≡ has parts.now name.now }
{
    place_of(parts, name).is_some()
}

/// Takes the part of an object that was not read, at its place by name.
#[tactic(auto, using(crate::proofs::Reading::inserted_at, crate::proofs::Reading::with_read_are))]
pub(crate) fn take_read(parts: &mut Vec<Part>, part: Part) -> Result<(), OutOfMemory>
    requires other { has parts.old.items part.name ≡ false }
    requires room { length parts.old.items < MAX_READS }
    requires are { AreParts parts.old.items }
    ensures ok { OnOk result (parts.new.items ≡ with_read part parts.old.items) }
    ensures err { OnErr result (parts.new.items ≡ parts.old.items) }
    ensures are { AreParts parts.new.items }
{
    let place = count_before(parts, &part.name);
    Ok(parts.insert(place, part)?)
}

/// Puts a value to the object whose part is at this place.
#[tactic(auto, using(crate::proofs::Putting::set_is_with_put, crate::proofs::Putting::with_put_are))]
pub(crate) fn set_put(parts: &mut [Part], place: usize, name: &Name, value: Value)
    requires found { position (λ p. same_name p.name name.now) parts.old ≡ Some place }
    ensures put { parts.new ≡ with_put name.now value parts.old }
    ensures are { AreParts parts.old → AreParts parts.new }
{
    parts[place].put = Some(value);
}

/// How many parts at the front have names before this one.
fn count_before(parts: &[Part], name: &Name) -> usize
    ensures count { result ≡ prefix_len (λ p. name_before p.name name.now) parts.now }
    ensures within { result ≤ length parts.now }
{
    let mut count = 0;
    while count < parts.len() && name_before(parts[count].name.bytes(), name.bytes()) {
        count += 1;
    }
    count
}

/// What was read of an object.
fn read_of(name: &Name, version: u64) -> ReadPart
    ensures read { result ≡ record { name = name.now; version = version } }
    ensures part { IsReadPart result }
{
    let _name = name.bytes();
    ReadPart {
        name: name.again(),
        version,
    }
}

/// What was read.
fn reads(alloc: Global, parts: &[Part]) -> Result<Vec<ReadPart>, OutOfMemory>
    ensures reads { IfOk result (λ list. list.items ≡ reads parts.now) }
    ensures parts { IfOk result (λ list. All IsReadPart list.items) }
{
    let mut list = Vec::new(alloc);
    for part in parts {
        list.push(read_of(&part.name, part.version))?;
    }
    Ok(list)
}

/// What an object is to get.
fn write_of(name: &Name, value: &Value) -> WritePart
    ensures write { result ≡ record { name = name.now; value = value.now } }
    ensures part { IsWritePart result }
{
    let _name = name.bytes();
    WritePart {
        name: name.again(),
        value: Value::of(value.bytes()),
    }
}

/// Adds what an object is to get, if anything.
fn add_write(list: &mut Vec<WritePart>, part: &Part) -> Result<(), OutOfMemory>
    ensures added { OnOk result (list.new.items ≡ list.old.items ++ write_of part.now.name part.now.put) }
    ensures parts { OnOk result (All IsWritePart list.old.items → All IsWritePart list.new.items) }
{
    match &part.put {
        None => {}
        Some(value) => list.push(write_of(&part.name, value))?,
    }
    Ok(())
}

/// What is to be written.
fn writes(alloc: Global, parts: &[Part]) -> Result<Vec<WritePart>, OutOfMemory>
    ensures writes { IfOk result (λ list. list.items ≡ writes parts.now) }
    ensures parts { IfOk result (λ list. All IsWritePart list.items) }
{
    let mut list = Vec::new(alloc);
    for part in parts {
        add_write(&mut list, part)?;
    }
    Ok(list)
}

/// The greatest version that was read, 0 where nothing was.
pub(crate) fn greatest(parts: &[Part]) -> u64
    ensures { result ≡ greatest parts.now }
{
    let mut most = 0;
    for part in parts {
        most = part.version.max(most);
    }
    most
}

/// The payload of what was read and put; the version is 1 above the greatest that was read.
#[tactic(auto, using(crate::proofs::Committing::parts_are_a_payload))]
pub(crate) fn payload_of(
    alloc: Global,
    parts: &[Part],
    version: u64,
) -> Result<Payload, OutOfMemory>
    requires are { AreParts parts.now }
    requires some { 1 ≤ length parts.now }
    requires above { version ≡ greatest parts.now + 1 }
    ensures { IfOk result (λ payload. payload ≡ payload_of parts.now) }
{
    let reads = reads(alloc, parts)?;
    let writes = writes(alloc, parts)?;
    Payload::of(reads, Vec::new(alloc), writes, version)
}
