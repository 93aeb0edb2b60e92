//! The printers of a backup file, a line each. Each appends to a buffer; after want of memory the buffer begins with what
//! it held.
ghost use Rattle.std.specs.Prelude.{◌≡◌, ◌++◌, OnOk, OnErr};
ghost use Rattle.tcs_terms.specs.Appends.{Begins};
ghost use Rattle.backup_text.specs.Lines.{HeadLine, CallLine, PlaceLine, ObjectLine, EndLine, place_text, seen_text, printed};

use backup_machine::Kept;
use tcs_terms::{Name, OutOfMemory, TxId};
use text_words::{put, put_byte, put_number, put_txn, put_value};

/// The first line: the version of the form, and the range.
pub fn print_head(from: &Name, upto: &Name, out: &mut Vec<u8>) -> Result<(), OutOfMemory>
    ensures ok { OnOk result (out.new.items ≡ out.old.items ++ printed (HeadLine from.now upto.now)) }
    ensures err { OnErr result (Begins out.old.items out.new.items) }
{
    put(out, b"backup 1 ")?;
    put(out, from.bytes())?;
    put_byte(out, b' ')?;
    put(out, upto.bytes())?;
    put_byte(out, b'\n')
}

/// The line of a call that was made, given its text.
pub fn print_call(event: &[u8], out: &mut Vec<u8>) -> Result<(), OutOfMemory>
    ensures ok { OnOk result (out.new.items ≡ out.old.items ++ printed (CallLine event.now)) }
    ensures err { OnErr result (Begins out.old.items out.new.items) }
{
    put(out, b"did ")?;
    put(out, event)?;
    put_byte(out, b'\n')
}

fn put_place(place: Option<TxId>, out: &mut Vec<u8>) -> Result<(), OutOfMemory>
    ensures ok { OnOk result (out.new.items ≡ out.old.items ++ place_text place) }
    ensures err { OnErr result (Begins out.old.items out.new.items) }
{
    match place {
        None => put(out, b"-"),
        Some(txn) => put_txn(out, txn),
    }
}

/// The line of the place in the order: the transaction before which the objects were seen, or a dash.
pub fn print_place(place: Option<TxId>, out: &mut Vec<u8>) -> Result<(), OutOfMemory>
    ensures ok { OnOk result (out.new.items ≡ out.old.items ++ printed (PlaceLine place)) }
    ensures err { OnErr result (Begins out.old.items out.new.items) }
{
    put(out, b"cut ")?;
    put_place(place, out)?;
    put_byte(out, b'\n')
}

/// The name of an object, and its version.
fn put_seen(object: &Kept, out: &mut Vec<u8>) -> Result<(), OutOfMemory>
    ensures ok { OnOk result (out.new.items ≡ out.old.items ++ seen_text object.now) }
    ensures err { OnErr result (Begins out.old.items out.new.items) }
{
    put(out, object.name.bytes())?;
    put_byte(out, b' ')?;
    put_number(out, object.version)
}

/// The line of an object: its name, its version, and its value in hex.
pub fn print_object(object: &Kept, out: &mut Vec<u8>) -> Result<(), OutOfMemory>
    ensures ok { OnOk result (out.new.items ≡ out.old.items ++ printed (ObjectLine object.now)) }
    ensures err { OnErr result (Begins out.old.items out.new.items) }
{
    put(out, b"obj ")?;
    put_seen(object, out)?;
    put_byte(out, b' ')?;
    put_value(out, object.value.bytes())?;
    put_byte(out, b'\n')
}

/// The last line: how many objects there are.
pub fn print_end(count: u64, out: &mut Vec<u8>) -> Result<(), OutOfMemory>
    ensures ok { OnOk result (out.new.items ≡ out.old.items ++ printed (EndLine count)) }
    ensures err { OnErr result (Begins out.old.items out.new.items) }
{
    put(out, b"end ")?;
    put_number(out, count)?;
    put_byte(out, b'\n')
}
