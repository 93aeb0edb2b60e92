//! Writes bytes and numbers at the end of a buffer. After want of memory the buffer begins with what it held.
ghost use Rattle.std.specs.Prelude.{◌≡◌, ◌<◌, ◌++◌, ◌∷◌, [], length, OnOk, OnErr};
ghost use Rattle.tcs_terms.specs.Appends.{Begins};
ghost use Rattle.wire_frame.specs.Spelling.{two, four, eight, counted};

use tcs_terms::OutOfMemory;

#[tactic(auto, using(tcs_terms::proofs::Appending::begins_same))]
pub fn put_byte(out: &mut Vec<u8>, byte: u8) -> Result<(), OutOfMemory>
    ensures ok { OnOk result (out.new.items ≡ out.old.items ++ byte ∷ []) }
    ensures err { OnErr result (Begins out.old.items out.new.items) }
{
    Ok(out.push(byte)?)
}

#[tactic(auto, using(tcs_terms::proofs::Appending::begins_same))]
pub fn put_bytes(out: &mut Vec<u8>, bytes: &[u8]) -> Result<(), OutOfMemory>
    ensures ok { OnOk result (out.new.items ≡ out.old.items ++ bytes.now) }
    ensures err { OnErr result (Begins out.old.items out.new.items) }
{
    Ok(out.extend_from_slice(bytes)?)
}

#[tactic(auto, unfolding(crate::specs::Spelling::two))]
pub fn put_u16(out: &mut Vec<u8>, number: u16) -> Result<(), OutOfMemory>
    ensures ok { OnOk result (out.new.items ≡ out.old.items ++ two number) }
    ensures err { OnErr result (Begins out.old.items out.new.items) }
{
    put_bytes(out, &number.to_be_bytes())
}

#[tactic(auto, unfolding(crate::specs::Spelling::four))]
pub fn put_u32(out: &mut Vec<u8>, number: u32) -> Result<(), OutOfMemory>
    ensures ok { OnOk result (out.new.items ≡ out.old.items ++ four number) }
    ensures err { OnErr result (Begins out.old.items out.new.items) }
{
    put_bytes(out, &number.to_be_bytes())
}

#[tactic(auto, unfolding(crate::specs::Spelling::eight))]
pub fn put_u64(out: &mut Vec<u8>, number: u64) -> Result<(), OutOfMemory>
    ensures ok { OnOk result (out.new.items ≡ out.old.items ++ eight number) }
    ensures err { OnErr result (Begins out.old.items out.new.items) }
{
    put_bytes(out, &number.to_be_bytes())
}

/// One byte for how many bytes there are, and the bytes.
pub fn put_counted(out: &mut Vec<u8>, bytes: &[u8]) -> Result<(), OutOfMemory>
    requires { length bytes.now < 256 }
    ensures ok { OnOk result (out.new.items ≡ out.old.items ++ counted bytes.now) }
    ensures err { OnErr result (Begins out.old.items out.new.items) }
{
    put_byte(out, bytes.len() as u8)?;
    put_bytes(out, bytes)
}
