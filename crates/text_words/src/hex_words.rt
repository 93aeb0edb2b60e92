//! Bytes and values in hex, in lower case.
ghost use Rattle.std.specs.Prelude.{◌≡◌, ◌+◌, ◌*◌, ◌++◌, IfSome, IfOk, OnOk, OnErr};
ghost use Rattle.std.specs.List.{list_all};
ghost use Rattle.std.specs.Option.{option_map};
ghost use Rattle.hex.specs.Hex.{encode_lower};
ghost use Rattle.tcs_terms.specs.Appends.{Begins};
ghost use Rattle.text_words.specs.HexWords.{is_lower_digit, bytes_in, value_in};
ghost use Rattle.text_words.specs.PayloadText.{value_text};

use crate::texts::put;
use hex::FromHexError;
use std::alloc::Global;
use tcs_terms::limits::MAX_VALUE;
use tcs_terms::{OutOfMemory, Value};

fn are_lower_digits(word: &[u8]) -> bool
    ensures { result ≡ list_all is_lower_digit word.now }
{
    word.iter()
        .all(|byte| matches!(*byte, b'0'..=b'9' | b'a'..=b'f'))
}

/// The bytes that pairs of digits `0` to `9` and `a` to `f` write.
#[tactic(auto, unfolding(crate::specs::HexWords::bytes_in))]
pub fn bytes_in(alloc: Global, word: &[u8]) -> Result<Option<Vec<u8>>, OutOfMemory>
    ensures { IfOk result (λ bytes. option_map (λ v. v.items) bytes ≡ bytes_in word.now) }
{
    if !are_lower_digits(word) {
        return Ok(None);
    }
    match hex::decode(alloc, word) {
        Ok(bytes) => Ok(Some(bytes)),
        Err(FromHexError::OutOfMemory) => Err(OutOfMemory),
        Err(FromHexError::OddLength) => Ok(None),
        Err(FromHexError::InvalidHexCharacter { .. }) => Ok(None),
        Err(FromHexError::InvalidStringLength) => Ok(None),
    }
}

/// The value that a word writes: a dash for the empty one, else 1 to 64 pairs of digits.
pub fn value_in(alloc: Global, word: &[u8]) -> Result<Option<Value>, OutOfMemory>
    ensures { IfOk result (λ value. value ≡ value_in word.now) }
{
    if word == b"-".as_slice() {
        return Ok(Some(Value::of(b"")));
    }
    if word.is_empty() || word.len() > MAX_VALUE + MAX_VALUE {
        return Ok(None);
    }
    match bytes_in(alloc, word)? {
        Some(bytes) => Ok(Some(Value::of(&bytes))),
        None => Ok(None),
    }
}

/// Where the digits of so many bytes end, unless no memory has so much room.
fn end_of_hex(start: usize, count: usize) -> Option<usize>
    ensures { IfSome result (λ end. end ≡ start + 2 * count) }
{
    match count.checked_mul(2) {
        Some(digits) => start.checked_add(digits),
        None => None,
    }
}

/// Appends bytes in lower-case hex, into room that is made once. After want of memory the buffer begins with what it
/// held.
pub fn put_hex(out: &mut Vec<u8>, bytes: &[u8]) -> Result<(), OutOfMemory>
    ensures ok { OnOk result (out.new.items ≡ out.old.items ++ encode_lower bytes.now) }
    ensures err { OnErr result (Begins out.old.items out.new.items) }
{
    let start = out.len();
    let Some(end) = end_of_hex(start, bytes.len()) else {
        return Err(OutOfMemory);
    };
    out.resize(end, 0)?;
    let all = out.as_mut_slice();
    let _fits = hex::encode_to_slice(bytes, &mut all[start..]);
    Ok(())
}

/// Appends a value: a dash for the empty one, else its bytes in lower-case hex. After want of memory the buffer begins
/// with what it held.
pub fn put_value(out: &mut Vec<u8>, value: &[u8]) -> Result<(), OutOfMemory>
    ensures ok { OnOk result (out.new.items ≡ out.old.items ++ value_text value.now) }
    ensures err { OnErr result (Begins out.old.items out.new.items) }
{
    match value {
        [] => put(out, b"-"),
        [_, ..] => put_hex(out, value),
    }
}
