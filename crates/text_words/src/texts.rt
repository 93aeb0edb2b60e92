//! Numbers and transactions in a text.
ghost use Rattle.std.specs.Prelude.{◌≡◌, ◌++◌, ◌∷◌, [], decimal, OnOk, OnErr};
ghost use Rattle.std.specs.Char.{is_ascii_digit};
ghost use Rattle.std.specs.List.{list_all};
ghost use Rattle.text_words.specs.PayloadWords.{is_numeral, number_in};
ghost use Rattle.tcs_terms.specs.Appends.{Begins};
ghost use Rattle.text_words.specs.Texts.{txn_text};

use itoa::Buffer;
use tcs_terms::{OutOfMemory, TxId};

fn are_digits(word: &[u8]) -> bool
    ensures { result ≡ list_all is_ascii_digit word.now }
{
    word.iter().all(|byte| byte.is_ascii_digit())
}

/// Whether a word has the form of a number: decimal digits, without a leading zero.
pub fn is_numeral(word: &[u8]) -> bool
    ensures { result ≡ is_numeral word.now }
{
    !word.is_empty() && (word[0] != b'0' || word.len() == 1) && are_digits(word)
}

/// The number that a word writes, where the word has the form of a number and it is at most 18,446,744,073,709,551,615.
pub fn read_number(word: &[u8]) -> Option<u64>
    ensures { result ≡ number_in word.now }
{
    if !is_numeral(word) {
        return None;
    }
    let Ok(text) = str::from_utf8(word) else {
        return None;
    };
    text.parse().ok()
}

/// Appends these bytes. Where memory runs out nothing is appended.
#[tactic(auto, using(tcs_terms::proofs::Appending::begins_same))]
pub fn put(out: &mut Vec<u8>, text: &[u8]) -> Result<(), OutOfMemory>
    ensures ok { OnOk result (out.new.items ≡ out.old.items ++ text.now) }
    ensures same { OnErr result (out.new.items ≡ out.old.items) }
    ensures err { OnErr result (Begins out.old.items out.new.items) }
{
    Ok(out.extend_from_slice(text)?)
}

/// Appends a byte. Where memory runs out nothing is appended.
#[tactic(auto, using(tcs_terms::proofs::Appending::begins_same))]
pub fn put_byte(out: &mut Vec<u8>, byte: u8) -> Result<(), OutOfMemory>
    ensures ok { OnOk result (out.new.items ≡ out.old.items ++ byte ∷ []) }
    ensures same { OnErr result (out.new.items ≡ out.old.items) }
    ensures err { OnErr result (Begins out.old.items out.new.items) }
{
    Ok(out.push(byte)?)
}

/// Appends a number in decimal. Where memory runs out nothing is appended.
#[tactic(auto, using(std::proofs::lemmas::Fmt::decimal_digit))]
pub fn put_number(out: &mut Vec<u8>, number: u64) -> Result<(), OutOfMemory>
    ensures ok { OnOk result (out.new.items ≡ out.old.items ++ decimal number) }
    ensures same { OnErr result (out.new.items ≡ out.old.items) }
    ensures err { OnErr result (Begins out.old.items out.new.items) }
{
    // Most numbers of a trace name a node or a shard.
    if number < 10 {
        return put_byte(out, b'0' + number as u8);
    }
    let mut digits = Buffer::new();
    put(out, digits.format(number).as_bytes())
}

/// Appends a transaction: the node that made it, a dot, its number there. After want of memory the buffer begins with
/// what it held.
pub fn put_txn(out: &mut Vec<u8>, txn: TxId) -> Result<(), OutOfMemory>
    ensures ok { OnOk result (out.new.items ≡ out.old.items ++ txn_text txn) }
    ensures err { OnErr result (Begins out.old.items out.new.items) }
{
    put_number(out, u64::from(txn.home))?;
    put_byte(out, b'.')?;
    put_number(out, u64::from(txn.seq))
}
