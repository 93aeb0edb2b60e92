//! Names and values of objects.
ghost use Rattle.tcs_terms.specs.Objects.{is_name_byte, IsName};
ghost use Rattle.tcs_terms.specs.ObjectFaults.{name_fault};
ghost use Rattle.std.specs.Prelude.{◌≡◌, not, position, Some, IfOk, IfErr, OnOk, nat_eq, refl};
ghost use Rattle.std.specs.Ordering.{nat_cmp};
ghost use Rattle.std.specs.Cmp.{partial_equiv_from_equiv};
ghost use Rattle.std.specs.Cmp.Lexicographic.{pointwise, slice_cmp, nat_list_eq_equiv, nat_list_cmp_total, texts_po, texts_ties};

use crate::faults::{NameFault, ValueFault};
use crate::inline::inline;
use crate::limits::{MAX_NAME, MAX_VALUE};
use crate::memory::OutOfMemory;
use arrayvec::{ArrayString, ArrayVec};
use std::alloc::Global;
use std::cmp::Ordering;
use std::marker::Model;
use std::str;

/// Whether a byte may stand in a name: `a` to `z`, `0` to `9` and `_`.
pub fn is_name_byte(byte: u8) -> bool
    ensures { result ≡ is_name_byte byte }
{
    matches!(byte, b'a'..=b'z' | b'0'..=b'9' | b'_')
}

/// The place, from 0, of the first byte that may not stand in a name.
pub fn strange_byte(bytes: &[u8]) -> Option<usize>
    ensures { result ≡ position (λ b. not (is_name_byte b)) bytes.now }
{
    bytes.iter().position(|byte| !is_name_byte(*byte))
}

/// The place at which bytes are no name.
fn name_fault(bytes: &[u8]) -> Option<usize>
    ensures { result ≡ name_fault bytes.now }
{
    if bytes.is_empty() || bytes.len() > MAX_NAME {
        Some(bytes.len())
    } else {
        strange_byte(bytes)
    }
}

/// The name of an object: 1 to 32 bytes of `a` to `z`, `0` to `9` and `_`, which lie in the value itself. Seen as the
/// list of its bytes, which also give names their order. As text they are compared eight at a time.
#[derive(Debug, Drop)]
pub struct Name {
    text: ArrayString<MAX_NAME>,
}

impl Model for Name {
    ghost use Rattle.std.specs.Prelude.{List, ℕ};
    ghost use Rattle.tcs_terms.specs.Objects.{IsName};

    ghost Value = { List ℕ };

    ghost view = { λ n. n.text.bytes };

    ghost invariant = { λ n. IsName n.text.bytes };
}

impl Name {
    ghost use Rattle.tcs_terms.specs.Objects.{IsName};
    ghost use Rattle.tcs_terms.specs.ObjectFaults.{NameRefused};

    /// The name of these bytes.
    ///
    /// # Errors
    /// `Bad` with the length, where there are no bytes or more than 32, else with the place of the first byte outside
    /// the alphabet.
    #[tactic(auto, using(crate::proofs::NameLaws::is_name_without_fault))]
    pub fn build(_alloc: Global, bytes: &[u8]) -> Result<Name, NameFault>
        ensures ok { OnOk result (IsName bytes.now) }
        ensures value { IfOk result (λ n. n ≡ bytes.now) }
        ensures refusal { IfErr result (NameRefused bytes.now) }
    {
        match name_fault(bytes) {
            Some(place) => Err(NameFault::Bad(place)),
            None => Ok(Name::of(bytes)),
        }
    }

    /// The name of bytes that are one.
    pub fn of(bytes: &[u8]) -> Name
        requires { IsName bytes.now }
        ensures { result ≡ bytes.now }
    {
        Name {
            text: text_of(bytes),
        }
    }

    /// Another name of the same bytes.
    pub fn copy(&self, _alloc: Global) -> Result<Name, OutOfMemory>
        ensures { IfOk result (λ n. n ≡ self.now) }
    {
        Ok(self.again())
    }

    /// Another name of the same bytes, which takes no memory.
    pub fn again(&self) -> Name
        ensures { result ≡ self.now }
    {
        Name { text: self.text }
    }

    /// The bytes of the name.
    pub fn bytes(&self) -> &[u8]
        ensures bytes { result.now ≡ self.now }
        ensures name { IsName self.now }
    {
        self.text.as_str().as_bytes()
    }
}

/// The text of the bytes of a name.
fn text_of(bytes: &[u8]) -> ArrayString<MAX_NAME>
    requires { IsName bytes.now }
    ensures { result.bytes ≡ bytes.now }
{
    let mut text = ArrayString::new();
    if let Ok(word) = str::from_utf8(bytes) {
        let _fits = text.try_push_str(word);
    }
    text
}

impl PartialEq for Name {
    ghost eq = { λ s t. pointwise nat_eq s t };

    ghost laws = { partial_equiv_from_equiv nat_list_eq_equiv };

    fn eq(&self, other: &Self) -> bool {
        self.text == other.text
    }
}

impl Eq for Name {
    ghost laws = { nat_list_eq_equiv };
}

impl PartialOrd for Name {
    ghost partial_cmp = { λ s t. Some (slice_cmp nat_cmp s t) };

    ghost laws = { texts_po };

    fn partial_cmp(&self, other: &Self) -> Option<Ordering> {
        Some(self.cmp(other))
    }
}

impl Ord for Name {
    ghost cmp = { λ s t. slice_cmp nat_cmp s t };

    ghost total = { nat_list_cmp_total };

    ghost matches_partial_cmp = { λ s t. refl };

    ghost matches_eq = { λ s t. texts_ties s t };

    fn cmp(&self, other: &Self) -> Ordering {
        self.text.cmp(&other.text)
    }
}

/// The value of an object: 0 to 64 bytes, which lie in the value itself. Seen as the list of its bytes.
#[derive(Debug, Drop)]
pub struct Value {
    bytes: ArrayVec<u8, MAX_VALUE>,
}

impl Model for Value {
    ghost use Rattle.std.specs.Prelude.{List, ℕ};
    ghost use Rattle.tcs_terms.specs.Objects.{IsValue};

    ghost Value = { List ℕ };

    ghost view = { λ v. v.bytes.items };

    ghost invariant = { λ v. IsValue v.bytes.items };
}

impl Value {
    ghost use Rattle.tcs_terms.specs.Objects.{IsValue};
    ghost use Rattle.tcs_terms.specs.ObjectFaults.{ValueRefused};

    /// The value of these bytes.
    ///
    /// # Errors
    /// `TooLong` with the length, where it is above 64.
    pub fn build(_alloc: Global, bytes: &[u8]) -> Result<Value, ValueFault>
        ensures ok { OnOk result (IsValue bytes.now) }
        ensures value { IfOk result (λ v. v ≡ bytes.now) }
        ensures refusal { IfErr result (ValueRefused bytes.now) }
    {
        if bytes.len() > MAX_VALUE {
            return Err(ValueFault::TooLong(bytes.len()));
        }
        Ok(Value::of(bytes))
    }

    /// The value of bytes that are few enough.
    pub fn of(bytes: &[u8]) -> Value
        requires { IsValue bytes.now }
        ensures { result ≡ bytes.now }
    {
        Value {
            bytes: inline(bytes),
        }
    }

    /// Another value of the same bytes.
    pub fn copy(&self, _alloc: Global) -> Result<Value, OutOfMemory>
        ensures { IfOk result (λ v. v ≡ self.now) }
    {
        Ok(Value::of(self.bytes()))
    }

    /// The bytes of the value.
    pub fn bytes(&self) -> &[u8]
        ensures bytes { result.now ≡ self.now }
        ensures value { IsValue self.now }
    {
        self.bytes.as_slice()
    }
}
