//! Ten accounts, and the payload that moves an amount from one to another.
ghost use Rattle.std.specs.Prelude.{◌≡◌, ◌<◌, ◌≤◌, ◌-◌, ◌+◌, ◌%◌, ◌^◌, ◌==◌, false, IfOk, IfErr};
ghost use Rattle.store_client.specs.declared.faults.SessionFault.TheVariants.{OutOfMemory as no_memory};
ghost use Rattle.generator.specs.Accounts.{account_name, balance_bytes, balance_of, amount_of, with_byte, transfer_payload};

use std::alloc::Global;
use store_client::{Session, SessionFault};
use tcs_terms::{Name, Payload, Value};

/// What a transfer read of an account: the account's number, 0 to 9, and the version and the value that were told.
#[derive(Debug, Drop)]
pub struct Reading {
    pub account: u8,
    pub version: u64,
    pub value: Value,
}

/// The object of an account: acc0 to acc9.
pub(crate) fn account_name(account: u8) -> Name
    requires { account < 10 }
    ensures { result ≡ account_name account }
{
    Name::of(&[b'a', b'c', b'c', b'0' + account])
}

/// A number with one byte more behind it, within 64 bits.
fn with_byte(number: u64, byte: u8) -> u64
    ensures { result ≡ with_byte number byte }
{
    number.wrapping_mul(256).wrapping_add(u64::from(byte))
}

/// The balance that a value tells: 1,000 where nothing was written yet.
fn balance_of(value: &Value) -> u64
    ensures { result ≡ balance_of value.now }
{
    let bytes = value.bytes();
    if bytes.is_empty() {
        return 1000;
    }
    let mut number = 0;
    for byte in bytes {
        number = with_byte(number, *byte);
    }
    number
}

/// A balance as a value: 8 bytes, the high one first.
fn balance_value(balance: u64) -> Value
    ensures { result ≡ balance_bytes balance }
{
    Value::of(&balance.to_be_bytes())
}

/// The amount that a word names, 1 to 10, or nothing where the balance does not have it.
fn amount_of(balance: u64, word: u32) -> u64
    ensures value { result ≡ amount_of balance word }
    ensures within { result ≤ balance }
    ensures small { result ≤ 10 }
{
    let amount = 1 + u64::from(word % 10);
    if balance < amount { 0 } else { amount }
}

/// The payload of a session that was given both readings in their order, and moves the amount that a word names. Two
/// accounts are read, at versions that leave one above them, so the session refuses nothing: memory alone can lack.
pub(crate) fn transfer_payload(
    alloc: Global,
    from: Reading,
    to: Reading,
    word: u32,
) -> Result<Payload, SessionFault>
    requires from { from.account < 10 }
    requires to { to.account < 10 }
    requires others { (from.account == to.account) ≡ false }
    requires from_room { from.version < 18446744073709551615 }
    requires to_room { to.version < 18446744073709551615 }
    ensures payload { IfOk result (λ payload. payload ≡ transfer_payload from to word) }
    ensures memory { IfErr result (λ fault. fault ≡ no_memory) }
{
    let balance = balance_of(&from.value);
    let amount = amount_of(balance, word);
    let higher = balance_of(&to.value).wrapping_add(amount);
    let mut session = Session::begin(alloc);
    session.on_value(account_name(from.account), from.version, from.value)?;
    session.on_value(account_name(to.account), to.version, to.value)?;
    session.put(account_name(from.account), balance_value(balance - amount))?;
    session.put(account_name(to.account), balance_value(higher))?;
    session.commit()
}
