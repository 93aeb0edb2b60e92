//! The smallest payload that writes, and the largest.

use anyhow::Error;
use std::alloc::Global;
use tcs_terms::Payload;
use text_words::read_payload;

/// One read and one write, of a name of one byte and a value of one byte.
pub fn smallest(alloc: Global) -> Result<Payload, Error> {
    Ok(read_payload(alloc, b"v 1 r a 0 w a 05", 1)?)
}

/// 16 reads and 16 writes, of names of 32 bytes and values of 64 bytes.
pub fn largest(alloc: Global) -> Result<Payload, Error> {
    let mut text = format!(in alloc; "v 2")?;
    for object in 0..16 {
        text.push_str(&format!(in alloc; " r {object:032} 1")?)?;
    }
    for object in 0..16 {
        text.push_str(&format!(in alloc; " w {object:032} {object:0128}")?)?;
    }
    Ok(read_payload(alloc, text.as_bytes(), 1)?)
}
