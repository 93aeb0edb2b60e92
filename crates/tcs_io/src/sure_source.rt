//! A source in memory that never fails.
ghost use Rattle.std.specs.Prelude.{◌≡◌, ℕ, ◌<◌, ◌≤◌, List, Some, length, take, drop, min, IsOk, IfOk};

use crate::{Failed, Source};
use std::marker::Model;

/// Gives these bytes, as many in each read as the buffer takes. Contracts see it as the bytes that are left.
#[derive(Debug, Drop)]
pub struct SureSource {
    bytes: Vec<u8>,
    at: usize,
}

impl Model for SureSource {
    ghost Value = { List ℕ };

    ghost view = { λ source. drop source.at source.bytes.items };

    ghost invariant = { λ source. source.at ≤ length source.bytes.items };
}

impl SureSource {
    /// A source of these bytes.
    pub fn new(bytes: Vec<u8>) -> Self
        ensures { result ≡ bytes.items }
    {
        SureSource { bytes, at: 0 }
    }

    /// The bytes that are left.
    pub fn left(&self) -> &[u8]
        ensures { result.now ≡ self.now }
    {
        &self.bytes[self.at..]
    }
}

impl Source for SureSource {
    ghost faults = { λ _. 0 };

    ghost left = { λ source. Some source };

    fn read(&mut self, buf: &mut [u8]) -> Result<usize, Failed>
        requires { 0 < length buf.old }

        ensures sure { IsOk result }
        ensures number { IfOk result (λ n. n ≡ min (length self.old) (length buf.old)) }
        ensures given { IfOk result (λ n. take n buf.new ≡ take n self.old) }
        ensures after { IfOk result (λ n. self.new ≡ drop n self.old) }
    {
        let n = copy_front(&self.bytes[self.at..], buf);
        self.at += n;
        Ok(n)
    }
}

// Copies what fits, and answers how much that is.
fn copy_front(from: &[u8], to: &mut [u8]) -> usize
    ensures number { result ≡ min (length from.now) (length to.old) }
    ensures given { take result to.new ≡ take result from.now }
{
    let n = from.len().min(to.len());
    to[..n].copy_from_slice(&from[..n]);
    n
}
