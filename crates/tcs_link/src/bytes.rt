//! The bytes of a frame.
ghost use Rattle.std.specs.Prelude.{◌≡◌, ◌≤◌, length, take, IfOk};

use std::alloc::Global;
use std::marker::Model;
use tcs_terms::OutOfMemory;

/// The bytes of a frame. Seen as their list.
#[derive(Debug, Drop)]
pub struct Bytes {
    list: Vec<u8>,
}

impl Model for Bytes {
    ghost use Rattle.std.specs.Prelude.{List, ℕ};

    ghost Value = { List ℕ };

    ghost view = { λ b. b.list.items };
}

impl Bytes {
    pub fn build(list: Vec<u8>) -> Bytes
        ensures { result ≡ list.items }
    {
        Bytes { list }
    }

    /// Bytes of their own that equal these.
    pub fn of(alloc: Global, bytes: &[u8]) -> Result<Bytes, OutOfMemory>
        ensures { IfOk result (λ b. b ≡ bytes.now) }
    {
        Ok(Bytes {
            list: Vec::from_slice(alloc, bytes)?,
        })
    }

    pub fn list(&self) -> &[u8]
        ensures { result.now ≡ self.now }
    {
        self.list.as_slice()
    }

    /// Keeps at most so many of the first bytes, and copies what is kept to the front of the buffer of that length.
    pub(crate) fn cut_into(&mut self, buf: &mut [u8]) -> usize
        ensures cut { self.new ≡ take (length buf.old) self.old }
        ensures number { result ≡ length self.new }
        ensures within { result ≤ length buf.old }
        ensures given { take result buf.new ≡ self.new }
    {
        self.list.truncate(buf.len());
        let len = self.list.len();
        buf[..len].copy_from_slice(&self.list);
        len
    }
}
