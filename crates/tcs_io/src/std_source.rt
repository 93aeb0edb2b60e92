//! Standard input, and whatever else std reads from.
ghost use Rattle.std.specs.Prelude.{◌≡◌, ◌<◌, ◌≤◌, None, length, IfOk, OnOk, OnErr};
ghost use Rattle.std.specs.Io.KnownBytes.{ReadConsumes};
ghost use Rattle.tcs_io.specs.Faults.{last_u64, one_more};

use crate::{Failed, Source};
use std::alloc::{AllocError, Global};
use std::io::{BufReader, Read};
use std::marker::Model;

/// Reads through a buffer, and counts each error in 64 bits, up to the last value. As a source it tells no bytes, since
/// std tells those of few readers. Contracts see it as its count, and as the bytes that are left by std's account: it
/// gives exactly these, one after the other.
#[derive(Debug, Drop)]
pub struct StdSource<R: Read> {
    reader: BufReader<R>,
    faults: u64,
}

impl<R: Read> Model for StdSource<R> {
    ghost use Rattle.std.specs.Io.Buffered.{reader_remaining};
    ghost use Rattle.tcs_io.specs.Streams.{Input};

    ghost Value = { Input };

    ghost view = { λ source. record { remaining = reader_remaining R.remaining source.reader; faults = source.faults } };
}

impl<R: Read + Drop> StdSource<R> {
    /// Reads from this reader. It fails only for want of memory, and then drops the reader.
    pub fn new(alloc: Global, reader: R) -> Result<Self, AllocError>
        ensures faults { IfOk result (λ source. source.faults ≡ 0) }
        ensures bytes { IfOk result (λ source. source.remaining ≡ R.remaining reader) }
    {
        let reader = BufReader::new(alloc, reader).map_err(|_| AllocError)?;
        Ok(StdSource { reader, faults: 0 })
    }
}

impl<R: Read> Source for StdSource<R> {
    ghost faults = { λ source. source.faults };

    ghost left = { λ _. None };

    fn read(&mut self, buf: &mut [u8]) -> Result<usize, Failed>
        requires { 0 < length buf.old }

        ensures within { IfOk result (λ n. n ≤ length buf.old) }
        // What std's reader has left is given, and only then is it gone.
        ensures passed { ReadConsumes self.old.remaining self.new.remaining result buf.new }
        ensures ok { OnOk result (self.new.faults ≡ self.old.faults) }
        ensures failed { OnErr result (self.new.faults ≡ one_more self.old.faults) }

        ensures count { self.old.faults ≤ self.new.faults }
        ensures limit { self.new.faults ≤ last_u64 }
    {
        let faults = self.faults;
        match self.reader.read(buf) {
            Ok(n) => Ok(n),
            Err(_) => {
                self.faults = faults.saturating_add(1);
                Err(Failed)
            }
        }
    }
}

#[cfg(test)]
mod tests {
    use super::*;
    use std::io;
    use std::test::Fail;

    // Gives "ab", fails, gives "c", and is then at its end.
    #[derive(Drop)]
    struct Torn {
        turn: u8,
    }

    impl Read for Torn {
        fn read(&mut self, buf: &mut [u8]) -> io::Result<usize> {
            self.turn = self.turn.saturating_add(1);
            let mut bytes: &[u8] = match self.turn {
                1 => b"ab",
                2 => return Err(io::Error::other("torn")),
                3 => b"c",
                _ => b"",
            };
            bytes.read(buf)
        }
    }

    #[test]
    fn counts_an_error_and_goes_on(rt: HostRuntime) -> Result<(), Fail> {
        let mut source = StdSource::new(rt.alloc(), Torn { turn: 0 })?;
        let mut byte = [0u8];
        for (want, faults) in [
            (Ok(b'a'), 0),
            (Ok(b'b'), 0),
            (Err(Failed), 1),
            (Ok(b'c'), 1),
        ] {
            assert_eq!(rt; source.read(&mut byte).map(|_| byte[0]), want);
            assert_eq!(rt; source.faults, faults);
        }
        assert_eq!(rt; source.read(&mut byte), Ok(0));
        Ok(())
    }

    #[test]
    fn the_count_stays_at_its_last_value(rt: HostRuntime) -> Result<(), Fail> {
        let mut source = StdSource::new(rt.alloc(), Torn { turn: 1 })?;
        source.faults = u64::MAX;
        assert_eq!(rt; source.read(&mut [0u8]), Err(Failed));
        assert_eq!(rt; source.faults, u64::MAX);
        Ok(())
    }
}
