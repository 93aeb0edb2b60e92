//! What bytes are read from.
ghost use Rattle.std.specs.Prelude.{◌≡◌, ℕ, ◌<◌, ◌≤◌, List, [], Option, None, Some, length, IfOk, OnErr};
ghost use Rattle.tcs_io.specs.Bytes.{Moves};
ghost use Rattle.tcs_io.specs.Faults.{Rose, last_u64};

/// Reading failed. Its cause stays with the source, which counts it.
#[derive(Clone, Copy, Debug, PartialEq, Eq)]
pub struct Failed;

/// Gives bytes in order, until there are none.
pub trait Source {
    /// How often reading has failed: a number of 64 bits that never falls, and stays at its last value.
    ghost faults: { Self → ℕ };

    /// The bytes that are left, where the source tells them.
    ghost left: { Self → Option (List ℕ) };

    /// Moves some of the next bytes to the front of the buffer, and answers how many. `Ok(0)` comes only at the end.
    /// `Failed` comes only where the count of faults rose, and takes no byte.
    fn read(&mut self, buf: &mut [u8]) -> Result<usize, Failed>
        requires { 0 < length buf.old }

        ensures within { IfOk result (λ n. n ≤ length buf.old) }
        ensures moved { (rest : List ℕ) → left self.old ≡ Some rest
            → IfOk result (λ n. Moves n rest buf.new (left self.new)) }
        ensures end { (rest : List ℕ) → left self.old ≡ Some rest
            → IfOk result (λ n. n ≡ 0 → rest ≡ []) }
        ensures kept { OnErr result (left self.new ≡ left self.old) }
        ensures untold { left self.old ≡ None → left self.new ≡ None }

        ensures count { faults self.old ≤ faults self.new }
        ensures limit { faults self.new ≤ last_u64 }
        ensures failed { OnErr result (Rose (faults self.old) (faults self.new)) };
}
