//! Names in order, and numbers that ascend.
ghost use Rattle.std.specs.Prelude.{◌≡◌};
ghost use Rattle.tcs_terms.specs.Order.{name_before, ascends};
ghost use Rattle.tcs_terms.specs.Payloads.{same_name};

/// Whether the first name stands before the second, by bytes.
pub fn name_before(first: &[u8], second: &[u8]) -> bool
    ensures { result ≡ name_before first.now second.now }
{
    first.cmp(second).is_lt()
}

/// Whether two names are one.
pub fn same_name(first: &[u8], second: &[u8]) -> bool
    ensures { result ≡ same_name first.now second.now }
{
    first == second
}

/// Whether the numbers strictly ascend.
pub fn ascends(numbers: &[u8]) -> bool
    ensures { result ≡ ascends numbers.now }
{
    let mut left = numbers;
    while let [first, rest @ ..] = left {
        if let [second, ..] = rest
            && first >= second
        {
            return false;
        }
        left = rest;
    }
    true
}
