//! Short lists of bytes, which lie in the value that holds them.
ghost use Rattle.std.specs.Prelude.{◌≡◌, ◌≤◌, length};

use arrayvec::ArrayVec;

/// The list of these bytes, of which there are few enough.
pub(crate) fn inline<const CAP: usize>(bytes: &[u8]) -> ArrayVec<u8, CAP>
    requires { length bytes.now ≤ CAP }
    ensures { result.items ≡ bytes.now }
{
    let mut list = ArrayVec::new();
    let _fits = list.try_extend_from_slice(bytes);
    list
}
