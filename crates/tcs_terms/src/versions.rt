//! The versions of the protocol.
ghost use Rattle.std.specs.Prelude.{◌≡◌, Some};
ghost use Rattle.tcs_terms.specs.Versions.{version_number, version_numbered};

/// A version of the protocol.
#[derive(Clone, Copy, Debug, PartialEq, Eq, Hash)]
pub enum Version {
    One,
    /// With state in pieces, and with range reads.
    Two,
}

impl Version {
    /// Its number: 1 or 2.
    pub fn number(self) -> u8
        ensures number { result ≡ version_number self }
        ensures back { version_numbered result ≡ Some self }
    {
        match self {
            Version::One => 1,
            Version::Two => 2,
        }
    }

    /// The version of that number, where it is 1 or 2.
    pub fn numbered(number: u8) -> Option<Version>
        ensures { result ≡ version_numbered number }
    {
        match number {
            1 => Some(Version::One),
            2 => Some(Version::Two),
            _ => None,
        }
    }
}
