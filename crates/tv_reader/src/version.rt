//! The versions of the store format.

ghost use Rattle.std.specs.Prelude.{◌≡◌, Ok, Err, MatchOption, Some};
ghost use Rattle.tv_format.specs.WriteVersion.{written_version};
ghost use Rattle.tv_reader.specs.Version.{version_of_number, version_of};

use crate::error::DeserializeError;
use tv_format::WriteVersion;

/// A version of the store format.
#[derive(Clone, Copy, Debug, PartialEq, Eq, PartialOrd, Ord)]
pub enum DocStoreVersion {
    /// Dates are microseconds since 1970.
    V1 = 1,
    /// Dates are nanoseconds since 1970.
    V2 = 2,
    /// As version 2, but that an object announces the number of its entries, and that its keys have no code.
    V3 = 3,
}

impl DocStoreVersion {
    /// The version of this number. Every number other than 1, 2 and 3 is refused as `UnsupportedVersion`, with itself and the
    /// largest that there is, 3.
    pub fn from_u32(number: u32) -> Result<DocStoreVersion, DeserializeError>
        ensures { MatchOption (version_of_number number)
            (result ≡ Err (DeserializeError.UnsupportedVersion number 3))
            (λ version. result ≡ Ok version) }
    {
        match number {
            1 => Ok(DocStoreVersion::V1),
            2 => Ok(DocStoreVersion::V2),
            3 => Ok(DocStoreVersion::V3),
            _ => Err(DeserializeError::UnsupportedVersion(number, 3)),
        }
    }

    /// The number of the version, of which `from_u32` makes it again. (Not in tantivy.)
    pub fn to_u32(self) -> u32
        ensures { version_of_number result ≡ Some self }
    {
        match self {
            DocStoreVersion::V1 => 1,
            DocStoreVersion::V2 => 2,
            DocStoreVersion::V3 => 3,
        }
    }

    /// The version as one that is written; `None` for version 1, which is only read. (Not in tantivy.)
    #[inline(always)]
    pub fn written(self) -> Option<WriteVersion>
        ensures { MatchOption result (self ≡ DocStoreVersion.V1)
            (λ known. written_version known ≡ version_of self) }
    {
        match self {
            DocStoreVersion::V1 => None,
            DocStoreVersion::V2 => Some(WriteVersion::V2),
            DocStoreVersion::V3 => Some(WriteVersion::V3),
        }
    }
}
