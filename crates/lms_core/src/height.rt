// The two parameter sets of LMS with SHA-256 and m = 32 that are used (RFC 8554, section 5.1, table 2).

ghost use Rattle.std.specs.Prelude.{◌≡◌};
ghost use Rattle.lms_core.specs.Parameters.{height_code_of, height_of, leaves_of, levels_of, signature_len_of};

use lmots_core::Width;

/// The height h of a tree, which names the parameter set: the tree has 2^h leaves, and each signs once.
#[derive(Clone, Copy, PartialEq, Eq, Debug)]
pub enum Height {
    /// 32 leaves: LMS_SHA256_M32_H5.
    H5,
    /// 1024 leaves: LMS_SHA256_M32_H10.
    H10,
}

impl Height {
    /// The typecode: 5 or 6.
    pub fn code(self) -> u32
        ensures { result ≡ height_code_of self }
    {
        match self {
            Height::H5 => 5,
            Height::H10 => 6,
        }
    }

    /// The height of a typecode: `None` exactly where the code is neither 5 nor 6.
    pub fn from_code(code: u32) -> Option<Height>
        ensures { result ≡ height_of code }
    {
        match code {
            5 => Some(Height::H5),
            6 => Some(Height::H10),
            _ => None,
        }
    }

    /// The number of levels above the leaves: 5 or 10.
    pub fn levels(self) -> usize
        ensures { result ≡ levels_of self }
    {
        match self {
            Height::H5 => 5,
            Height::H10 => 10,
        }
    }

    /// The number of leaves: 32 or 1024.
    pub fn leaves(self) -> u32
        ensures { result ≡ leaves_of self }
    {
        match self {
            Height::H5 => 32,
            Height::H10 => 1024,
        }
    }
}

/// The length of a signature in bytes (RFC 8554, section 5.4): from 1292 for `W8` and `H5` to 8844 for `W1` and `H10`.
pub fn signature_len(width: Width, height: Height) -> usize
    ensures { result ≡ signature_len_of width height }
{
    4 + width.signature_len() + 4 + 32 * height.levels()
}
