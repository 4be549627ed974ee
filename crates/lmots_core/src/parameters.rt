// The four parameter sets of LM-OTS with SHA-256 and n = 32 (RFC 8554, section 4.1, table 1).

ghost use Rattle.std.specs.Prelude.{◌≡◌, ◌/◌};
ghost use Rattle.lmots_core.specs.Parameters.{bits_of, chains_of, code_of, greatest_of, shift_of, signature_len_of, width_of};

/// The width w of a digit, in bits, which names the parameter set: a wider digit makes a shorter signature, and takes
/// more hashes.
#[derive(Clone, Copy, PartialEq, Eq, Debug)]
pub enum Width {
    /// Digits of one bit: LMOTS_SHA256_N32_W1.
    W1,
    /// Digits of two bits: LMOTS_SHA256_N32_W2.
    W2,
    /// Digits of four bits: LMOTS_SHA256_N32_W4.
    W4,
    /// Digits of eight bits: LMOTS_SHA256_N32_W8.
    W8,
}

impl Width {
    /// The typecode: 1, 2, 3 or 4.
    pub fn code(self) -> u32
        ensures { result ≡ code_of self }
    {
        match self {
            Width::W1 => 1,
            Width::W2 => 2,
            Width::W4 => 3,
            Width::W8 => 4,
        }
    }

    /// The width of a typecode: `None` exactly where the code isn't 1 to 4.
    pub fn from_code(code: u32) -> Option<Width>
        ensures { result ≡ width_of code }
    {
        match code {
            1 => Some(Width::W1),
            2 => Some(Width::W2),
            3 => Some(Width::W4),
            4 => Some(Width::W8),
            _ => None,
        }
    }

    /// The number p of chains: 265, 133, 67 or 34.
    pub fn chains(self) -> usize
        ensures { result ≡ chains_of self }
    {
        match self {
            Width::W1 => 265,
            Width::W2 => 133,
            Width::W4 => 67,
            Width::W8 => 34,
        }
    }

    /// The length of a signature in bytes: 8516, 4292, 2180 or 1124.
    pub fn signature_len(self) -> usize
        ensures { result ≡ signature_len_of self }
    {
        match self {
            Width::W1 => 8516,
            Width::W2 => 4292,
            Width::W4 => 2180,
            Width::W8 => 1124,
        }
    }

    // The greatest digit, 2^w - 1: the number of steps of a whole chain.
    pub(crate) fn greatest(self) -> u8
        ensures { result ≡ greatest_of self }
    {
        match self {
            Width::W1 => 1,
            Width::W2 => 3,
            Width::W4 => 15,
            Width::W8 => 255,
        }
    }

    // The number 256 / w of digits of a hash.
    pub(crate) fn hash_digits(self) -> usize
        ensures { result ≡ 256 / bits_of self }
    {
        match self {
            Width::W1 => 256,
            Width::W2 => 128,
            Width::W4 => 64,
            Width::W8 => 32,
        }
    }

    // How far the checksum is shifted to the left.
    pub(crate) fn shift(self) -> u32
        ensures { result ≡ shift_of self }
    {
        match self {
            Width::W1 => 7,
            Width::W2 => 6,
            Width::W4 => 4,
            Width::W8 => 0,
        }
    }
}
