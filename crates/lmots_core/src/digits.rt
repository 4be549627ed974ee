// The digits that a signature signs: those of the message's hash, and of its checksum (RFC 8554, section 4.4).

ghost use Rattle.std.specs.Prelude.{◌≡◌, ℕ, ◌+◌, ◌*◌, ◌/◌, ◌<◌, ◌≤◌, ◌++◌, length};
ghost use Rattle.std.specs.Int.{w16, to_be_bytes};
ghost use Rattle.lmots_core.specs.Parameters.{bits_of, chains_of, greatest_of};
ghost use Rattle.lmots_core.specs.Chains.{checksum, coefficient, digit, shortfall};

use crate::parameters::Width;

// Digit `i` of `bytes` (RFC 8554, section 3.1.3).
pub(crate) fn coefficient(bytes: &[u8], i: usize, width: Width) -> u8
    requires { i * bits_of width / 8 < length bytes.now }
    ensures value { result ≡ coefficient bytes.now i (bits_of width) }
    ensures digit { result ≤ greatest_of width }
{
    match width {
        Width::W1 => 1 & (bytes[i / 8] >> (7 - i % 8)),
        Width::W2 => 3 & (bytes[i / 4] >> (6 - 2 * (i % 4))),
        Width::W4 => 15 & (bytes[i / 2] >> (4 - 4 * (i % 2))),
        Width::W8 => bytes[i],
    }
}

// How far the digits of a hash lie below the greatest digit, in sum.
fn shortfall(width: Width, hash: &[u8; 32]) -> u16
    ensures value { result ≡ shortfall hash.now (bits_of width) (256 / bits_of width) }
    ensures small { result ≤ greatest_of width * (256 / bits_of width) }
{
    let mut sum = 0u16;
    'digits: for i in 0..width.hash_digits() {
        sum += u16::from(width.greatest() - coefficient(hash, i, width));
    }
    sum
}

// The hash and its checksum, whose digits are signed.
pub(crate) fn with_checksum(width: Width, hash: &[u8; 32]) -> [u8; 34]
    ensures { result ≡ hash.now ++ to_be_bytes w16 (checksum width hash.now) }
{
    let checksum = shortfall(width, hash) << width.shift();
    let mut bytes = [0; 34];
    let (front, back) = bytes.split_at_mut(32);
    front.copy_from_slice(hash);
    back.copy_from_slice(&checksum.to_be_bytes());
    bytes
}

// Digit `i` of a hash and its checksum.
pub(crate) fn digit(width: Width, bytes: &[u8; 34], i: usize) -> u8
    requires { i < chains_of width }
    ensures value { result ≡ coefficient bytes.now i (bits_of width) }
    ensures digit { result ≤ greatest_of width }
{
    coefficient(bytes, i, width)
}
