ghost use Rattle.std.specs.Prelude.{◌≡◌, ◌≢◌, ℕ, ◌^◌, ◌<◌, ◌≤◌, ◌++◌, ◌∷◌, [], List, length, ◌==◌, position, if◌then◌else◌, Some, None, IfOk, IfSome, IsTrue, decimal};
ghost use Rattle.std.specs.List.{list_all};
ghost use Rattle.std.specs.Option.{option_map};
ghost use Rattle.aip_addr.specs.Naming.{is_digit};
ghost use Rattle.hex.specs.Hex.{IsBytes, encode_lower};
ghost use Rattle.aip_text.specs.Words.{bytes_of, bytes_word, cut, cut_at, has_first_digit, hex_of, hex_sized, is_lower_digit, number_of, u64_of, IsNumber};

use aip_addr::Bytes;
use hex::FromHexError;
use std::alloc::{AllocError, Global};

/// The most digits of a number.
const MOST_DIGITS: usize = 15;

/// The number below 10^15 that the word spells in decimal, without a leading zero, and None where it
/// is no such number.
pub fn read_number(word: &[u8]) -> Option<u64>
    ensures exact { result ≡ number_of word.now }
    ensures found { IfSome result (λ n. IsNumber n × (word.now ≡ decimal n)) }
    ensures again { (n : ℕ) → IsNumber n → word.now ≡ decimal n → result ≡ Some n }
{
    number_in(word)
}

fn number_in(word: &[u8]) -> Option<u64>
    ensures { result ≡ number_of word.now }
{
    if word.len() > MOST_DIGITS {
        None
    } else {
        u64_in(word)
    }
}

/// The number below 2^64 that the word spells in decimal, without a leading zero, and None where it
/// is no such number.
pub fn read_u64(word: &[u8]) -> Option<u64>
    ensures exact { result ≡ u64_of word.now }
    ensures found { IfSome result (λ n. (n < 2 ^ 64) × (word.now ≡ decimal n)) }
    ensures again { (n : ℕ) → n < 2 ^ 64 → word.now ≡ decimal n → result ≡ Some n }
{
    u64_in(word)
}

fn u64_in(word: &[u8]) -> Option<u64>
    ensures { result ≡ u64_of word.now }
{
    if !has_first_digit(word) || !has_digits(word) {
        return None;
    }
    match str::from_utf8(word) {
        Ok(digits) => match u64::from_str_radix(digits, 10) {
            Ok(number) => Some(number),
            Err(_) => None,
        },
        Err(_) => None,
    }
}

fn has_first_digit(word: &[u8]) -> bool
    ensures { result ≡ has_first_digit word.now }
{
    match word {
        [] => false,
        [_] => true,
        [first, ..] => *first != b'0',
    }
}

fn has_digits(word: &[u8]) -> bool
    ensures { result ≡ list_all is_digit word.now }
{
    word.iter().all(|&b| matches!(b, b'0'..=b'9'))
}

/// The bytes that the word spells in hex: one or more pairs of digits in lower case, the high four
/// bits first. The only error is want of memory.
pub fn read_hex(alloc: Global, word: &[u8]) -> Result<Option<Bytes>, AllocError>
    ensures exact { IfOk result (λ bytes. bytes ≡ hex_of word.now) }
    ensures found { IfOk result (λ r. IfSome r (λ bytes. IsBytes bytes × (bytes ≢ []) × (word.now ≡ encode_lower bytes))) }
    ensures again { IfOk result (λ r. (bytes : List ℕ) → IsBytes bytes → bytes ≢ [] → word.now ≡ encode_lower bytes → r ≡ Some bytes) }
{
    hex_in(alloc, word)
}

fn hex_in(alloc: Global, word: &[u8]) -> Result<Option<Bytes>, AllocError>
    ensures { IfOk result (λ bytes. bytes ≡ hex_of word.now) }
{
    if word.is_empty() || !has_lower_digits(word) {
        return Ok(None);
    }
    match hex::decode(alloc, word) {
        Ok(bytes) => Ok(Some(Bytes::from_vec(bytes))),
        Err(FromHexError::OutOfMemory) => Err(AllocError),
        Err(_) => Ok(None),
    }
}

/// The bytes that the word writes: none for `-`, or those of its hex as `read_hex` takes it. The
/// only error is want of memory.
pub fn read_bytes(alloc: Global, word: &[u8]) -> Result<Option<Bytes>, AllocError>
    ensures exact { IfOk result (λ bytes. bytes ≡ bytes_of word.now) }
    ensures found { IfOk result (λ r. IfSome r (λ bytes. IsBytes bytes × (word.now ≡ bytes_word bytes))) }
    ensures again { IfOk result (λ r. (bytes : List ℕ) → IsBytes bytes → word.now ≡ bytes_word bytes → r ≡ Some bytes) }
{
    bytes_in(alloc, word)
}

fn bytes_in(alloc: Global, word: &[u8]) -> Result<Option<Bytes>, AllocError>
    ensures { IfOk result (λ bytes. bytes ≡ bytes_of word.now) }
{
    if word == b"-".as_slice() {
        return Ok(Some(Bytes::from_vec(Vec::new(alloc))));
    }
    hex_in(alloc, word)
}

/// The bytes that the word spells in hex, by just two digits in lower case for each of them, the
/// high four bits first.
pub fn read_hex_array<const N: usize>(word: &[u8]) -> Option<[u8; N]>
    ensures exact { result ≡ hex_sized N word.now }
    ensures found { IfSome result (λ bytes. IsBytes bytes × (word.now ≡ encode_lower bytes)) }
    ensures again { (bytes : List ℕ) → IsBytes bytes → length bytes ≡ N → word.now ≡ encode_lower bytes → result ≡ Some bytes }
{
    hex_array_in(word)
}

fn hex_array_in<const N: usize>(word: &[u8]) -> Option<[u8; N]>
    ensures { result ≡ hex_sized N word.now }
{
    let mut bytes = [0; N];
    if fill_from_hex(word, &mut bytes) {
        Some(bytes)
    } else {
        None
    }
}

// Whether the word is hex for just as many bytes as there is room for. They are written then.
fn fill_from_hex(word: &[u8], room: &mut [u8]) -> bool
    ensures { (if result then Some room.new else None) ≡ hex_sized (length room.old) word.now }
{
    if !has_lower_digits(word) {
        return false;
    }
    match hex::decode_to_slice(word, room) {
        Ok(()) => true,
        Err(_) => false,
    }
}

fn has_lower_digits(word: &[u8]) -> bool
    ensures { result ≡ list_all is_lower_digit word.now }
{
    word.iter()
        .all(|&b| matches!(b, b'0'..=b'9') || matches!(b, b'a'..=b'f'))
}

/// The word before the first space of a line, and what follows that space. None where there is no
/// space.
pub fn cut(line: &[u8]) -> Option<(&[u8], &[u8])>
    ensures exact { option_map (λ parts. (parts.0.now, parts.1.now)) result ≡ cut line.now }
{
    cut_at(line, b' ')
}

/// What stands before the first such byte of the text, and what follows it. None where there is no
/// such byte.
pub fn cut_at(text: &[u8], byte: u8) -> Option<(&[u8], &[u8])>
    ensures exact { option_map (λ parts. (parts.0.now, parts.1.now)) result ≡ cut_at byte text.now }
{
    match place_of(text, byte) {
        Some(at) => Some((&text[..at], &text[at + 1..])),
        None => None,
    }
}

// The place of the first such byte.
pub(crate) fn place_of(bytes: &[u8], byte: u8) -> Option<usize>
    ensures place { result ≡ position (λ b. b == byte) bytes.now }
    ensures inside { IfSome result (λ at. at < length bytes.now) }
{
    bytes.iter().position(|&b| b == byte)
}
