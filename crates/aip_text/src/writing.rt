ghost use Rattle.std.specs.Prelude.{◌≡◌, ◌++◌, ◌∷◌, [], OnOk, OnErr, decimal};
ghost use Rattle.hex.specs.Hex.{encode_lower};
ghost use Rattle.aip_text.specs.Words.{Continues, bytes_word};

use itoa::Buffer;
use std::alloc::AllocError;

/// Appends the number in decimal, without a leading zero.
pub fn push_number(out: &mut Vec<u8>, number: u64) -> Result<(), AllocError>
    ensures ok { OnOk result (out.new.items ≡ out.old.items ++ decimal number) }
    ensures err { OnErr result (out.new.items ≡ out.old.items) }
{
    out.extend_from_slice(Buffer::new().format(number).as_bytes())
}

/// Appends the bytes in hex, the high four bits first, in lower case.
pub fn push_hex(out: &mut Vec<u8>, bytes: &[u8]) -> Result<(), AllocError>
    ensures ok { OnOk result (out.new.items ≡ out.old.items ++ encode_lower bytes.now) }
    ensures err { OnErr result (out.new.items ≡ out.old.items) }
{
    let start = out.len();
    out.reserve(2 * bytes.len())?;
    out.resize(start + 2 * bytes.len(), 0)?;
    let (_, room) = out.split_at_mut(start);
    hex::encode_to_slice(bytes, room).unwrap();
    Ok(())
}

/// Appends `-` where there are no bytes, and else the bytes in hex.
pub fn push_bytes(out: &mut Vec<u8>, bytes: &[u8]) -> Result<(), AllocError>
    ensures ok { OnOk result (out.new.items ≡ out.old.items ++ bytes_word bytes.now) }
    ensures err { OnErr result (out.new.items ≡ out.old.items) }
{
    if bytes.is_empty() {
        push_text(out, b"-")
    } else {
        push_hex(out, bytes)
    }
}

/// Appends the bytes of a text as they are.
pub fn push_text(out: &mut Vec<u8>, text: &[u8]) -> Result<(), AllocError>
    ensures ok { OnOk result (out.new.items ≡ out.old.items ++ text.now) }
    ensures err { OnErr result (out.new.items ≡ out.old.items) }
{
    out.extend_from_slice(text)
}

/// Appends a space.
pub fn push_space(out: &mut Vec<u8>) -> Result<(), AllocError>
    ensures ok { OnOk result (out.new.items ≡ out.old.items ++ 32 ∷ []) }
    ensures err { OnErr result (out.new.items ≡ out.old.items) }
{
    push_text(out, b" ")
}

/// Appends a space and a word. After want of memory the space may stand there alone.
pub fn push_word(out: &mut Vec<u8>, word: &[u8]) -> Result<(), AllocError>
    ensures ok { OnOk result (out.new.items ≡ out.old.items ++ 32 ∷ word.now) }
    ensures err { OnErr result (Continues out.old.items out.new.items) }
{
    push_space(out)?;
    push_text(out, word)
}
