// A signed record as a line of hex.
ghost use Rattle.std.specs.Prelude.{◌≡◌, ◌++◌, ◌∷◌, [], IfOk};
ghost use Rattle.hex.specs.Hex.{encode_lower};
ghost use Rattle.aip_registry.specs.Record.{record_of};

use aip_addr::Bytes;
use aip_registry::{Record, record_bytes};
use aip_text::{push_hex, push_text};
use lms_core::PublicKey;
use std::alloc::{AllocError, Global};

/// The record with this key and this signature, as a line of hex with its line feed. The only error is want of memory.
pub fn line_of(
    alloc: Global,
    fields: &Record,
    key: &PublicKey,
    signature: &[u8],
) -> Result<Bytes, AllocError>
    ensures { IfOk result (λ line. line ≡ encode_lower (record_of fields.now key.now signature.now) ++ (10 ∷ [])) }
{
    let bytes = record_bytes(alloc, fields, key, signature)?;
    let mut line = Vec::new(alloc);
    push_hex(&mut line, bytes.as_slice())?;
    push_text(&mut line, b"\n")?;
    Ok(Bytes::from_vec(line))
}
