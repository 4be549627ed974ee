// The records that a registry keeps, as text.
ghost use Rattle.std.specs.Prelude.{◌≡◌, ◌++◌, ◌∷◌, [], decimal, OnOk, IfOk};
ghost use Rattle.aip_records.specs.Listing.{list_text, record_line};

use aip_registry::{Record, Registry};
use aip_text::{push_hex, push_number, push_space, push_text};
use std::alloc::{AllocError, Global};

// Appends the numbers of a record, and ends the line.
fn push_numbers(out: &mut Vec<u8>, number: u64, until: u64) -> Result<(), AllocError>
    ensures { OnOk result (out.new.items ≡ out.old.items ++ (32 ∷ (decimal number ++ (32 ∷ (decimal until ++ 10 ∷ []))))) }
{
    push_space(out)?;
    push_number(out, number)?;
    push_space(out)?;
    push_number(out, until)?;
    push_text(out, b"\n")
}

fn push_record(out: &mut Vec<u8>, fields: &Record) -> Result<(), AllocError>
    ensures { OnOk result (out.new.items ≡ out.old.items ++ record_line fields.now) }
{
    push_text(out, fields.kind.word())?;
    push_space(out)?;
    push_hex(out, &fields.ad.bytes)?;
    push_space(out)?;
    push_hex(out, &fields.other.bytes)?;
    push_numbers(out, fields.number, fields.until)
}

fn push_records(out: &mut Vec<u8>, records: &[Record]) -> Result<(), AllocError>
    ensures { OnOk result (out.new.items ≡ out.old.items ++ list_text records.now) }
{
    for fields in records {
        push_record(out, fields)?;
    }
    Ok(())
}

/// The records that a registry keeps, a line for each, in the order of its list: `peer` or `bind`, the signer's AD, the
/// peer's AD or the host's EID, the number, and the tick until which it is in force. The only error is want of memory.
pub fn list_text(alloc: Global, registry: &Registry) -> Result<Vec<u8>, AllocError>
    ensures { IfOk result (λ text. text.items ≡ list_text registry.now) }
{
    let mut out = Vec::new(alloc);
    let records = registry.list(alloc)?;
    push_records(&mut out, &records)?;
    Ok(out)
}
