// A record file, read line by line.
ghost use Rattle.std.specs.Prelude.{◌≡◌, ◌≢◌, ◌≤◌, ◌∷◌, [], ℕ, List, Result, Some, None, Ok, IfSome, IfOk, IsErrOf, IsSome};
ghost use Rattle.std.specs.List.{list_any};
ghost use Rattle.std.specs.Str.{bytes_eq};
ghost use Rattle.fault_counts.specs.Causes.{Rose};
ghost use Rattle.aip_text.specs.Lines.{lines_of, most_line_bytes, most_lines};
ghost use Rattle.aip_io.specs.Lines.{left_of, new_lines};
ghost use Rattle.aip_registry.specs.Kept.{kept_records};
ghost use Rattle.aip_topo.specs.declared.topology.Domain.{Domain as NamedDomain};
ghost use Rattle.aip_records.specs.Files.{RefusedRecord, fault_of, is_domain, record_fault, records_of, written};
ghost use Rattle.aip_records.specs.Turns.{EndsWith, HasCome, IsGoing, IsReadOf, IsTurn};

use crate::faults::{RecordFault, RecordsEnd};
use crate::written::{Written, next_written};
use aip_addr::Id;
use aip_io::{Lines, Shelf};
use aip_registry::{Published, Registry, signer_of};
use aip_text::MOST_LINE_BYTES;
use aip_topo::Domain;
use std::alloc::{AllocError, Global};

// What a line of the record file leads to.
#[derive(Clone, Copy, Drop)]
enum Turn {
    // The reading goes on.
    Goes,
    // The file is read to its end.
    Done,
    // The reading ends.
    Ends(RecordsEnd),
}

// Whether a domain has this AD.
fn is_domain(domains: &[Domain], ad: &Id) -> bool
    ensures { result ≡ is_domain domains.now ad.now }
{
    domains.iter().any(|domain| domain.ad == *ad)
}

// The fault that a registry's answer stands for.
fn fault_of(said: Published) -> Option<RecordFault>
    ensures { result ≡ fault_of said }
{
    match said {
        Published::Ok => None,
        Published::Body => Some(RecordFault::Body),
        Published::Key => Some(RecordFault::Key),
        Published::Signature => Some(RecordFault::Signature),
        Published::Old { kept } => Some(RecordFault::Old { kept }),
    }
}

// Publishes the bytes of a line, where their signer is a domain. Answers the first fault that applies.
fn take_record(
    registry: &mut Registry,
    domains: &[Domain],
    bytes: &[u8],
) -> Result<Option<RecordFault>, AllocError>
    ensures fault { IfOk result (λ f. f ≡ record_fault domains.now registry.old bytes.now) }
    ensures kept { IfOk result (λ f. f ≡ None → (published : List (List ℕ)) → registry.old ≡ kept_records published
        → registry.new ≡ kept_records (bytes.now ∷ published)) }
{
    let Some(ad) = signer_of(bytes) else {
        return Ok(Some(RecordFault::Body));
    };
    if !is_domain(domains, &ad) {
        return Ok(Some(RecordFault::Stranger));
    }
    let said = registry.publish(bytes)?;
    Ok(fault_of(said))
}

// Takes the bytes of the line of this number.
fn publish(registry: &mut Registry, domains: &[Domain], number: u32, bytes: &[u8]) -> Turn
    ensures told { (line : List ℕ) (lines : List (List ℕ)) (whole : Result (List (List ℕ)) RefusedRecord)
        → written number line ≡ Ok (Some bytes.now) → HasCome domains.now registry.old number (line ∷ lines) whole
        → IsTurn domains.now registry.new number lines whole result }
    ensures unread { EndsWith RecordsEnd.ReadFault result → ⊥ }
{
    match take_record(registry, domains, bytes) {
        Ok(None) => Turn::Goes,
        Ok(Some(fault)) => Turn::Ends(RecordsEnd::Refused {
            line: number,
            fault,
        }),
        Err(_) => Turn::Ends(RecordsEnd::Memory),
    }
}

// Takes the next line of the record file, which has this number.
fn take_line<S: Shelf>(
    alloc: Global,
    shelf: &mut S,
    name: &str,
    lines: &mut Lines,
    number: u32,
    domains: &[Domain],
    registry: &mut Registry,
) -> Turn
    requires { lines.old.most ≡ most_line_bytes }
    ensures told { IfSome (S.text shelf.old name.now) (λ told. (whole : Result (List (List ℕ)) RefusedRecord)
        → HasCome domains.now registry.old number (lines_of (left_of told lines.old)) whole
        → IsTurn domains.now registry.new number (lines_of (left_of told lines.new)) whole result) }
    ensures few { IsGoing result → number ≤ most_lines }
    ensures most { lines.new.most ≡ most_line_bytes }
    ensures text { (other : List ℕ) → S.text shelf.new other ≡ S.text shelf.old other }
    ensures failed { EndsWith RecordsEnd.ReadFault result → Rose (S.faults shelf.old name.now) (S.faults shelf.new name.now) }
    ensures fine { (EndsWith RecordsEnd.ReadFault result → ⊥) → (other : List ℕ) → S.faults shelf.new other ≡ S.faults shelf.old other }
    ensures never_falls { (other : List ℕ) → S.faults shelf.old other ≤ S.faults shelf.new other }
    ensures others { (other : List ℕ) → other ≢ name.now → IsSome (S.text shelf.old other)
        → S.faults shelf.new other ≡ S.faults shelf.old other }
{
    match next_written(alloc, shelf, name, lines, number) {
        Written::Bytes(bytes) => publish(registry, domains, number, bytes.as_slice()),
        Written::Skipped => Turn::Goes,
        Written::Refused(fault) => Turn::Ends(RecordsEnd::Refused {
            line: number,
            fault,
        }),
        Written::End => Turn::Done,
        Written::Unread => Turn::Ends(RecordsEnd::ReadFault),
        Written::Memory => Turn::Ends(RecordsEnd::Memory),
    }
}

/// Reads the record file of this name, and gives the registry of its records. The first line that is refused ends the
/// reading, with its first fault: of too many lines and too long, of its spelling, and then of its record, which must be
/// signed by one of the domains and be newer than those of its kind, signer and other before it.
pub fn read_records<S: Shelf>(
    alloc: Global,
    shelf: &mut S,
    name: &str,
    domains: &[Domain],
) -> Result<Registry, RecordsEnd>
    ensures read { IfSome (S.text shelf.old name.now) (λ told. IsReadOf (records_of domains.now told) result) }
    ensures text { (other : List ℕ) → S.text shelf.new other ≡ S.text shelf.old other }

    // It fails by a fault at this name alone, and no count rises at another answer.
    ensures failed { IsErrOf result RecordsEnd.ReadFault → Rose (S.faults shelf.old name.now) (S.faults shelf.new name.now) }
    ensures fine { (IsErrOf result RecordsEnd.ReadFault → ⊥) → (other : List ℕ) → S.faults shelf.new other ≡ S.faults shelf.old other }
    ensures never_falls { (other : List ℕ) → S.faults shelf.old other ≤ S.faults shelf.new other }
    ensures others { (other : List ℕ) → other ≢ name.now → IsSome (S.text shelf.old other)
        → S.faults shelf.new other ≡ S.faults shelf.old other }
{
    let mut lines = Lines::new(alloc, MOST_LINE_BYTES)?;
    let mut registry = Registry::new(alloc);
    let mut number = 1;
    'turns: loop {
        match take_line(
            alloc,
            shelf,
            name,
            &mut lines,
            number,
            domains,
            &mut registry,
        ) {
            Turn::Goes => number += 1,
            Turn::Done => return Ok(registry),
            Turn::Ends(end) => return Err(end),
        }
    }
}
