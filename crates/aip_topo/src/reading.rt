ghost use Rattle.std.specs.Prelude.{◌≡◌, ◌<◌, ◌≤◌, ◌+◌, ℕ, IfOk, IfErr, List, OnOk, length, take};
ghost use Rattle.aip_text.specs.Lines.{lines_of};
ghost use Rattle.aip_topo.specs.Meaning.{IsSaid};
ghost use Rattle.aip_topo.specs.Sound.{IsSound};
ghost use Rattle.aip_topo.specs.Reading.{Tells, is_long, topology_of, with_lines, with_text, most_text};

use crate::faults::{TopoEnd, TopoFault};
use crate::indexed::IndexedDraft;
use crate::line_reader::read_line;
use crate::steps::{refused, take};
use crate::topology::Topology;
use aip_text::{MOST_LINE_BYTES, has_carriage_return, is_skipped, next_line};
use std::alloc::Global;

/// The most bytes of a text whose lines are taken, line feeds included.
const MOST_TEXT: usize = 1_048_576;

/// How many bytes of a text decide what it gives: `read` of the first so many bytes of a longer text
/// gives what it gives for the whole text.
pub const MOST_READ: usize = MOST_TEXT + 1;

/// The topology that the text gives, with the trees of the keys that its seeds make. A refusal names
/// the first line that is refused, with the first fault that applies to it. A text of `MOST_READ`
/// bytes gives what each text gives that it is the beginning of.
pub fn read(alloc: Global, text: &[u8]) -> Result<Topology, TopoEnd>
    ensures found { IfOk result (λ topology. topology_of text.now ≡ Ok topology) }
    ensures sound { IfOk result IsSound }
    ensures said { IfOk result (IsSaid text.now) }
    ensures refused { IfErr result (λ end. Tells end (topology_of text.now)) }
    ensures decided { (whole : List ℕ) → text.now ≡ take (most_text + 1) whole → topology_of whole ≡ topology_of text.now }
{
    read_exactly(alloc, text)
}

fn read_exactly(alloc: Global, text: &[u8]) -> Result<Topology, TopoEnd>
    ensures found { IfOk result (λ topology. topology_of text.now ≡ Ok topology) }
    ensures refused { IfErr result (λ end. Tells end (topology_of text.now)) }
{
    let draft = read_lines(alloc, IndexedDraft::new(alloc), text)?;
    Ok(draft.into_topology())
}

fn read_lines(alloc: Global, begun: IndexedDraft, text: &[u8]) -> Result<IndexedDraft, TopoEnd>
    ensures ok { IfOk result (λ last. with_lines (length text.now) 1 0 begun (lines_of text.now) ≡ Ok last) }
    ensures err { IfErr result (λ end. Tells end (with_lines (length text.now) 1 0 begun (lines_of text.now))) }
{
    let mut draft = begun;
    let mut rest = text;
    let mut number = 1;
    let mut start = 0;
    'lines: while let Some(first) = next_line(rest) {
        let after = start + first.line.len() + 1;
        draft = read_text(alloc, draft, number, after.min(text.len()), first.line)?;
        rest = first.rest;
        number += 1;
        start = after;
    }
    Ok(draft)
}

// Reads the line of this number, which ends at this place of the text.
fn read_text(
    alloc: Global,
    draft: IndexedDraft,
    number: u32,
    ending: usize,
    text: &[u8],
) -> Result<IndexedDraft, TopoEnd>
    ensures ok { IfOk result (λ next. with_text number ending draft text.now ≡ Ok next) }
    ensures err { IfErr result (λ end. Tells end (with_text number ending draft text.now)) }
    ensures short { OnOk result (ending ≤ most_text) }
{
    if is_long(ending, text) {
        return Err(refused(number, TopoFault::Long));
    }
    if has_carriage_return(text) {
        return Err(refused(number, TopoFault::Form));
    }
    if is_skipped(text) {
        return Ok(draft);
    }
    match read_line(text) {
        None => Err(refused(number, TopoFault::Form)),
        Some(line) => take(alloc, draft, number, &line),
    }
}

fn is_long(ending: usize, text: &[u8]) -> bool
    ensures { result ≡ is_long ending text.now }
{
    text.len() > MOST_LINE_BYTES || ending > MOST_TEXT
}
