// Writing what a run writes.
ghost use Rattle.std.specs.Prelude.{◌≡◌, ◌++◌, OnOk, IfOk, IfErr, IsErr, IsErrOf, ◌≢◌};
ghost use Rattle.fault_counts.specs.Causes.{HasCause};
ghost use Rattle.aip_io.specs.Sink.{and_then, TookPart};
ghost use Rattle.aip_rules.specs.Texts.{refusal_line};
ghost use Rattle.aip_sim.specs.Ends.{IsCutShort};
ghost use Rattle.aip_sim.specs.Turns.{step_text};

use crate::ends::RunEnd;
use aip_event::{Event, write_events};
use aip_io::{Sink, put_all};
use aip_rules::StepFault;
use aip_text::{push_number, push_text};
use std::alloc::{AllocError, Global};

// The lines of an input, as it was read, and of its events.
fn text_of_step(alloc: Global, line: &[u8], events: &[Event]) -> Result<Vec<u8>, AllocError>
    ensures { IfOk result (λ text. text.items ≡ step_text line.now events.now) }
{
    let mut text = Vec::new(alloc);
    push_text(&mut text, b"> ")?;
    push_text(&mut text, line)?;
    push_text(&mut text, b"\n")?;
    write_events(alloc, events, &mut text)?;
    Ok(text)
}

fn text_of_refusal(alloc: Global, line: u32, fault: StepFault) -> Result<Vec<u8>, AllocError>
    ensures { IfOk result (λ text. text.items ≡ refusal_line line fault) }
{
    let mut text = Vec::new(alloc);
    push_text(&mut text, b"! ")?;
    push_number(&mut text, line.into())?;
    push_text(&mut text, b" ")?;
    push_number(&mut text, fault.number())?;
    push_text(&mut text, b"\n")?;
    Ok(text)
}

fn put_text<K: Sink>(out: &mut K, text: &[u8]) -> Result<(), RunEnd>
    ensures took { OnOk result (K.taken out.new ≡ and_then (K.taken out.old) text.now) }
    ensures part { IfErr result (λ end. (end ≡ RunEnd.WriteFault) × TookPart (K.taken out.old) (K.taken out.new) text.now) }
    ensures cause { HasCause (IsErr result) (K.faults out.old) (K.faults out.new) }
{
    match put_all(out, text) {
        Ok(()) => Ok(()),
        Err(_) => Err(RunEnd::WriteFault),
    }
}

/// Writes the lines of an input, as it was read, and of its events.
pub fn put_step<K: Sink>(
    alloc: Global,
    line: &[u8],
    events: &[Event],
    out: &mut K,
) -> Result<(), RunEnd>
    ensures took { OnOk result (K.taken out.new ≡ and_then (K.taken out.old) (step_text line.now events.now)) }
    ensures part { IfErr result (λ end. IsCutShort end × TookPart (K.taken out.old) (K.taken out.new) (step_text line.now events.now)) }
    ensures unread { IfErr result (λ end. end ≢ RunEnd.ReadFault) }
    ensures cause { HasCause (IsErrOf result RunEnd.WriteFault) (K.faults out.old) (K.faults out.new) }
{
    let text = text_of_step(alloc, line, events)?;
    put_text(out, &text)
}

/// Writes the line that says that a line is refused.
pub fn put_refusal<K: Sink>(
    alloc: Global,
    line: u32,
    fault: StepFault,
    out: &mut K,
) -> Result<(), RunEnd>
    ensures took { OnOk result (K.taken out.new ≡ and_then (K.taken out.old) (refusal_line line fault)) }
    ensures part { IfErr result (λ end. IsCutShort end × TookPart (K.taken out.old) (K.taken out.new) (refusal_line line fault)) }
    ensures unread { IfErr result (λ end. end ≢ RunEnd.ReadFault) }
    ensures cause { HasCause (IsErrOf result RunEnd.WriteFault) (K.faults out.old) (K.faults out.new) }
{
    let text = text_of_refusal(alloc, line, fault)?;
    put_text(out, &text)
}
