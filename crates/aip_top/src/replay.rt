// The command `replay`: whether a file is the text of a trace.
ghost use Rattle.std.specs.Prelude.{◌≡◌, ◌≢◌, ◌⊎◌, true, false, Some, IfOk, IfSome, option_map};
ghost use Rattle.fault_counts.specs.Causes.{HasCause, Rose};
ghost use Rattle.aip_io.specs.Causes.{ReadsOnly};
ghost use Rattle.aip_sim.specs.Runs.{Writes};
ghost use Rattle.aip_top.specs.Judged.{JudgesCommand, refusal_of};
ghost use Rattle.aip_top.specs.Statuses.{kind_of};
ghost use Rattle.aip_top.specs.Verdicts.{ReplayOf, TellsVerdict, is_verdict, replay_text, status_of_replay, wrong_text};
ghost use Rattle.aip_top.specs.Words.{IsNamed, Replay, TraceFiles};
ghost use Rattle.aip_top.specs.Written.{CutsShort};

use crate::status::Status;
use aip_io::{Shelf, Sink, put_all};
use aip_replay::ReplayEnd;
use aip_text::{push_number, push_text};
use std::alloc::{AllocError, Global};

// The line that tells where a file is first wrong.
fn wrong_text(alloc: Global, line: u64) -> Result<Vec<u8>, AllocError>
    ensures { IfOk result (λ text. text.items ≡ wrong_text line) }
{
    let mut text = Vec::new(alloc);
    push_text(&mut text, b"wrong ")?;
    push_number(&mut text, line)?;
    push_text(&mut text, b"\n")?;
    Ok(text)
}

// Writes the text of a verdict, which ends the command with this status.
fn put_verdict<K: Sink>(out: &mut K, text: &[u8], verdict: Status) -> Status
    requires { verdict ≢ Status.WriteFault }
    ensures end { (result ≡ verdict) ⊎ (result ≡ Status.WriteFault) }
    ensures writes { Writes CutsShort verdict text.now result (K.taken out.old) (K.taken out.new) }
    ensures sink { HasCause (result ≡ Status.WriteFault) (K.faults out.old) (K.faults out.new) }
{
    match put_all(out, text) {
        Ok(()) => verdict,
        Err(_) => Status::WriteFault,
    }
}

// Writes that a file is wrong at a line.
fn put_wrong<K: Sink>(alloc: Global, line: u64, out: &mut K) -> Status
    ensures end { (result ≡ Status.Wrong line) ⊎ ((result ≡ Status.WriteFault) ⊎ (result ≡ Status.Memory)) }
    ensures writes { Writes CutsShort (Status.Wrong line) (wrong_text line) result (K.taken out.old) (K.taken out.new) }
    ensures short { result ≡ Status.Memory → out.new ≡ out.old }
    ensures sink { HasCause (result ≡ Status.WriteFault) (K.faults out.old) (K.faults out.new) }
{
    match wrong_text(alloc, line) {
        Ok(text) => put_verdict(out, &text, Status::Wrong { line }),
        Err(_) => Status::Memory,
    }
}

// Tells the answer of a replay.
fn tell<K: Sink>(alloc: Global, end: ReplayEnd, out: &mut K) -> Status
    ensures end { (result ≡ status_of_replay end) ⊎ ((result ≡ Status.WriteFault) ⊎ (result ≡ Status.Memory)) }
    ensures early { is_verdict end ≡ false → (result ≡ status_of_replay end) × (out.new ≡ out.old) }
    ensures writes { Writes CutsShort (status_of_replay end) (replay_text end) result (K.taken out.old) (K.taken out.new) }
    ensures belongs { (files : TraceFiles) → (kind_of result).answers (Some (Replay files)) ≡ true }
    ensures quiet { (files : TraceFiles) → (kind_of result).writes (Some (Replay files)) ≡ false → out.new ≡ out.old }
    ensures core { (files : TraceFiles) → (kind_of result).gives_core (Some (Replay files)) ≡ false }
    ensures sink { HasCause (result ≡ Status.WriteFault) (K.faults out.old) (K.faults out.new) }
{
    match end {
        ReplayEnd::Holds => put_verdict(out, b"holds\n", Status::Done),
        ReplayEnd::Wrong { line } => put_wrong(alloc, line, out),
        ReplayEnd::ReadFault => Status::ReadFault,
        ReplayEnd::Topology { line, fault } => Status::Topology { line, fault },
        ReplayEnd::Memory => Status::Memory,
    }
}

/// Says whether a file is the text of a trace over a topology, or which of its lines is the first that is wrong.
pub fn replay<S: Shelf, K: Sink>(
    alloc: Global,
    shelf: &mut S,
    topology: &str,
    trace: &str,
    out: &mut K,
) -> Status
    ensures told { IfSome (S.text shelf.old topology.now) (λ told. IfSome (S.text shelf.old trace.now) (λ file. ReplayOf told file
        (Rose (S.faults shelf.old topology.now) (S.faults shelf.new topology.now)
        ⊎ Rose (S.faults shelf.old trace.now) (S.faults shelf.new trace.now))
        (Rose (K.faults out.old) (K.faults out.new)) result (K.taken out.old) (K.taken out.new))) }
    ensures tells { TellsVerdict result (K.taken out.old) (K.taken out.new) }
    ensures judged { IfSome (S.text shelf.old topology.now) (λ told. JudgesCommand (refusal_of told)
        (Rose (S.faults shelf.old topology.now) (S.faults shelf.new topology.now)) (out.new ≡ out.old) result) }
    ensures belongs { (kind_of result).answers (Some (Replay (record { topology = topology.now; trace = trace.now }))) ≡ true }
    ensures quiet { (kind_of result).writes (Some (Replay (record { topology = topology.now; trace = trace.now }))) ≡ false
        → out.new ≡ out.old }
    ensures core { (kind_of result).gives_core (Some (Replay (record { topology = topology.now; trace = trace.now }))) ≡ false }
    ensures reads { ReadsOnly (IsNamed (Some (Replay (record { topology = topology.now; trace = trace.now }))))
        (result ≡ Status.ReadFault) (S.text shelf.old) (S.faults shelf.old) (S.faults shelf.new) }
    ensures sink { HasCause (result ≡ Status.WriteFault) (K.faults out.old) (K.faults out.new) }
{
    let end = aip_replay::replay(alloc, shelf, topology, trace);
    tell(alloc, end, out)
}
