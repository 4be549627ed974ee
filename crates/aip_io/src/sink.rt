// What takes bytes, piece by piece.
ghost use Rattle.std.specs.Prelude.{◌≡◌, ◌<◌, ◌≤◌, ℕ, List, Option, take, length, IfOk, IsErr, OnOk, OnErr};
ghost use Rattle.fault_counts.specs.Causes.{HasCause};
ghost use Rattle.aip_io.specs.Sink.{and_then, TookPart};

use crate::Failed;

/// What takes bytes, one after another.
pub trait Sink {
    /// All the bytes that it has taken, where that is told. No call changes whether it is.
    ghost taken: { Self → Option (List ℕ) };

    /// How often it has failed. It stays at the greatest value of a `u64` once it is there.
    ghost faults: { Self → ℕ };

    /// Takes some of the first bytes of a piece, at least one, and says how many. A sink that takes
    /// nothing has failed.
    fn put(&mut self, piece: &[u8]) -> Result<usize, Failed>
        requires { 0 < length piece.now }
        ensures some { IfOk result (λ n. 1 ≤ n) }
        ensures within { IfOk result (λ n. n ≤ length piece.now) }
        ensures took { IfOk result (λ n. taken self.new ≡ and_then (taken self.old) (take n piece.now)) }
        ensures nothing { OnErr result (taken self.new ≡ taken self.old) }
        ensures cause { HasCause (IsErr result) (faults self.old) (faults self.new) };
}

/// Puts all of the bytes, in as many pieces as the sink makes of them. After a failure the sink has
/// taken some first part of them. No bytes are put where there are none.
pub fn put_all<K: Sink>(sink: &mut K, bytes: &[u8]) -> Result<(), Failed>
    ensures took { OnOk result (K.taken sink.new ≡ and_then (K.taken sink.old) bytes.now) }
    ensures part { OnErr result (TookPart (K.taken sink.old) (K.taken sink.new) bytes.now) }
    ensures cause { HasCause (IsErr result) (K.faults sink.old) (K.faults sink.new) }
{
    let mut at = 0;
    'pieces: while at < bytes.len() {
        at += sink.put(&bytes[at..])?;
    }
    Ok(())
}
