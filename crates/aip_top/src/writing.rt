// Writing what a command writes.
ghost use Rattle.std.specs.Prelude.{◌≡◌, ◌⊎◌};
ghost use Rattle.fault_counts.specs.Causes.{HasCause};
ghost use Rattle.aip_top.specs.Leasing.{IsFormatted};
ghost use Rattle.aip_top.specs.Written.{WritesOnDone};

use crate::status::Status;
use aip_io::{Sink, put_all};

/// Writes a text.
pub fn put_text<K: Sink>(out: &mut K, text: &[u8]) -> Status
    ensures end { (result ≡ Status.WriteFault) ⊎ (result ≡ Status.Done) }
    ensures answer { IsFormatted result }
    ensures writes { WritesOnDone text.now result (K.taken out.old) (K.taken out.new) }
    ensures sink { HasCause (result ≡ Status.WriteFault) (K.faults out.old) (K.faults out.new) }
{
    match put_all(out, text) {
        Ok(()) => Status::Done,
        Err(_) => Status::WriteFault,
    }
}
