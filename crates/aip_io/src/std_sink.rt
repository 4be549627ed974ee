// The standard output.
ghost use Rattle.std.specs.Prelude.{◌≡◌, ◌<◌, ◌≤◌, length, IfOk};

use crate::{Failed, Sink};
use fault_counts::one_more;
use std::marker::Model;

/// The standard output. It tells nothing of what it has taken. What is written there is trusted.
#[derive(Drop)]
pub struct StdSink<'a, R: Print> {
    rt: &'a R,
    faults: u64,
}

impl<'a, R: Print> Model for StdSink<'a, R> {
    ghost use Rattle.std.specs.Prelude.{ℕ};

    ghost Value = { ℕ };

    ghost view = { λ sink. sink.faults };
}

impl<'a, R: Print> StdSink<'a, R> {
    /// The standard output of this runtime. It has counted no fault.
    pub fn new(rt: &'a R) -> StdSink<'a, R>
        ensures { result ≡ 0 }
    {
        StdSink { rt, faults: 0 }
    }
}

impl<'a, R: Print> Sink for StdSink<'a, R> {
    ghost use Rattle.std.specs.Prelude.{None};

    ghost taken = { λ _. None };

    ghost faults = { λ sink. sink };

    fn put(&mut self, piece: &[u8]) -> Result<usize, Failed> {
        if let Ok(count) = self.rt.write_some(piece) {
            if count > 0 {
                return Ok(count);
            }
        }
        self.faults = one_more(self.faults);
        Err(Failed)
    }
}
