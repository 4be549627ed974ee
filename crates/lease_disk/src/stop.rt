// The stop of a disk in memory.
ghost use Rattle.std.specs.Prelude.{◌≡◌};
ghost use Rattle.lease_disk.specs.Stop.{is_met, is_stopping, stop_after};

/// How a disk in memory stands to a stop.
#[derive(Clone, Copy)]
pub enum Stop {
    /// None is armed.
    Unarmed,
    /// The disk stops at the write or sync of that number, counted from 1 from here on.
    Armed { call: u8, fill: u8 },
    /// The disk has stopped.
    Met { fill: u8 },
}

/// Whether the disk has stopped.
pub fn was_met(stop: Stop) -> bool
    ensures { result ≡ is_met stop }
{
    matches!(stop, Stop::Met { .. })
}

/// Whether the next write or sync fails for the stop.
pub fn fails_next(stop: Stop) -> bool
    ensures { result ≡ is_stopping stop }
{
    match stop {
        Stop::Unarmed => false,
        Stop::Armed { call, fill: _ } => call <= 1,
        Stop::Met { fill: _ } => true,
    }
}

/// The stop after the next write or sync.
pub fn counted_down(stop: Stop) -> Stop
    ensures { result ≡ stop_after stop }
{
    match stop {
        Stop::Armed { call, fill } if call > 1 => Stop::Armed {
            call: call - 1,
            fill,
        },
        Stop::Armed { call: _, fill } => Stop::Met { fill },
        other => other,
    }
}
