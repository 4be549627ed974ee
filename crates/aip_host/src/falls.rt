// Whether a stop or a halt brought a part of a host down.
ghost use Rattle.std.specs.Prelude.{◌≡◌};
ghost use Rattle.aip_host.specs.HostState.{down_in, fell_in};

use crate::guard::Guard;
use crate::signing::SigningKey;

/// Whether a stop brought the key of a host down, if it has one.
pub fn is_stopped(key: &Option<SigningKey>) -> bool
    ensures { result ≡ down_in key.now }
{
    match key {
        Some(key) => key.is_down(),
        None => false,
    }
}

/// Whether a halt brought the guard of a host down, if it has one.
pub fn is_halted(guard: &Option<Guard>) -> bool
    ensures { result ≡ fell_in guard.now }
{
    match guard {
        Some(guard) => guard.is_down(),
        None => false,
    }
}
