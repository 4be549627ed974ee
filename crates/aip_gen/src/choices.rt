ghost use Rattle.std.specs.Prelude.{◌≡◌, ◌<◌, ◌∷◌, IfOk, decimal, true};
ghost use Rattle.aip_addr.specs.Naming.{IsName, is_letter};
ghost use Rattle.aip_event.specs.declared.input.Input.TheVariants as input;
ghost use Rattle.aip_event.specs.Lines.{IsInput};
ghost use Rattle.aip_gen.specs.Lines.{chosen_input, cut_input, deliver_input, host_restart, line_input, mend_input, router_restart, send_input, shutoff_input, some_flight, some_host, some_router, tick_input};
ghost use Rattle.aip_gen.specs.Network.{host_name, router_name};

use crate::draws::below;
use aip_addr::{Bytes, Name};
use aip_event::Input;
use aip_text::push_number;
use rand_xoshiro::SplitMix64;
use std::alloc::{AllocError, Global};

const HOSTS: u64 = 24;

const ROUTERS: u64 = 8;

const LINKS: u64 = 8;

/// The input of a line, where so many flights have left.
pub fn line_input(
    words: &mut SplitMix64,
    alloc: Global,
    index: u32,
    flights: u32,
) -> Result<Input, AllocError>
    ensures drawn { IfOk result (λ input. input ≡ (line_input index flights words.old).0) }
    ensures state { IfOk result (λ input. words.new ≡ (line_input index flights words.old).1) }
    ensures grammar { IfOk result (λ input. IsInput input) }
{
    let x = below(words, 256);
    chosen_input(words, alloc, index, flights, x)
}

fn chosen_input(
    words: &mut SplitMix64,
    alloc: Global,
    index: u32,
    flights: u32,
    x: u64,
) -> Result<Input, AllocError>
    ensures drawn { IfOk result (λ input. input ≡ (chosen_input index flights x words.old).0) }
    ensures state { IfOk result (λ input. words.new ≡ (chosen_input index flights x words.old).1) }
    ensures grammar { IfOk result (λ input. IsInput input) }
{
    match x {
        0..=7 => Ok(tick_input(words)),
        8..=71 => send_input(words, alloc, index),
        72..=75 => shutoff_input(words, alloc, flights),
        76 => router_restart(words, alloc),
        77 => host_restart(words, alloc),
        78 => Ok(cut_input(words)),
        79 => Ok(mend_input(words)),
        _ => Ok(deliver_input(words, flights)),
    }
}

fn tick_input(words: &mut SplitMix64) -> Input
    ensures drawn { result ≡ (tick_input words.old).0 }
    ensures state { words.new ≡ (tick_input words.old).1 }
    ensures grammar { IsInput result }
{
    Input::Tick {
        ticks: 1 + below(words, 5),
    }
}

fn send_input(words: &mut SplitMix64, alloc: Global, index: u32) -> Result<Input, AllocError>
    ensures drawn { IfOk result (λ input. input ≡ (send_input index words.old).0) }
    ensures state { IfOk result (λ input. words.new ≡ (send_input index words.old).1) }
    ensures grammar { IfOk result (λ input. IsInput input) }
{
    let from = some_host(words, alloc)?;
    let to = some_host(words, alloc)?;
    let body = Bytes::from_slice(alloc, &[0])?;
    Ok(Input::Send {
        host: from,
        node: to,
        packet: u64::from(index),
        body,
    })
}

fn shutoff_input(words: &mut SplitMix64, alloc: Global, flights: u32) -> Result<Input, AllocError>
    ensures drawn { IfOk result (λ input. input ≡ (shutoff_input flights words.old).0) }
    ensures state { IfOk result (λ input. words.new ≡ (shutoff_input flights words.old).1) }
    ensures grammar { IfOk result (λ input. IsInput input) }
{
    if flights == 0 {
        return Ok(Input::Tick { ticks: 1 });
    }
    let host = some_host(words, alloc)?;
    let flight = some_flight(words, flights);
    Ok(Input::Shutoff {
        host,
        flight,
        ttl: 40,
    })
}

fn router_restart(words: &mut SplitMix64, alloc: Global) -> Result<Input, AllocError>
    ensures drawn { IfOk result (λ input. input ≡ (router_restart words.old).0) }
    ensures state { IfOk result (λ input. words.new ≡ (router_restart words.old).1) }
    ensures grammar { IfOk result (λ input. IsInput input) }
{
    let node = some_router(words, alloc)?;
    Ok(Input::Restart { node })
}

fn host_restart(words: &mut SplitMix64, alloc: Global) -> Result<Input, AllocError>
    ensures drawn { IfOk result (λ input. input ≡ (host_restart words.old).0) }
    ensures state { IfOk result (λ input. words.new ≡ (host_restart words.old).1) }
    ensures grammar { IfOk result (λ input. IsInput input) }
{
    let node = some_host(words, alloc)?;
    Ok(Input::Restart { node })
}

fn cut_input(words: &mut SplitMix64) -> Input
    ensures drawn { result ≡ (cut_input words.old).0 }
    ensures state { words.new ≡ (cut_input words.old).1 }
    ensures grammar { IsInput result }
{
    Input::Cut {
        link: below(words, LINKS),
    }
}

fn mend_input(words: &mut SplitMix64) -> Input
    ensures drawn { result ≡ (mend_input words.old).0 }
    ensures state { words.new ≡ (mend_input words.old).1 }
    ensures grammar { IsInput result }
{
    Input::Mend {
        link: below(words, LINKS),
    }
}

fn deliver_input(words: &mut SplitMix64, flights: u32) -> Input
    ensures drawn { result ≡ (deliver_input flights words.old).0 }
    ensures state { words.new ≡ (deliver_input flights words.old).1 }
    ensures grammar { IsInput result }
{
    if flights == 0 {
        return Input::Tick { ticks: 1 };
    }
    Input::Deliver {
        flight: some_flight(words, flights),
    }
}

// The number of one of the last 64 flights, or of all where there are fewer.
fn some_flight(words: &mut SplitMix64, flights: u32) -> u64
    requires { 0 < flights }
    ensures drawn { result ≡ (some_flight flights words.old).0 }
    ensures state { words.new ≡ (some_flight flights words.old).1 }
    ensures less { result < flights }
{
    let flights = u64::from(flights);
    flights - 1 - below(words, flights.min(64))
}

fn some_host(words: &mut SplitMix64, alloc: Global) -> Result<Name, AllocError>
    ensures drawn { IfOk result (λ name. name ≡ (some_host words.old).0) }
    ensures state { IfOk result (λ name. words.new ≡ (some_host words.old).1) }
    ensures grammar { IfOk result (λ name. IsName name) }
{
    let number = below(words, HOSTS);
    numbered_name(alloc, b'h', number)
}

fn some_router(words: &mut SplitMix64, alloc: Global) -> Result<Name, AllocError>
    ensures drawn { IfOk result (λ name. name ≡ (some_router words.old).0) }
    ensures state { IfOk result (λ name. words.new ≡ (some_router words.old).1) }
    ensures grammar { IfOk result (λ name. IsName name) }
{
    let number = below(words, ROUTERS);
    numbered_name(alloc, b'r', number)
}

// The name that is a letter and a number.
fn numbered_name(alloc: Global, letter: u8, number: u64) -> Result<Name, AllocError>
    requires letter { is_letter letter ≡ true }
    requires short { number < 100 }
    ensures spelling { IfOk result (λ name. name ≡ letter ∷ decimal number) }
    ensures grammar { IfOk result (λ name. IsName name) }
{
    let mut bytes = Vec::from_slice(alloc, &[letter])?;
    push_number(&mut bytes, number)?;
    Ok(Name::read(bytes.as_slice()).unwrap())
}
