ghost use Rattle.std.specs.Prelude.{◌≡◌, ◌+◌, ◌%◌, ◌++◌, ◌∷◌, [], IfOk, OnOk, decimal};
ghost use Rattle.aip_gen.specs.Draws.{numbered, secret};
ghost use Rattle.aip_gen.specs.Network.{domain_line, ends_words, host_line, link_line, part_line, router_line, topology_text};

use crate::draws::push_secret;
use aip_addr::Bytes;
use aip_text::{push_number, push_text, push_word};
use rand_xoshiro::SplitMix64;
use std::alloc::{AllocError, Global};

/// A part of a network that has a line.
#[derive(Clone, Copy, Debug)]
pub enum Part {
    /// A domain.
    Domain,
    /// A router.
    Router,
    /// A link.
    Link,
    /// A host.
    Host,
}

/// The text of the topology.
pub fn topology_text(words: &mut SplitMix64, alloc: Global) -> Result<Bytes, AllocError>
    ensures drawn { IfOk result (λ text. text ≡ (topology_text words.old).0) }
    ensures state { IfOk result (λ text. words.new ≡ (topology_text words.old).1) }
{
    let mut out = Vec::from_slice(alloc, b"set cache 32\nset threshold 2\n")?;
    push_lines(words, &mut out, Part::Domain, 4)?;
    push_lines(words, &mut out, Part::Router, 8)?;
    push_lines(words, &mut out, Part::Link, 8)?;
    push_lines(words, &mut out, Part::Host, 24)?;
    Ok(Bytes::from_vec(out))
}

// Appends the lines of the parts numbered from 0 up to the count.
fn push_lines(
    words: &mut SplitMix64,
    out: &mut Vec<u8>,
    part: Part,
    count: u64,
) -> Result<(), AllocError>
    ensures drawn { OnOk result (out.new.items ≡ out.old.items ++ (numbered (part_line part) count words.old).0) }
    ensures state { OnOk result (words.new ≡ (numbered (part_line part) count words.old).1) }
{
    for number in 0..count {
        push_line(words, out, part, number)?;
    }
    Ok(())
}

fn push_line(
    words: &mut SplitMix64,
    out: &mut Vec<u8>,
    part: Part,
    number: u64,
) -> Result<(), AllocError>
    ensures drawn { OnOk result (out.new.items ≡ out.old.items ++ (part_line part number words.old).0) }
    ensures state { OnOk result (words.new ≡ (part_line part number words.old).1) }
{
    match part {
        Part::Domain => push_domain(words, out, number),
        Part::Router => push_router(words, out, number),
        Part::Link => push_link(out, number),
        Part::Host => push_host(words, out, number),
    }
}

fn push_domain(words: &mut SplitMix64, out: &mut Vec<u8>, number: u64) -> Result<(), AllocError>
    ensures drawn { OnOk result (out.new.items ≡ out.old.items ++ (domain_line number words.old).0) }
    ensures state { OnOk result (words.new ≡ (domain_line number words.old).1) }
{
    push_name(out, b"domain d", number)?;
    push_last_words(words, out, b" seed W4 H5 ")
}

fn push_router(words: &mut SplitMix64, out: &mut Vec<u8>, number: u64) -> Result<(), AllocError>
    ensures drawn { OnOk result (out.new.items ≡ out.old.items ++ (router_line number words.old).0) }
    ensures state { OnOk result (words.new ≡ (router_line number words.old).1) }
{
    push_name(out, b"router r", number)?;
    push_name(out, b" d", number / 2)?;
    push_last_words(words, out, b" checking ")
}

// Appends the words before a name's number, and the number.
fn push_name(out: &mut Vec<u8>, before: &[u8], number: u64) -> Result<(), AllocError>
    ensures { OnOk result (out.new.items ≡ out.old.items ++ before.now ++ decimal number) }
{
    push_text(out, before)?;
    push_number(out, number)
}

// Appends the words before a secret, a drawn secret and a line feed.
fn push_last_words(
    words: &mut SplitMix64,
    out: &mut Vec<u8>,
    before: &[u8],
) -> Result<(), AllocError>
    ensures drawn { OnOk result (out.new.items ≡ out.old.items ++ before.now ++ (secret words.old).0 ++ 10 ∷ []) }
    ensures state { OnOk result (words.new ≡ (secret words.old).1) }
{
    push_text(out, before)?;
    push_secret(words, out)?;
    push_text(out, b"\n")
}

fn push_link(out: &mut Vec<u8>, number: u64) -> Result<(), AllocError>
    ensures { OnOk result (out.new.items ≡ out.old.items ++ link_line number) }
{
    push_name(out, b"link r", number)?;
    push_name(out, b" r", next_in_ring(number))?;
    push_word(out, ends_words(number % 2 == 0))?;
    push_text(out, b"\n")
}

// The number of the next router in the ring of eight.
fn next_in_ring(number: u64) -> u64
    ensures { result ≡ (number + 1) % 8 }
{
    (number % 8 + 1) % 8
}

fn ends_words(within: bool) -> &'static [u8]
    ensures { result.now ≡ ends_words within }
{
    if within {
        b"trusted trusted"
    } else {
        b"checked checked"
    }
}

fn push_host(words: &mut SplitMix64, out: &mut Vec<u8>, number: u64) -> Result<(), AllocError>
    ensures drawn { OnOk result (out.new.items ≡ out.old.items ++ (host_line number words.old).0) }
    ensures state { OnOk result (words.new ≡ (host_line number words.old).1) }
{
    push_name(out, b"host h", number)?;
    push_name(out, b" r", number % 8)?;
    push_last_words(words, out, b" guarded seed W2 H10 0 ")
}
