//! Times a checking router at its limits: the core of a network, to whose router packets of known and unknown sources come.
//!
//! 64 sources answer its challenges, and 1,000 packets come; with the word `limits` 4,096 sources answer, and 100,000 packets
//! come; with any other word, as `small`, 64 sources answer, and 100,000 packets come. Of four packets one is of a source that
//! was accepted, taken in the order in which they were, one is of one taken in the opposite order, and two are of sources that
//! the router doesn't know. It prints how many packets were forwarded and about how many their sources were asked, and with
//! a word the processor time of a packet, without what went before the first.
#![tactic(auto)]

mod network;
mod sources;
mod timing;

use std::{env, io};
use timing::{Load, run};

fn main(rt: HostRuntime) -> io::Result<()> {
    let word = env::args(&rt)?.nth(1);
    let load = match &word {
        None => Load {
            keys: 2,
            packets: 1000,
            rounds: 1,
        },
        Some(word) => Load {
            keys: if word.as_str() == "limits" { 128 } else { 2 },
            packets: 50_000,
            rounds: 2,
        },
    };
    run(&rt, &load, word.is_some())
}
