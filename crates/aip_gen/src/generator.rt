ghost use Rattle.std.specs.Prelude.{◌≡◌, IfOk};
ghost use Rattle.aip_event.specs.Lines.{IsInput};
ghost use Rattle.aip_gen.specs.Lines.{line_input};
ghost use Rattle.aip_gen.specs.Network.{topology_text};

use crate::choices::line_input;
use crate::topology::topology_text;
use aip_addr::Bytes;
use aip_event::Input;
use rand_xoshiro::SplitMix64;
use rand_xoshiro::rand_core::SeedableRng;
use std::alloc::{AllocError, Global};
use std::marker::Model;

/// A generator of made workloads: the words of SplitMix64, each 64 bits, that are still to come.
/// Contracts see it as the state of SplitMix64, a number below 2^64.
#[derive(Debug, Drop)]
pub struct Gen {
    words: SplitMix64,
}

impl Model for Gen {
    ghost use Rattle.std.specs.Prelude.{ℕ};

    ghost Value = { ℕ };

    ghost view = { λ g. g.words };
}

impl Gen {
    /// The generator of workload number `n`, at the first word: the state is `n` itself.
    pub fn new(n: u32) -> Gen
        ensures { result ≡ n }
    {
        Gen {
            words: SplitMix64::seed_from_u64(u64::from(n)),
        }
    }

    /// The text of the topology: 46 lines, each ended by a line feed, of two settings, 4 domains, 8
    /// routers, 8 links and 24 hosts. The only error is want of memory, and nothing is told of the
    /// generator behind it.
    pub fn topology(&mut self, alloc: Global) -> Result<Bytes, AllocError>
        ensures text { IfOk result (λ text. text ≡ (topology_text self.old).0) }
        ensures state { IfOk result (λ text. self.new ≡ (topology_text self.old).1) }
    {
        topology_text(&mut self.words, alloc)
    }

    /// The input of the line with this index, counted from 0, where `flights` flights have left
    /// before it. A workload has the lines with an index below 60,000; the rule is the same past
    /// it. The input is of the grammar of schedules. The only error is want of memory, and nothing
    /// is told of the generator behind it.
    pub fn line(&mut self, alloc: Global, index: u32, flights: u32) -> Result<Input, AllocError>
        ensures input { IfOk result (λ input. input ≡ (line_input index flights self.old).0) }
        ensures state { IfOk result (λ input. self.new ≡ (line_input index flights self.old).1) }
        ensures grammar { IfOk result (λ input. IsInput input) }
    {
        line_input(&mut self.words, alloc, index, flights)
    }
}
