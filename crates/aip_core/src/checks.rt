//! What a router keeps: how often it was started anew, and the sources and domains that it accepted since.

ghost use Rattle.std.specs.Prelude.{◌≡◌, ◌<◌, ◌+◌, ◌^◌, ◌&&◌, not, IfOk};
ghost use Rattle.aip_addr.specs.Ids.{is_same_id};
ghost use Rattle.accept_cache.specs.Keys.{pair_of, wildcard_of};
ghost use Rattle.accept_cache.specs.Kept.{HasRoom, has_fresh, has_fresh_wild, is_promoted, after_proved, after_promote};
ghost use Rattle.first_hop.specs.Verdict.{host_verdict};
ghost use Rattle.border_check.specs.Verdict.{port_verdict, leads_back};
ghost use Rattle.aip_rules.specs.Accepted.{limits_of};
ghost use Rattle.aip_rules.specs.Router.{of_host, of_border};
ghost use Rattle.aip_core.specs.RouterMachine.{router_at_start, started_anew, after_verdict};

use accept_cache::{AcceptCache, Limits};
use aip_addr::{Address, Id};
use aip_topo::Settings;
use border_check::{PortVerdict, border};
use first_hop::{HostVerdict, first_hop};
use std::alloc::{AllocError, Global};
use std::marker::Model;

/// What a router keeps between frames. It never keeps what it asked.
#[derive(Drop)]
pub struct Checks {
    boot: u32,
    cache: AcceptCache,
}

impl Model for Checks {
    ghost use Rattle.aip_core.specs.RouterMachine.{RouterState};

    ghost Value = { RouterState };

    ghost view = { λ c. record { boot = c.boot; cache = c.cache } };
}

// The limits of a router's cache.
fn limits_of(settings: &Settings) -> Limits
    ensures { result ≡ limits_of settings.now }
{
    Limits {
        cache: settings.cache,
        wildcache: settings.wildcache,
        threshold: settings.threshold,
        accept: settings.accept,
        wild: settings.wild,
    }
}

impl Checks {
    /// What a router keeps before any input: it accepted nothing, and was never started anew. The only error is want of
    /// memory.
    pub fn new(alloc: Global, settings: &Settings) -> Result<Checks, AllocError>
        requires { HasRoom (limits_of settings.now) }
        ensures { IfOk result (λ checks. checks ≡ router_at_start settings.now) }
    {
        let cache = AcceptCache::new(alloc, &limits_of(settings))?;
        Ok(Checks { boot: 0, cache })
    }

    /// The router starts anew: it forgets all that it accepted, and its secrets are others.
    pub fn restart(&mut self)
        requires { self.old.boot + 1 < 2 ^ 32 }
        ensures { self.new ≡ started_anew self.old }
    {
        self.boot += 1;
        self.cache.clear();
    }

    /// How often the router was started anew.
    pub fn boot(&self) -> u32
        ensures { result ≡ self.now.boot }
    {
        self.boot
    }

    /// The verdict on a frame from the source at a host's port, for a router of the domain `ad`. A source that is proved
    /// there is hit.
    pub fn at_host(&mut self, ad: &Id, source: &Address, port: u16, now: u64) -> HostVerdict
        ensures verdict { result ≡ host_verdict (not (is_same_id source.now.ad ad.now)) (has_fresh self.old.cache (pair_of source.now port) now) }
        ensures kept { self.new ≡ after_verdict self.old source.now port (of_host port result) }
        ensures boot { self.new.boot ≡ self.old.boot }
    {
        first_hop(&mut self.cache, ad, source, port, now)
    }

    /// The verdict on a frame from the source at a link's port, where the neighbour there is trusted or not and `back` is
    /// the port towards the source. A source or a domain by which the frame passes is hit.
    pub fn at_link(
        &mut self,
        trusted: bool,
        back: Option<u16>,
        source: &Address,
        port: u16,
        now: u64,
    ) -> PortVerdict
        ensures verdict { result ≡ port_verdict trusted (leads_back back port)
            (has_fresh self.old.cache (pair_of source.now port) now) (has_fresh_wild self.old.cache (wildcard_of source.now.ad port) now) }
        ensures kept { self.new ≡ after_verdict self.old source.now port (of_border back result) }
        ensures boot { self.new.boot ≡ self.old.boot }
    {
        border(&mut self.cache, trusted, back, source, port, now)
    }

    /// Takes the source as proved at the port, and says whether its domain is a wildcard there from now on: that may be
    /// where the port is a link's. The only error is want of memory.
    pub fn prove(
        &mut self,
        source: &Address,
        port: u16,
        link: bool,
        now: u64,
    ) -> Result<bool, AllocError>
        ensures wild { IfOk result (λ wild. wild ≡ link && is_promoted (after_proved self.old.cache (pair_of source.now port) now) (wildcard_of source.now.ad port) now) }
        ensures kept { IfOk result (λ wild. self.new ≡ record self.old {
          cache = after_promote (after_proved self.old.cache (pair_of source.now port) now) (wildcard_of source.now.ad port) now wild;
        }) }
        ensures boot { self.new.boot ≡ self.old.boot }
    {
        self.cache.proved(source, port, now)?;
        if !link {
            return Ok(false);
        }
        self.cache.promote(&source.ad, port, now)
    }
}
