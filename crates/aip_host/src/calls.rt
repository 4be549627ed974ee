// The calls of a host. Each is told twice: by what the host keeps, and, for every trace that the host stands for, by what
// the rules say on that trace; the host then stands for the longer one.
ghost use Rattle.std.specs.Prelude.{◌≡◌, ◌<◌, ◌≤◌, ◌^◌, ℕ, [], length, true, Some, IfOk, OnErr, IsSome};
ghost use Rattle.lms_core.specs.Tree.{Key};
ghost use Rattle.aip_frame.specs.declared.frame.Frame.{Frame as Framed};
ghost use Rattle.aip_frame.specs.Frame.{frame_bytes, frame_of, most_body};
ghost use Rattle.aip_topo.specs.declared.topology.Topology.{Topology};
ghost use Rattle.aip_rules.specs.Host.{at_host, back_up, put_by, sent_frame, shut_by};
ghost use Rattle.aip_rules.specs.Reaction.{nothing};
ghost use Rattle.aip_host.specs.HostState.{key_in, standing_of};
ghost use Rattle.aip_host.specs.Withholding.{LeavesUnordered};
ghost use Rattle.aip_host.specs.After.{Follows, IsNew, IsRestarted, halted_in, stopped_in};
ghost use Rattle.aip_host.specs.StandsFor.{DisksServe, HostStandsFor};
ghost use Rattle.aip_host.specs.StandsOn.{ArmsHalt, ArmsStop, IsSeated, AsksItToAct, StandsOn, StartsAnew};

use crate::host::Host;
use aip_addr::Address;
use aip_event::Target;
use aip_rules::{Reaction, Seat};
use aip_topo::Settings;
use lms_core::Tree;
use std::alloc::{AllocError, Global};

impl Host {
    ghost use Rattle.aip_rules.specs.Step.{has_key};

    /// A host at its seat, with its port of its router, that has put nothing. The key is that of its tree, with no leaf
    /// spent. A guard, if it has one, was told nothing. The only error is want of memory.
    pub fn new(
        alloc: Global,
        seat: Seat,
        towards: Target,
        settings: &Settings,
        key: Option<Tree>,
        guarded: bool,
    ) -> Result<Host, AllocError>
        requires log { 1 ≤ settings.now.log }
        requires some { 1 ≤ settings.now.filter }
        requires few { settings.now.filter ≤ 256 }
        ensures new { IfOk result (λ host. IsNew seat towards settings.now key guarded host) }
        // In each topology that has it, it stands for the trace of no inputs.
        ensures stands { IfOk result (λ host. (topo : Topology)
            → IsSeated topo seat towards settings.now key guarded → HostStandsFor topo [] seat host) }
        ensures disks { IfOk result (λ host. DisksServe host) }
    {
        Host::begin(alloc, seat, towards, settings, key, guarded)
    }

    /// Sends a packet of data. While the host is down it is dropped. The only error is want of memory: then nothing
    /// changes.
    pub fn send(
        &mut self,
        alloc: Global,
        now: u64,
        to: Address,
        packet: u32,
        body: &[u8],
    ) -> Result<Reaction, AllocError>
        requires soon { now < 2 ^ 48 }
        requires body { length body.now ≤ most_body }
        ensures reaction { IfOk result (λ reaction. reaction
            ≡ put_by (standing_of self.old now) (frame_bytes (sent_frame to self.old.seat.address packet body.now))) }
        ensures follows { IfOk result (λ reaction. Follows now self.old reaction self.new) }
        ensures same { OnErr result (self.new ≡ self.old) }
        ensures stands { IfOk result (λ reaction. StandsOn now self.old AsksItToAct
            (λ s. put_by s (frame_bytes (sent_frame to s.seat.address packet body.now))) reaction self.new) }
        // The guard and the key, with their files, are as they were.
        ensures guard { self.new.guard ≡ self.old.guard }
        ensures key { self.new.key ≡ self.old.key }
        ensures disks { DisksServe self.new }
        ensures seat { self.new.seat ≡ self.old.seat }
    {
        self.emit(alloc, now, to, packet, body)
    }

    /// Puts bytes as they are. While the host is down they are dropped. The only error is want of memory: then nothing
    /// changes.
    pub fn raw(&mut self, alloc: Global, now: u64, bytes: &[u8]) -> Result<Reaction, AllocError>
        requires soon { now < 2 ^ 48 }
        ensures reaction { IfOk result (λ reaction. reaction ≡ put_by (standing_of self.old now) bytes.now) }
        ensures follows { IfOk result (λ reaction. Follows now self.old reaction self.new) }
        ensures same { OnErr result (self.new ≡ self.old) }
        ensures stands { IfOk result (λ reaction.
            StandsOn now self.old AsksItToAct (λ s. put_by s bytes.now) reaction self.new) }
        // The guard and the key, with their files, are as they were.
        ensures guard { self.new.guard ≡ self.old.guard }
        ensures key { self.new.key ≡ self.old.key }
        ensures disks { DisksServe self.new }
        ensures seat { self.new.seat ≡ self.old.seat }
    {
        self.emit_raw(alloc, now, bytes)
    }

    /// What the host does where bytes arrive. The only error is want of memory: then a leaf may be spent, and the run
    /// can't go on.
    pub fn arrive(&mut self, alloc: Global, now: u64, bytes: &[u8]) -> Result<Reaction, AllocError>
        requires soon { now < 2 ^ 48 }
        ensures reaction { IfOk result (λ reaction. reaction ≡ at_host (standing_of self.old now) bytes.now) }
        ensures follows { IfOk result (λ reaction. Follows now self.old reaction self.new) }
        ensures stands { IfOk result (λ reaction.
            StandsOn now self.old AsksItToAct (λ s. at_host s bytes.now) reaction self.new) }
        // Unless an order was obeyed, or its writing cut off, the guard, with its file, is as it was.
        ensures unordered { IfOk result (λ reaction. LeavesUnordered reaction self.old.guard self.new.guard) }
        ensures disks { DisksServe self.new }
        ensures seat { self.new.seat ≡ self.old.seat }
    {
        self.meet(alloc, now, bytes)
    }

    /// Signs a shut-off that names a frame, and lasts so many ticks. While the host is down it is dropped. The only error
    /// is want of memory: then a leaf may be spent, and the run can't go on.
    pub fn shut(
        &mut self,
        alloc: Global,
        now: u64,
        named: &[u8],
        ttl: u32,
    ) -> Result<Reaction, AllocError>
        requires soon { now < 2 ^ 48 }
        requires key { has_key (key_in self.old.key) ≡ true }
        requires frame { IsSome (frame_of named.now) }
        ensures reaction { (key : Key) (frame : Framed) → key_in self.old.key ≡ Some key → frame_of named.now ≡ Some frame
            → IfOk result (λ reaction. reaction ≡ shut_by (standing_of self.old now) key frame ttl) }
        ensures follows { IfOk result (λ reaction. Follows now self.old reaction self.new) }
        ensures stands { (key : Key) (frame : Framed) → key_in self.old.key ≡ Some key → frame_of named.now ≡ Some frame
            → IfOk result (λ reaction. StandsOn now self.old AsksItToAct (λ s. shut_by s key frame ttl) reaction self.new) }
        // The guard, with its file, is as it was.
        ensures guard { self.new.guard ≡ self.old.guard }
        ensures disks { DisksServe self.new }
        ensures seat { self.new.seat ≡ self.old.seat }
    {
        self.demand(alloc, now, named, ttl)
    }

    /// Arms a stop of its signings at the call of the next one, 1 or 2, which leaves the byte. It takes the place of one
    /// that is armed. While the host is down nothing changes.
    pub fn stop(&mut self, call: u8, byte: u8)
        requires key { has_key (key_in self.old.key) ≡ true }
        requires first { 1 ≤ call }
        requires last { call ≤ 2 }
        ensures stop { self.new ≡ record self.old { key = stopped_in self.old.key (record { call = call; byte = byte }) } }
        ensures stands { (time : ℕ) → StandsOn time self.old (ArmsStop call byte) (λ s. nothing) nothing self.new }
        ensures disks { DisksServe self.new }
        ensures seat { self.new.seat ≡ self.old.seat }
    {
        self.arm_stop(call, byte);
    }

    /// Arms a halt at the call of its guard's next write, 1 to 4, which leaves the byte. It takes the place of one that is
    /// armed. Without a guard, or while that is down, nothing changes.
    pub fn halt(&mut self, call: u8, byte: u8)
        requires first { 1 ≤ call }
        requires last { call ≤ 4 }
        ensures halt { self.new
            ≡ record self.old { guard = halted_in self.old.guard (record { call = call; byte = byte }) } }
        ensures stands { (time : ℕ) → StandsOn time self.old (ArmsHalt call byte) (λ s. nothing) nothing self.new }
        ensures disks { DisksServe self.new }
        ensures seat { self.new.seat ≡ self.old.seat }
    {
        self.arm_halt(call, byte);
    }

    /// Starts the host anew: its log is empty, and its disks are restarted. A guarded host then tells what is in force. The
    /// only error is want of memory: the host is up then too.
    pub fn restart(&mut self, alloc: Global, now: u64) -> Result<Reaction, AllocError>
        requires soon { now < 2 ^ 48 }
        ensures reaction { IfOk result (λ reaction. reaction ≡ back_up (standing_of self.old now)) }
        ensures restarted { IsRestarted self.old self.new }
        ensures stands { IfOk result (λ reaction. StandsOn now self.old StartsAnew back_up reaction self.new) }
        ensures disks { DisksServe self.new }
        ensures seat { self.new.seat ≡ self.old.seat }
    {
        self.rise(alloc, now)
    }
}
