// A host: what it keeps, and what it does where something is asked of it or reaches it.
ghost use Rattle.std.specs.Prelude.{◌≡◌, ◌<◌, ◌≤◌, ◌^◌, [], length, true, false, Some, IfOk, IfSome, OnOk, OnErr, IsSome};
ghost use Rattle.lms_core.specs.Tree.{Key};
ghost use Rattle.aip_frame.specs.declared.frame.Frame.{Frame as Framed};
ghost use Rattle.aip_frame.specs.Frame.{frame_bytes, frame_of, most_body};
ghost use Rattle.sent_log.specs.Log.{empty_log};
ghost use Rattle.verify_packet.specs.Challenge.{asked_in};
ghost use Rattle.aip_rules.specs.Host.{answered, at_host, back_up, challenged, handed_down, kind_at_host, put_by, sent_frame, shut_by, taken_at_host};
ghost use Rattle.aip_host.specs.StandsFor.{DisksServe};
ghost use Rattle.aip_host.specs.HostState.{down_of, key_in, standing_of};
ghost use Rattle.aip_host.specs.Withholding.{LeavesUnordered};
ghost use Rattle.aip_host.specs.After.{Follows, IsNew, IsRestarted, halted_in, stopped_in};

use crate::answering::{answer, challenge_in};
use crate::falls::{is_halted, is_stopped};
use crate::framing::{data_frame, received};
use crate::guard::Guard;
use crate::hearing::{hear, kept};
use crate::logging::note_put;
use crate::signing::SigningKey;
use crate::silencing::{Demand, silence};
use crate::withholding::held_back;
use aip_addr::{Address, Bytes};
use aip_event::{Reason, Target};
use aip_frame::{Frame, Kind, from_of, packet_hash, parse};
use aip_rules::{Reaction, Seat};
use aip_topo::Settings;
use lms_core::Tree;
use sent_log::SentLog;
use std::alloc::{AllocError, Global};
use std::marker::Model;
use verify_packet::{asked_hash, asked_source};

/// A host as it runs: where it stands, what it remembers of the frames that it put, its key with the disk on which that is
/// spent, and its guard with the disk on which that keeps what the host was told.
#[derive(Drop)]
pub struct Host {
    seat: Seat,
    towards: Target,
    room: u16,
    log: SentLog,
    key: Option<SigningKey>,
    guard: Option<Guard>,
}

impl Model for Host {
    ghost use Rattle.aip_host.specs.HostState.{HostState};

    ghost Value = { HostState };

    ghost use Rattle.aip_host.specs.StandsFor.{DisksServe};

    ghost view = { λ h. record { seat = h.seat; towards = h.towards; room = h.room; log = h.log; key = h.key; guard = h.guard } };

    ghost invariant = { λ h. DisksServe (record { seat = h.seat; towards = h.towards; room = h.room; log = h.log; key = h.key; guard = h.guard }) };
}

impl Host {
    ghost use Rattle.aip_rules.specs.Step.{has_key};

    // A host that has put nothing, whose key has spent no leaf, and whose guard was told nothing.
    pub(crate) fn begin(
        alloc: Global,
        seat: Seat,
        towards: Target,
        settings: &Settings,
        key: Option<Tree>,
        guarded: bool,
    ) -> Result<Host, AllocError>
        requires log { 1 ≤ settings.now.log }
        requires some { 1 ≤ settings.now.filter }
        requires few { settings.now.filter ≤ 256 }
        ensures new { IfOk result (λ host. IsNew seat towards settings.now key guarded host) }
        ensures disks { IfOk result (λ host. DisksServe host) }
    {
        let log = SentLog::new(alloc, settings.log)?;
        let key = match key {
            Some(tree) => Some(SigningKey::new(alloc, tree)?),
            None => None,
        };
        let guard = if guarded {
            Some(Guard::new(alloc, settings.filter)?)
        } else {
            None
        };
        Ok(Host {
            seat,
            towards,
            room: settings.filter,
            log,
            key,
            guard,
        })
    }

    /// Where it stands.
    pub fn seat(&self) -> Seat
        ensures seat { result ≡ self.now.seat }
        ensures disks { DisksServe self.now }
    {
        self.seat
    }

    /// Whether it has a private key.
    pub fn has_key(&self) -> bool
        ensures key { result ≡ has_key (key_in self.now.key) }
    {
        self.key.is_some()
    }

    // Whether a stop or a halt brought it down.
    fn is_down(&self) -> bool
        ensures { result ≡ down_of self.now }
    {
        is_stopped(&self.key) || is_halted(&self.guard)
    }

    // Hands bytes down towards its port of its router, unless its guard withholds them.
    fn put(&mut self, alloc: Global, now: u64, bytes: Bytes) -> Result<Reaction, AllocError>
        requires up { down_of self.old ≡ false }
        requires soon { now < 2 ^ 48 }
        ensures reaction { IfOk result (λ reaction. reaction ≡ handed_down (standing_of self.old now) bytes) }
        ensures follows { IfOk result (λ reaction. Follows now self.old reaction self.new) }
        ensures same { OnErr result (self.new ≡ self.old) }
        ensures guard { self.new.guard ≡ self.old.guard }
        ensures key { self.new.key ≡ self.old.key }
        ensures disks { DisksServe self.new }
        ensures seat { self.new.seat ≡ self.old.seat }
    {
        let puts = Reaction::puts(alloc, self.towards, bytes);
        let reaction = held_back(self.seat.name, &self.guard, now, puts)?;
        note_put(&mut self.log, &reaction);
        Ok(reaction)
    }

    // Sends a packet of data, or drops it while it is down.
    pub(crate) fn emit(
        &mut self,
        alloc: Global,
        now: u64,
        to: Address,
        packet: u32,
        body: &[u8],
    ) -> Result<Reaction, AllocError>
        requires soon { now < 2 ^ 48 }
        requires body { length body.now ≤ most_body }
        ensures reaction { IfOk result (λ reaction. reaction
            ≡ put_by (standing_of self.old now) (frame_bytes (sent_frame to self.old.seat.address packet body.now))) }
        ensures follows { IfOk result (λ reaction. Follows now self.old reaction self.new) }
        ensures same { OnErr result (self.new ≡ self.old) }
        ensures guard { self.new.guard ≡ self.old.guard }
        ensures key { self.new.key ≡ self.old.key }
        ensures disks { DisksServe self.new }
        ensures seat { self.new.seat ≡ self.old.seat }
    {
        if self.is_down() {
            return Reaction::dropped(alloc, self.seat.name, Reason::Down);
        }
        let bytes = data_frame(alloc, to, self.seat.address, packet, body)?;
        self.put(alloc, now, bytes)
    }

    // Puts bytes, or drops them while it is down.
    pub(crate) fn emit_raw(
        &mut self,
        alloc: Global,
        now: u64,
        bytes: &[u8],
    ) -> Result<Reaction, AllocError>
        requires soon { now < 2 ^ 48 }
        ensures reaction { IfOk result (λ reaction. reaction ≡ put_by (standing_of self.old now) bytes.now) }
        ensures follows { IfOk result (λ reaction. Follows now self.old reaction self.new) }
        ensures same { OnErr result (self.new ≡ self.old) }
        ensures guard { self.new.guard ≡ self.old.guard }
        ensures key { self.new.key ≡ self.old.key }
        ensures disks { DisksServe self.new }
        ensures seat { self.new.seat ≡ self.old.seat }
    {
        if self.is_down() {
            return Reaction::dropped(alloc, self.seat.name, Reason::Down);
        }
        let bytes = Bytes::from_slice(alloc, bytes)?;
        self.put(alloc, now, bytes)
    }

    // What it does where bytes arrive.
    pub(crate) fn meet(
        &mut self,
        alloc: Global,
        now: u64,
        bytes: &[u8],
    ) -> Result<Reaction, AllocError>
        requires soon { now < 2 ^ 48 }
        ensures reaction { IfOk result (λ reaction. reaction ≡ at_host (standing_of self.old now) bytes.now) }
        ensures follows { IfOk result (λ reaction. Follows now self.old reaction self.new) }
        ensures unordered { IfOk result (λ reaction. LeavesUnordered reaction self.old.guard self.new.guard) }
        ensures disks { DisksServe self.new }
        ensures seat { self.new.seat ≡ self.old.seat }
    {
        if self.is_down() {
            return Reaction::dropped(alloc, self.seat.name, Reason::Down);
        }
        match parse(alloc, bytes) {
            Ok(Some(frame)) => self.take(alloc, now, bytes, &frame),
            Ok(None) => Reaction::dropped(alloc, self.seat.name, Reason::Bad),
            Err(end) => Err(end),
        }
    }

    // What a host that is up does with a frame of these bytes.
    fn take(
        &mut self,
        alloc: Global,
        now: u64,
        bytes: &[u8],
        frame: &Frame,
    ) -> Result<Reaction, AllocError>
        requires up { down_of self.old ≡ false }
        requires soon { now < 2 ^ 48 }
        requires bytes { frame_of bytes.now ≡ Some frame.now }
        requires challenge { frame.now.kind ≡ Kind.Challenge → length frame.now.body ≡ 154 }
        ensures reaction { IfOk result (λ reaction. reaction ≡ taken_at_host (standing_of self.old now) (Some frame.now)) }
        ensures follows { IfOk result (λ reaction. Follows now self.old reaction self.new) }
        ensures unordered { IfOk result (λ reaction. LeavesUnordered reaction self.old.guard self.new.guard) }
        ensures disks { DisksServe self.new }
        ensures seat { self.new.seat ≡ self.old.seat }
    {
        if self.seat.address != frame.to {
            return Reaction::dropped(alloc, self.seat.name, Reason::Stray);
        }
        match frame.kind {
            Kind::Data => received(alloc, self.seat.name, frame.packet),
            Kind::Challenge => self.weigh(alloc, now, frame),
            Kind::Response => Reaction::dropped(alloc, self.seat.name, Reason::Kind),
            Kind::ShutOff => self.heed(alloc, now, bytes),
        }
    }

    // What a host that is up does with a shut-off.
    fn heed(&mut self, alloc: Global, now: u64, bytes: &[u8]) -> Result<Reaction, AllocError>
        requires up { down_of self.old ≡ false }
        requires soon { now < 2 ^ 48 }
        requires frame { IsSome (frame_of bytes.now) }
        requires shutoff { IfSome (frame_of bytes.now) (λ f. f.kind ≡ Kind.ShutOff) }
        ensures reaction { (f : Framed) → frame_of bytes.now ≡ Some f
            → IfOk result (λ reaction. reaction ≡ kind_at_host (standing_of self.old now) f Kind.ShutOff) }
        ensures follows { IfOk result (λ reaction. Follows now self.old reaction self.new) }
        ensures unordered { IfOk result (λ reaction. LeavesUnordered reaction self.old.guard self.new.guard) }
        ensures disks { DisksServe self.new }
        ensures seat { self.new.seat ≡ self.old.seat }
    {
        match &mut self.guard {
            Some(guard) => hear(alloc, self.seat.name, guard, &self.log, now, bytes),
            None => Reaction::dropped(alloc, self.seat.name, Reason::Unguarded),
        }
    }

    // What a host that is up does with a challenge.
    fn weigh(&mut self, alloc: Global, now: u64, challenge: &Frame) -> Result<Reaction, AllocError>
        requires up { down_of self.old ≡ false }
        requires soon { now < 2 ^ 48 }
        requires challenge { length challenge.now.body ≡ 154 }
        ensures reaction { IfOk result (λ reaction. reaction
            ≡ challenged (standing_of self.old now) challenge.now (asked_in challenge.now.body)) }
        ensures follows { IfOk result (λ reaction. Follows now self.old reaction self.new) }
        ensures guard { self.new.guard ≡ self.old.guard }
        ensures disks { DisksServe self.new }
        ensures seat { self.new.seat ≡ self.old.seat }
    {
        let asked = challenge_in(challenge);
        if asked_source(&asked) != self.seat.address {
            return Reaction::dropped(alloc, self.seat.name, Reason::NotMine);
        }
        if !self.log.holds_any(&asked_hash(&asked)) {
            return Reaction::dropped(alloc, self.seat.name, Reason::Unlogged);
        }
        self.reply(alloc, now, challenge)
    }

    // Answers a challenge, if the host has a key.
    fn reply(&mut self, alloc: Global, now: u64, challenge: &Frame) -> Result<Reaction, AllocError>
        requires up { down_of self.old ≡ false }
        requires soon { now < 2 ^ 48 }
        requires challenge { length challenge.now.body ≡ 154 }
        ensures reaction { IfOk result (λ reaction. reaction
            ≡ answered (standing_of self.old now) challenge.now (key_in self.old.key)) }
        ensures follows { IfOk result (λ reaction. Follows now self.old reaction self.new) }
        ensures guard { self.new.guard ≡ self.old.guard }
        ensures disks { DisksServe self.new }
        ensures seat { self.new.seat ≡ self.old.seat }
    {
        match &mut self.key {
            Some(key) => {
                let signed = answer(alloc, key, &self.seat, self.towards, challenge)?;
                let reaction = held_back(self.seat.name, &self.guard, now, signed)?;
                note_put(&mut self.log, &reaction);
                Ok(reaction)
            }
            None => Reaction::dropped(alloc, self.seat.name, Reason::Mute),
        }
    }

    // Signs a shut-off that names a frame, or drops it while it is down.
    pub(crate) fn demand(
        &mut self,
        alloc: Global,
        now: u64,
        named: &[u8],
        ttl: u32,
    ) -> Result<Reaction, AllocError>
        requires soon { now < 2 ^ 48 }
        requires key { has_key (key_in self.old.key) ≡ true }
        requires frame { IsSome (frame_of named.now) }
        ensures reaction { (key : Key) (frame : Framed) → key_in self.old.key ≡ Some key → frame_of named.now ≡ Some frame
            → IfOk result (λ reaction. reaction ≡ shut_by (standing_of self.old now) key frame ttl) }
        ensures follows { IfOk result (λ reaction. Follows now self.old reaction self.new) }
        ensures guard { self.new.guard ≡ self.old.guard }
        ensures disks { DisksServe self.new }
        ensures seat { self.new.seat ≡ self.old.seat }
    {
        if self.is_down() {
            return Reaction::dropped(alloc, self.seat.name, Reason::Down);
        }
        let demand = Demand {
            to: from_of(named),
            hash: packet_hash(named),
            issue: now,
            ttl,
        };
        match &mut self.key {
            Some(key) => {
                let signed = silence(alloc, key, &self.seat, self.towards, &demand)?;
                let reaction = held_back(self.seat.name, &self.guard, now, signed)?;
                note_put(&mut self.log, &reaction);
                Ok(reaction)
            }
            None => unreachable!(),
        }
    }

    // Arms a stop of its key, if it has one.
    pub(crate) fn arm_stop(&mut self, call: u8, byte: u8)
        requires key { has_key (key_in self.old.key) ≡ true }
        requires first { 1 ≤ call }
        requires last { call ≤ 2 }
        ensures stop { self.new ≡ record self.old { key = stopped_in self.old.key (record { call = call; byte = byte }) } }
        ensures disks { DisksServe self.new }
        ensures seat { self.new.seat ≡ self.old.seat }
    {
        if let Some(key) = &mut self.key {
            key.stop(call, byte);
        }
    }

    // Arms a halt of its guard, if it has one.
    pub(crate) fn arm_halt(&mut self, call: u8, byte: u8)
        requires first { 1 ≤ call }
        requires last { call ≤ 4 }
        ensures halt { self.new ≡ record self.old { guard = halted_in self.old.guard (record { call = call; byte = byte }) } }
        ensures disks { DisksServe self.new }
        ensures seat { self.new.seat ≡ self.old.seat }
    {
        if let Some(guard) = &mut self.guard {
            guard.halt(call, byte);
        }
    }

    // Clears the log, and restarts the disks.
    fn wake(&mut self)
        ensures restarted { IsRestarted self.old self.new }
        ensures disks { DisksServe self.new }
        ensures seat { self.new.seat ≡ self.old.seat }
    {
        self.log.clear();
        if let Some(key) = &mut self.key {
            key.restart();
        }
        if let Some(guard) = &mut self.guard {
            guard.restart();
        }
    }

    // Starts anew, and a guarded host tells what is in force.
    pub(crate) fn rise(&mut self, alloc: Global, now: u64) -> Result<Reaction, AllocError>
        requires soon { now < 2 ^ 48 }
        ensures reaction { IfOk result (λ reaction. reaction ≡ back_up (standing_of self.old now)) }
        ensures restarted { IsRestarted self.old self.new }
        ensures disks { DisksServe self.new }
        ensures seat { self.new.seat ≡ self.old.seat }
    {
        self.wake();
        match &self.guard {
            Some(guard) => kept(alloc, self.seat.name, guard, now),
            None => Ok(Reaction::nothing(alloc)),
        }
    }
}
