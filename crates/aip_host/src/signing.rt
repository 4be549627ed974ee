// A key of a host inside a run, with the disk on which its leaves are spent.
ghost use Rattle.std.specs.Prelude.{◌≡◌, ◌≤◌, ℕ, Some, None, false, IfOk, OnOk, OnErr};
ghost use Rattle.lms_core.specs.Tree.{public_key_of};
ghost use Rattle.host_signer.specs.Signers.{disk_of, key_of, next_of};
ghost use Rattle.aip_host.specs.declared.signing.State.TheVariants.{Ready};
ghost use Rattle.aip_host.specs.Signing.{Spends, SignsValidly, IsArming, with_stop};
ghost use Rattle.aip_host.specs.Holding.{kept_in, IsAtRest, IsWoken, HasPlace, IsSigning};

use aip_rules::Arming;
use host_signer::{SignEnd, Signature, Signer};
use leaf_lease::{LEASE_BYTES, LEASE_CALLS, file_size, format};
use lease_disk::MemDisk;
use lms_core::{PublicKey, Tree};
use std::alloc::{AllocError, Global};
use std::marker::Model;

/// How a signing ends.
#[derive(Drop)]
pub enum Signing {
    /// The leaf signed.
    Signed { leaf: u32, signature: Signature },
    /// No leaf is left.
    Dry,
    /// The stop that was armed fell: the key is down until its restart.
    Stopped { leaf: u32, call: u8, byte: u8 },
}

// A key that signs, or one whose disk stopped.
#[derive(Drop)]
enum State {
    Ready {
        signer: Signer<MemDisk>,
        armed: Option<Arming>,
    },
    Fallen {
        disk: MemDisk,
        tree: Tree,
    },
}

/// A key of a host, with the disk on which each of its leaves is spent before it signs.
#[derive(Drop)]
pub struct SigningKey {
    // None only while a call lasts.
    state: Option<State>,
}

impl Model for SigningKey {
    ghost use Rattle.aip_host.specs.Signing.{KeyState};

    ghost Value = { KeyState };

    ghost use Rattle.aip_host.specs.Holding.{kept_of, HoldsKey};

    ghost view = { λ held. kept_of held.state };

    ghost invariant = { λ held. HoldsKey held.state };
}

// A disk that is formatted for the key of a tree.
fn fresh_disk(alloc: Global, tree: &Tree) -> Result<MemDisk, AllocError>
    ensures rest { IfOk result (λ disk. IsAtRest tree.now 0 disk) }
{
    let height = tree.height().levels() as u8;
    let disk = MemDisk::new(alloc, file_size(height), Vec::new(alloc))?;
    match format(disk, tree.id(), height) {
        Ok(disk) => Ok(disk),
        Err(_) => unreachable!(),
    }
}

// The signer on a disk that is at rest.
fn opened(disk: MemDisk, tree: Tree) -> Signer<MemDisk>
    requires rest { (next : ℕ) × IsAtRest tree next disk }
    ensures key { key_of result ≡ tree }
    ensures next { (next : ℕ) → IsAtRest tree next disk → next_of result ≡ next }
    ensures spends { Spends (kept_in (Ready result None)) }
{
    match Signer::open(disk, tree) {
        Ok(signer) => signer,
        Err(_) => unreachable!(),
    }
}

// The disk and the tree of a key, up or down.
fn put_down(state: State) -> (MemDisk, Tree)
    ensures disk { result.0 ≡ (kept_in state).disk }
    ensures key { result.1 ≡ (kept_in state).key }
{
    match state {
        State::Ready { signer, armed: _ } => signer.close(),
        State::Fallen { disk, tree } => (disk, tree),
    }
}

// The key after a restart of its disk.
fn woken(state: State) -> State
    requires spends { Spends (kept_in state) }
    ensures up { IsWoken (kept_in state) (kept_in result) }
{
    let (disk, tree) = put_down(state);
    State::Ready {
        signer: opened(disk.restart(), tree),
        armed: None,
    }
}

// Signs with the next leaf, where the disk has place for it.
fn spent(
    signer: Signer<MemDisk>,
    armed: Option<Arming>,
    alloc: Global,
    message: &[u8],
) -> (State, Result<Signing, AllocError>)
    requires spends { Spends (kept_in (Ready signer armed)) }
    requires place { HasPlace (disk_of signer) }
    ensures signed { IsSigning (kept_in (Ready signer armed)) message.now result.1 (kept_in result.0) }
    ensures valid { IfOk result.1 (λ signing. SignsValidly (public_key_of (key_of signer)) message.now signing) }
{
    let leaf = signer.next();
    match signer.sign(alloc, message) {
        Ok((signer, leaf, signature)) => (
            State::Ready { signer, armed },
            Ok(Signing::Signed { leaf, signature }),
        ),
        Err(SignEnd::Memory { signer }) => (State::Ready { signer, armed }, Err(AllocError)),
        Err(SignEnd::Dry { signer }) => (State::Ready { signer, armed }, Ok(Signing::Dry)),
        Err(SignEnd::Failed { disk, tree }) => match armed {
            Some(Arming { call, byte }) => (
                State::Fallen { disk, tree },
                Ok(Signing::Stopped { leaf, call, byte }),
            ),
            None => unreachable!(),
        },
    }
}

// Makes place on the disk for a signing, and signs with the next leaf.
fn signed(
    signer: Signer<MemDisk>,
    armed: Option<Arming>,
    alloc: Global,
    message: &[u8],
) -> (State, Result<Signing, AllocError>)
    requires spends { Spends (kept_in (Ready signer armed)) }
    ensures signed { IsSigning (kept_in (Ready signer armed)) message.now result.1 (kept_in result.0) }
    ensures valid { IfOk result.1 (λ signing. SignsValidly (public_key_of (key_of signer)) message.now signing) }
{
    let mut signer = signer;
    match signer.reserve(LEASE_CALLS, LEASE_BYTES) {
        Ok(()) => spent(signer, armed, alloc, message),
        Err(_) => (State::Ready { signer, armed }, Err(AllocError)),
    }
}

// Arms a stop, unless the key is down.
fn armed_at(state: State, arming: Arming) -> State
    requires spends { Spends (kept_in state) }
    requires call { IsArming (Some arming) }
    ensures kept { kept_in result ≡ with_stop (kept_in state) arming }
    ensures spends { Spends (kept_in result) }
{
    match state {
        State::Ready {
            mut signer,
            armed: _,
        } => {
            signer.stop_at(arming.call, arming.byte);
            State::Ready {
                signer,
                armed: Some(arming),
            }
        }
        fallen => fallen,
    }
}

impl SigningKey {
    ghost use Rattle.aip_host.specs.Signing.{signing_of, next_after, stop_after, down_after, disk_after, with_stop, SameButPlace};

    /// The key of a tree, with no leaf spent. It makes a disk for it, formats and opens it. The only error is want of memory.
    pub fn new(alloc: Global, tree: Tree) -> Result<SigningKey, AllocError>
        ensures key { IfOk result (λ held. held.key ≡ tree) }
        ensures next { IfOk result (λ held. held.next ≡ 0) }
        ensures stop { IfOk result (λ held. held.stop ≡ None) }
        ensures up { IfOk result (λ held. held.is_down ≡ false) }
        ensures spends { IfOk result (λ held. Spends held) }
    {
        let disk = fresh_disk(alloc, &tree)?;
        let signer = opened(disk, tree);
        Ok(SigningKey {
            state: Some(State::Ready {
                signer,
                armed: None,
            }),
        })
    }

    /// The public key, under which its signatures are valid.
    pub fn public(&self) -> PublicKey
        ensures key { result ≡ public_key_of self.now.key }
        ensures spends { Spends self.now }
    {
        match &self.state {
            Some(State::Ready { signer, armed: _ }) => signer.public(),
            Some(State::Fallen { disk: _, tree }) => tree.public(),
            None => unreachable!(),
        }
    }

    /// Whether a stop fell since the last restart.
    pub fn is_down(&self) -> bool
        ensures down { result ≡ self.now.is_down }
        ensures spends { Spends self.now }
    {
        matches!(self.state, Some(State::Fallen { .. }))
    }

    /// Signs with the next leaf, once it is spent on the disk. Where no leaf is left the key stays as it is; else, where a
    /// stop is armed, it falls, and the key is down. The only error is want of memory: then no leaf is spent.
    pub fn sign(&mut self, alloc: Global, message: &[u8]) -> Result<Signing, AllocError>
        requires up { self.old.is_down ≡ false }
        // How the signing ends, and how the key stands then.
        ensures valid { IfOk result (λ signing. SignsValidly (public_key_of self.old.key) message.now signing) }
        ensures answer { IfOk result (λ signing. signing ≡ signing_of self.old message.now) }
        ensures next { OnOk result (self.new.next ≡ next_after self.old) }
        ensures stop { OnOk result (self.new.stop ≡ stop_after self.old) }
        ensures down { OnOk result (self.new.is_down ≡ down_after self.old) }
        ensures disk { OnOk result (self.new.disk ≡ disk_after self.old self.new.disk) }
        // Where memory is wanting, the key stands as before.
        ensures same_next { OnErr result (self.new.next ≡ self.old.next) }
        ensures same_stop { OnErr result (self.new.stop ≡ self.old.stop) }
        ensures same_down { OnErr result (self.new.is_down ≡ self.old.is_down) }
        ensures same_disk { OnErr result (SameButPlace self.old.disk self.new.disk) }
        ensures key { self.new.key ≡ self.old.key }
        ensures spends { Spends self.new }
    {
        match self.state.take() {
            Some(State::Ready { signer, armed }) => {
                let (state, end) = signed(signer, armed, alloc, message);
                self.state = Some(state);
                end
            }
            _ => unreachable!(),
        }
    }

    /// Arms a stop at the call of the next signing, 1 or 2, which leaves the byte. It takes the place of one that is armed.
    /// While the key is down nothing changes.
    pub fn stop(&mut self, call: u8, byte: u8)
        requires first { 1 ≤ call }
        requires last { call ≤ 2 }
        ensures stop { self.new ≡ with_stop self.old (record { call = call; byte = byte }) }
        ensures same { (self.new.key ≡ self.old.key) × (self.new.next ≡ self.old.next)
            × (self.new.is_down ≡ self.old.is_down) }
        ensures spends { Spends self.new }
    {
        if let Some(state) = self.state.take() {
            self.state = Some(armed_at(state, Arming { call, byte }));
        }
    }

    /// Restarts the disk and opens it. The key is up then, and no stop is armed.
    pub fn restart(&mut self)
        ensures up { self.new.is_down ≡ false }
        ensures stop { self.new.stop ≡ None }
        ensures key { self.new.key ≡ self.old.key }
        ensures next { self.new.next ≡ self.old.next }
        ensures spends { Spends self.new }
    {
        if let Some(state) = self.state.take() {
            self.state = Some(woken(state));
        }
    }
}
