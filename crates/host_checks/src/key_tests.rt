//! Keys that sign to their last leaf, and keys whose disk stops.
ghost use Rattle.std.specs.Prelude.{◌≤◌};

use aip_host::{Arming, Signing, SigningKey};
use lms_core::{Height, Tree, Width, verify};
use std::alloc::{AllocError, Global};
use std::process::Abort;
use std::test::Fail;

fn key_of(alloc: Global) -> Result<SigningKey, AllocError> {
    SigningKey::new(
        alloc,
        Tree::build(alloc, &[0x45; 32], Width::W4, Height::H5)?,
    )
}

// Which leaf signs now, where one does and its signature is valid.
fn signed_once(alloc: Global, key: &mut SigningKey) -> Result<Option<u32>, AllocError> {
    if key.is_down() {
        return Ok(None);
    }
    let public = key.public();
    match key.sign(alloc, b"text")? {
        Signing::Signed { leaf, signature } if verify(&public, b"text", signature.as_slice()) => {
            Ok(Some(leaf))
        }
        _ => Ok(None),
    }
}

// Which leaf the stop names that falls now, where this one does.
fn stopped_once(
    alloc: Global,
    key: &mut SigningKey,
    arming: Arming,
) -> Result<Option<u32>, AllocError> {
    if key.is_down() {
        return Ok(None);
    }
    match key.sign(alloc, b"stopped")? {
        Signing::Stopped { leaf, call, byte } if Arming { call, byte } == arming => Ok(Some(leaf)),
        _ => Ok(None),
    }
}

// Whether no leaf is left, and the key stays up.
fn is_dry(alloc: Global, key: &mut SigningKey) -> Result<bool, AllocError> {
    if key.is_down() {
        return Ok(false);
    }
    let end = key.sign(alloc, b"text")?;
    Ok(matches!(end, Signing::Dry) && !key.is_down())
}

// A key with its 32 leaves.
fn signs_with_each_leaf(rt: &impl Abort, alloc: Global, key: &mut SigningKey) -> Result<(), Fail> {
    for leaf in 0..32 {
        assert_eq!(rt; signed_once(alloc, key)?, Some(leaf));
    }
    assert!(rt; is_dry(alloc, key)?);
    // A dry key keeps its stop, and stays up.
    key.stop(1, 255);
    assert!(rt; is_dry(alloc, key)?);
    assert!(rt; is_dry(alloc, key)?);
    Ok(())
}

#[test]
fn each_leaf_signs_once_and_then_none_is_left(rt: HostRuntime) -> Result<(), Fail> {
    let mut key = key_of(rt.alloc())?;
    signs_with_each_leaf(&rt, rt.alloc(), &mut key)
}

// Whether a key signs with its leaf 0, and then this stop falls at its leaf 1.
fn falls(alloc: Global, key: &mut SigningKey, call: u8, byte: u8) -> Result<bool, AllocError>
    requires first { 1 ≤ call }
    requires last { call ≤ 2 }
{
    let first = signed_once(alloc, key)?;
    key.stop(call, byte);
    let stopped = stopped_once(alloc, key, Arming { call, byte })?;
    Ok(first == Some(0) && stopped == Some(1) && key.is_down())
}

// The leaf that signs once the stop of the second signing fell and the key is up again.
fn leaf_past(alloc: Global, call: u8, byte: u8) -> Result<Option<u32>, AllocError>
    requires first { 1 ≤ call }
    requires last { call ≤ 2 }
{
    let mut key = key_of(alloc)?;
    let fell = falls(alloc, &mut key, call, byte)?;
    key.stop(call, byte);
    key.restart();
    if !fell {
        return Ok(None);
    }
    signed_once(alloc, &mut key)
}

#[test]
fn a_stop_spends_the_leaf_unless_it_leaves_zero(rt: HostRuntime) -> Result<(), Fail> {
    for byte in [0, 1, 165, 255] {
        let leaf = if byte == 0 { 1 } else { 2 };
        assert_eq!(rt; leaf_past(rt.alloc(), 1, byte)?, Some(leaf), "byte {byte}");
        assert_eq!(rt; leaf_past(rt.alloc(), 2, byte)?, Some(leaf), "byte {byte}");
    }
    Ok(())
}

// At each leaf the signing stops first. Where the byte is 0 the leaf signs after the restart.
fn signs_over_stops(rt: &impl Abort, alloc: Global, key: &mut SigningKey) -> Result<(), Fail> {
    for leaf in 0..32 {
        let byte = if leaf % 3 == 0 { 0 } else { leaf as u8 };
        let call = if leaf % 2 == 0 { 1 } else { 2 };
        key.stop(call, byte);
        let stopped = stopped_once(alloc, key, Arming { call, byte })?;
        assert_eq!(rt; stopped, Some(leaf));
        key.restart();
        if byte == 0 {
            assert_eq!(rt; signed_once(alloc, key)?, Some(leaf));
        }
    }
    assert!(rt; is_dry(alloc, key)?);
    Ok(())
}

#[test]
fn no_leaf_signs_twice_over_stops(rt: HostRuntime) -> Result<(), Fail> {
    let mut key = key_of(rt.alloc())?;
    signs_over_stops(&rt, rt.alloc(), &mut key)
}

// A key with its 32 leaves.
fn forgets_stops(rt: &impl Abort, alloc: Global, key: &mut SigningKey) -> Result<(), Fail> {
    key.stop(2, 9);
    key.stop(1, 0);
    let stopped = stopped_once(alloc, key, Arming { call: 1, byte: 0 })?;
    assert_eq!(rt; stopped, Some(0));
    key.restart();
    key.stop(1, 7);
    key.restart();
    for leaf in 0..3 {
        assert_eq!(rt; signed_once(alloc, key)?, Some(leaf));
        key.restart();
    }
    Ok(())
}

#[test]
fn a_stop_replaces_another_and_a_restart_disarms(rt: HostRuntime) -> Result<(), Fail> {
    let mut key = key_of(rt.alloc())?;
    forgets_stops(&rt, rt.alloc(), &mut key)
}
