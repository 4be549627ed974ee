//! Times one-time signatures, keys, signatures and verifications, by the time that the whole program takes.
//!
//! A word names the work. `chain` makes 230 public keys of digits of eight bits, with chains of one length; `single` signs
//! under each of the 230 leaves and takes each signature on to its key, with chains of unequal lengths. Either makes
//! 230 * 34 * 255, which is 1,994,100, steps of chains, and about 8,000 other hashes. `small` makes 400 keys of digits of
//! four bits with trees of height 5, and `tall` 20 keys of digits of two bits with trees of height 10. `sign` makes 4,000
//! signatures with one key of the first kind, and `verify` verifies one of them 4,000 times. With no word it does a little
//! of each.
#![tactic(auto)]

use lmots_core::{candidate, public};
use lms_core::{Height, Tree, Width, signature_len, verify};
use std::alloc::{AllocError, Global};
use std::{env, io};

const SEED: [u8; 32] = [7; 32];

const ID: [u8; 16] = [9; 16];

// The first bytes of the public keys of so many leaves, under xor.
fn fold_of_public_keys(leaves: u32) -> u8 {
    let mut fold = 0;
    'leaves: for q in 0..leaves {
        fold ^= public(Width::W8, &SEED, &ID, q)[0];
    }
    fold
}

// The same of the keys that signatures lead to.
fn fold_of_candidates(leaves: u32) -> u8 {
    let mut fold = 0;
    let mut signature = [0; 1124];
    'leaves: for q in 0..leaves {
        lmots_core::sign(Width::W8, &SEED, &ID, q, b"message", &mut signature);
        if let Some(key) = candidate(&ID, q, b"message", &signature) {
            fold ^= key[0];
        }
    }
    fold
}

// The last bytes of the public keys of so many trees, under xor.
fn fold_of_trees(
    alloc: Global,
    trees: u8,
    width: Width,
    height: Height,
    turns: u8,
) -> Result<u8, AllocError> {
    let mut fold = 0;
    'turns: for turn in 0..turns {
        fold ^= fold_of_turn(alloc, trees, width, height, turn)?;
    }
    Ok(fold)
}

fn fold_of_turn(
    alloc: Global,
    trees: u8,
    width: Width,
    height: Height,
    turn: u8,
) -> Result<u8, AllocError> {
    let mut fold = 0;
    'trees: for number in 0..trees {
        let mut seed = SEED;
        seed[0] = number;
        seed[1] = turn;
        let tree = Tree::build(alloc, &seed, width, height)?;
        fold ^= tree.public().bytes()[55];
    }
    Ok(fold)
}

// The bytes 100 of so many signatures, under xor.
fn fold_of_signatures(alloc: Global, tree: &Tree, count: u32) -> Result<u8, AllocError> {
    let mut fold = 0;
    let mut signature = vec![in alloc; 0; signature_len(tree.width(), tree.height())]?;
    'signatures: for number in 0..count {
        tree.sign(number % 32, &number.to_be_bytes(), &mut signature);
        fold ^= signature[100];
    }
    Ok(fold)
}

// How often a signature is valid, of so many times.
fn valid_times(alloc: Global, tree: &Tree, count: u32) -> Result<usize, AllocError> {
    let mut signature = vec![in alloc; 0; signature_len(tree.width(), tree.height())]?;
    tree.sign(3, b"message", &mut signature);
    let key = tree.public();
    Ok(
        (0..count)
            .filter(|_| verify(&key, b"message", &signature))
            .count(),
    )
}

// Makes keys, or one of each kind where all is asked for.
fn time_keys<R: AllocGlobal + Print>(rt: &R, word: &str, all: bool) -> io::Result<()> {
    if all || word == "small" {
        let (trees, turns) = if all { (1, 1) } else { (100, 4) };
        let fold = fold_of_trees(rt.alloc(), trees, Width::W4, Height::H5, turns)?;
        println!(rt; "small keys: {fold:02x}")?;
    }
    if all || word == "tall" {
        let trees = if all { 1 } else { 20 };
        let fold = fold_of_trees(rt.alloc(), trees, Width::W2, Height::H10, 1)?;
        println!(rt; "tall keys: {fold:02x}")?;
    }
    Ok(())
}

// Signs and verifies, or a little of both where all is asked for.
fn time_signatures<R: AllocGlobal + Print>(rt: &R, word: &str, all: bool) -> io::Result<()> {
    let count = if all { 2 } else { 4000 };
    let tree = Tree::build(rt.alloc(), &SEED, Width::W4, Height::H5)?;
    if all || word == "sign" {
        let fold = fold_of_signatures(rt.alloc(), &tree, count)?;
        println!(rt; "{count} signatures: {fold:02x}")?;
    }
    if all || word == "verify" {
        let valid = valid_times(rt.alloc(), &tree, count)?;
        println!(rt; "{valid} of {count} are valid")?;
    }
    Ok(())
}

// Hashes chains.
fn time_chains<R: Print>(rt: &R, word: &str, all: bool) -> io::Result<()> {
    let leaves = if all { 1 } else { 230 };
    if all || word == "chain" {
        println!(rt;
            "keys of {leaves} leaves: {:02x}",
            fold_of_public_keys(leaves)
        )?;
    }
    if all || word == "single" {
        println!(rt;
            "candidates of {leaves} leaves: {:02x}",
            fold_of_candidates(leaves)
        )?;
    }
    Ok(())
}

fn main(rt: HostRuntime) -> io::Result<()> {
    let word = env::args(&rt)?.nth(1);
    let word = match &word {
        Some(word) => word.as_str(),
        None => "",
    };
    let all = word.is_empty();
    time_chains(&rt, word, all)?;
    time_keys(&rt, word, all)?;
    time_signatures(&rt, word, all)
}
