//! Outside vectors, made by two implementations that share no code and accepted by a third, a verifier of a well-known
//! crypto library; and each public call once.
ghost use Rattle.std.specs.Prelude.{◌<◌};
ghost use Rattle.lms_core.specs.Parameters.{leaves_of};

use crate::{Height, PublicKey, Tree, Width, key_id, signature_len, verify};
use sha2::{Digest, Sha256};
use std::alloc::{AllocError, Global};
use std::test::Fail;

// The signature of a message under a leaf of the tree.
fn signature_by(alloc: Global, tree: &Tree, q: u32, message: &[u8]) -> Result<Vec<u8>, AllocError>
    requires { q < leaves_of tree.now.height }
{
    let mut signature = vec![in alloc; 0; signature_len(tree.width(), tree.height())]?;
    tree.sign(q, message, &mut signature);
    Ok(signature)
}

#[test]
fn vectors_of_w4_h5(rt: HostRuntime) -> Result<(), Fail> {
    let tree = Tree::build(rt.alloc(), &[0x45; 32], Width::W4, Height::H5)?;
    let public: [u8; 56] = [
        0x00, 0x00, 0x00, 0x05, 0x00, 0x00, 0x00, 0x03, 0xff, 0x60, 0xb4, 0x1f, 0x88, 0xdb, 0x3b,
        0x3a, 0x3d, 0xcb, 0xac, 0xd2, 0x06, 0x4d, 0xa1, 0x25, 0x8e, 0xe6, 0x88, 0x63, 0xee, 0x08,
        0x3a, 0xd4, 0x67, 0x72, 0xd9, 0x88, 0xb5, 0x9b, 0xc8, 0xea, 0x43, 0xde, 0xaf, 0x40, 0x5e,
        0xd8, 0xce, 0x90, 0xed, 0xc2, 0x48, 0x32, 0x11, 0x73, 0x0b, 0x58,
    ];
    assert!(rt; tree.public().bytes() == public);

    let message = b"";
    let signature = signature_by(rt.alloc(), &tree, 0, message)?;
    let digest: [u8; 32] = [
        0x78, 0x17, 0xef, 0xbb, 0x27, 0x41, 0xac, 0x2e, 0xbb, 0x1b, 0xc9, 0xe4, 0x98, 0x53, 0x12,
        0xea, 0x01, 0x60, 0xb9, 0xf7, 0xb8, 0xd2, 0x9d, 0x12, 0xe8, 0x39, 0xe5, 0x7d, 0xf5, 0xa4,
        0xb9, 0xaa,
    ];
    assert!(rt; signature.len() == 2348);
    assert!(rt; Sha256::digest(signature.as_slice()) == digest);
    assert!(rt; verify(&tree.public(), message, &signature));

    let message = b"\x47\x76\xbc\xb0\x1b\x46\xf7\x60\x53\x87\x4d\x06\xea\x7f\x9c\x56\x48\xfc\x94";
    let signature = signature_by(rt.alloc(), &tree, 17, message)?;
    let digest: [u8; 32] = [
        0xe8, 0xbe, 0xf7, 0xe1, 0xdf, 0x41, 0x36, 0x6e, 0x82, 0xaa, 0xe0, 0x13, 0x35, 0xd8, 0xaf,
        0x7f, 0x3b, 0x9b, 0x2a, 0x3d, 0x29, 0x48, 0xd9, 0x92, 0x18, 0x2b, 0xf5, 0x29, 0xb9, 0xbf,
        0xe9, 0x45,
    ];
    assert!(rt; signature.len() == 2348);
    assert!(rt; Sha256::digest(signature.as_slice()) == digest);
    assert!(rt; verify(&tree.public(), message, &signature));
    Ok(())
}

#[test]
fn vectors_of_w1_h5(rt: HostRuntime) -> Result<(), Fail> {
    let tree = Tree::build(rt.alloc(), &[0x15; 32], Width::W1, Height::H5)?;
    let public: [u8; 56] = [
        0x00, 0x00, 0x00, 0x05, 0x00, 0x00, 0x00, 0x01, 0xa5, 0x97, 0x71, 0xdc, 0x1a, 0xab, 0x08,
        0xed, 0x9b, 0x8a, 0x30, 0x9b, 0xc4, 0x1d, 0xd3, 0x1a, 0x13, 0x48, 0x05, 0x8c, 0xe7, 0x55,
        0x5b, 0x2c, 0x5f, 0xfb, 0x0e, 0xfc, 0xe1, 0xd8, 0xbb, 0x22, 0x8b, 0xfc, 0x16, 0x19, 0xd7,
        0x1d, 0xdd, 0x1d, 0x62, 0x4b, 0xad, 0x69, 0xa1, 0xa9, 0x9b, 0x30,
    ];
    assert!(rt; tree.public().bytes() == public);

    let message = b"";
    let signature = signature_by(rt.alloc(), &tree, 0, message)?;
    let digest: [u8; 32] = [
        0x8c, 0xa7, 0x20, 0x5d, 0x85, 0xf8, 0x46, 0xfc, 0x3e, 0x60, 0x13, 0xbe, 0x4a, 0xd0, 0x87,
        0x57, 0x45, 0x4e, 0xb0, 0x1c, 0x04, 0x26, 0x9d, 0x7e, 0xeb, 0x1f, 0xa4, 0x3c, 0x12, 0x27,
        0x84, 0x34,
    ];
    assert!(rt; signature.len() == 8684);
    assert!(rt; Sha256::digest(signature.as_slice()) == digest);
    assert!(rt; verify(&tree.public(), message, &signature));
    Ok(())
}

#[test]
fn vectors_of_w8_h5(rt: HostRuntime) -> Result<(), Fail> {
    let tree = Tree::build(rt.alloc(), &[0x85; 32], Width::W8, Height::H5)?;
    let public: [u8; 56] = [
        0x00, 0x00, 0x00, 0x05, 0x00, 0x00, 0x00, 0x04, 0xbf, 0xfa, 0xa6, 0x49, 0x05, 0xa4, 0x67,
        0xb4, 0xf6, 0x31, 0xff, 0xee, 0x00, 0x99, 0x00, 0x2c, 0xc1, 0x36, 0xc1, 0x78, 0x28, 0xba,
        0xc9, 0xfd, 0x6d, 0x8d, 0x26, 0xe8, 0xc1, 0xd6, 0x57, 0xb6, 0x71, 0xb8, 0x85, 0xc8, 0x28,
        0x51, 0xe3, 0x53, 0xbd, 0x07, 0xf1, 0x8f, 0x15, 0x94, 0xc0, 0x2e,
    ];
    assert!(rt; tree.public().bytes() == public);

    let message = [
        0x30, 0x27, 0xcf, 0x93, 0x51, 0x97, 0xf2, 0xbc, 0xed, 0xbc, 0x0c, 0xd6, 0xdd, 0x5f, 0xc1,
        0xb6, 0xf8, 0x75, 0x7e, 0xdf, 0x1c, 0xd6, 0x2a, 0x56, 0xcb, 0x86, 0x03, 0xf9, 0xd6, 0x29,
        0x44, 0x0e, 0x4e, 0x3a, 0x62, 0x9c, 0x44, 0x2f, 0x69, 0x0e, 0xc3, 0x2e, 0xbb, 0x0d, 0x66,
        0x64, 0x99, 0xfb, 0x53, 0x4a, 0x29, 0xbb, 0xd2, 0xec, 0xf9, 0x4a, 0xcd,
    ];
    let signature = signature_by(rt.alloc(), &tree, 31, &message)?;
    let digest: [u8; 32] = [
        0xdd, 0x64, 0x93, 0x76, 0x8d, 0xdd, 0x8e, 0x7c, 0x94, 0xef, 0xb2, 0x37, 0x57, 0x04, 0x10,
        0x14, 0x4f, 0xd0, 0xfa, 0x7d, 0xe6, 0x01, 0x34, 0x9b, 0x23, 0x90, 0x4d, 0x30, 0x13, 0xda,
        0xf1, 0xeb,
    ];
    assert!(rt; signature.len() == 1292);
    assert!(rt; Sha256::digest(signature.as_slice()) == digest);
    assert!(rt; verify(&tree.public(), &message, &signature));
    Ok(())
}

#[test]
fn vectors_of_w2_h10(rt: HostRuntime) -> Result<(), Fail> {
    let tree = Tree::build(rt.alloc(), &[0x2a; 32], Width::W2, Height::H10)?;
    let public: [u8; 56] = [
        0x00, 0x00, 0x00, 0x06, 0x00, 0x00, 0x00, 0x02, 0x37, 0x88, 0xae, 0x3d, 0x8d, 0x51, 0x42,
        0xf3, 0xb7, 0x16, 0x15, 0x6b, 0x12, 0xb9, 0x03, 0x1a, 0x30, 0x0d, 0x45, 0xd1, 0x89, 0xed,
        0xbe, 0x53, 0xda, 0x54, 0x37, 0xb3, 0x32, 0xf1, 0x11, 0xcc, 0xf6, 0xa4, 0x5c, 0xc0, 0xd7,
        0x4a, 0x65, 0x05, 0xf6, 0x0d, 0xed, 0xc6, 0x92, 0xda, 0x6c, 0x18,
    ];
    assert!(rt; tree.public().bytes() == public);

    let message = b"\x5b\x93\xea\x9c\x52\x3f\x82\xf0\x94";
    let signature = signature_by(rt.alloc(), &tree, 1023, message)?;
    let digest: [u8; 32] = [
        0x4d, 0x8f, 0xff, 0x66, 0x52, 0x09, 0x49, 0xe6, 0xb0, 0x0e, 0x81, 0x78, 0x6c, 0x4c, 0xfe,
        0xcf, 0xcf, 0xc2, 0x5f, 0x36, 0x7d, 0x0c, 0xe8, 0x90, 0xa2, 0x83, 0x50, 0xaa, 0xaa, 0xb8,
        0xb2, 0x1e,
    ];
    assert!(rt; signature.len() == 4620);
    assert!(rt; Sha256::digest(signature.as_slice()) == digest);
    assert!(rt; verify(&tree.public(), message, &signature));
    Ok(())
}

// A signature has 2348 bytes: it is refused where a byte is missing or too many.
#[test]
fn signatures_of_other_lengths(rt: HostRuntime) -> Result<(), Fail> {
    let tree = Tree::build(rt.alloc(), &[0x45; 32], Width::W4, Height::H5)?;
    let key = tree.public();
    let mut signature = signature_by(rt.alloc(), &tree, 0, b"text")?;
    signature.push(0)?;
    assert!(rt; signature.len() == 2349);
    assert!(rt; !verify(&key, b"text", &signature));
    signature.truncate(2348);
    assert!(rt; verify(&key, b"text", &signature));
    signature.truncate(2347);
    assert!(rt; !verify(&key, b"text", &signature));
    Ok(())
}

// It is refused for another message, under another key, and where its leaf is none of the 32.
#[test]
fn signatures_of_other_leaves(rt: HostRuntime) -> Result<(), Fail> {
    let tree = Tree::build(rt.alloc(), &[0x45; 32], Width::W4, Height::H5)?;
    let other = Tree::build(rt.alloc(), &[0x46; 32], Width::W4, Height::H5)?;
    let mut signature = signature_by(rt.alloc(), &tree, 0, b"text")?;
    assert!(rt; verify(&tree.public(), b"text", &signature));
    assert!(rt; !verify(&tree.public(), b"test", &signature));
    assert!(rt; !verify(&other.public(), b"text", &signature));

    let bytes = signature.as_mut_slice();
    assert!(rt; bytes.len() == 2348);
    bytes[3] = 32;
    assert!(rt; !verify(&tree.public(), b"text", bytes));
    Ok(())
}

#[test]
fn what_a_tree_is_made_from(rt: HostRuntime) -> Result<(), Fail> {
    let tree = Tree::build(rt.alloc(), &[0x45; 32], Width::W4, Height::H5)?;
    let id: [u8; 16] = [
        0xff, 0x60, 0xb4, 0x1f, 0x88, 0xdb, 0x3b, 0x3a, 0x3d, 0xcb, 0xac, 0xd2, 0x06, 0x4d, 0xa1,
        0x25,
    ];
    assert!(rt; key_id(&[0x45; 32]) == id);
    assert!(rt; tree.id() == id);
    assert!(rt; tree.seed() == [0x45; 32]);
    assert!(rt; tree.width() == Width::W4);
    assert!(rt; tree.height() == Height::H5);
    Ok(())
}

#[test]
fn public_keys(rt: HostRuntime) {
    let mut bytes = [7; 57];
    bytes[..8].copy_from_slice(&[0, 0, 0, 6, 0, 0, 0, 4]);
    match PublicKey::read(&bytes[..56]) {
        Some(key) => assert!(rt; key.bytes().as_slice() == &bytes[..56]),
        None => assert!(rt; false, "a whole key"),
    }
    assert!(rt; PublicKey::read(&bytes[..55]).is_none());
    assert!(rt; PublicKey::read(&bytes).is_none());
    bytes[3] = 7;
    assert!(rt;
        PublicKey::read(&bytes[..56]).is_none(),
        "a height that is none of the two"
    );
    bytes[3] = 5;
    bytes[7] = 5;
    assert!(rt;
        PublicKey::read(&bytes[..56]).is_none(),
        "a width that is none of the four"
    );
}

#[test]
fn parameters(rt: HostRuntime) {
    assert!(rt; Height::H5.code() == 5 && Height::H10.code() == 6);
    assert!(rt; Height::from_code(5) == Some(Height::H5) && Height::from_code(7).is_none());
    assert!(rt; Height::H5.leaves() == 32 && Height::H10.leaves() == 1024);
    assert!(rt; Height::H5.levels() == 5 && Height::H10.levels() == 10);
    assert!(rt; signature_len(Width::W4, Height::H5) == 2348);
    assert!(rt; signature_len(Width::W1, Height::H10) == 8844);
}
