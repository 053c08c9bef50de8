//! MD5 of a message, against the fingerprint of a folder.

use par2_files::{Checkpoints, Digests, fingerprints};
use par2_folder::Folder;
use std::alloc::{AllocError, Global};
use std::test::Fail;

#[tactic(auto, unfolding(par2_spec::specs::Changes::takes_all))]
fn fingerprint_and_digest(
    alloc: Global,
    folder: &Folder,
    bytes: &[u8],
) -> Result<Digests, AllocError> {
    fingerprints(alloc, folder, &[], &Checkpoints::none(alloc), &[bytes])
}

// The digests of no bytes and of `abc` are in RFC 1321 (A.5).
fn are_known(alloc: Global) -> Result<bool, AllocError> {
    let folder = Folder::new(alloc);
    let found = fingerprint_and_digest(alloc, &folder, b"abc")?;
    let is_known = is_only(&found.beside, 0x9001_5098_3cd2_4fb0_d696_3f7d_28e1_7f72);
    Ok(is_known && is_only(&found.along, 0xd41d_8cd9_8f00_b204_e980_0998_ecf8_427e))
}

fn is_only(digests: &[[u8; 16]], wanted: u128) -> bool {
    matches!(digests, [one] if u128::from_be_bytes(*one) == wanted)
}

#[test]
fn empty_folder_beside_a_message(rt: HostRuntime) -> Result<(), Fail> {
    assert!(rt; are_known(rt.alloc())?);
    Ok(())
}
