ghost use Rattle.std.specs.Prelude.{◌<◌, ◌≤◌};

use crate::pairs::pairs_of;
use par2_slices::{Pair, is_intact, pair_of};
use std::process::Abort;

// Eleven whole slices of four bytes, and one of two. The first 36 bytes are nine whole slices.
const BYTES: &[u8; 46] = b"abcdefghijklmnopqrstuvwxyz0123456789+-*/()<>[]";

// Whether `other` is intact for the target with these bytes and slices of four bytes.
fn is_like(rt: &(impl Abort + AllocGlobal), bytes: &[u8], other: &[u8]) -> bool {
    is_intact(other, 4, bytes.len() as u64, &pairs_of(rt, bytes, 4))
}

// Whether the first `len` bytes are intact.
fn is_like_itself(rt: &(impl Abort + AllocGlobal), len: usize) -> bool
    requires { len ≤ 46 }
{
    is_like(rt, &BYTES[..len], &BYTES[..len])
}

// Whether the first `len` bytes are intact with another byte at this position.
fn is_like_but_for(rt: &(impl Abort + AllocGlobal), len: usize, at: usize) -> bool
    requires len { len ≤ 46 }
    requires place { at < 46 }
{
    let mut other = *BYTES;
    other[at] = b'?';
    is_like(rt, &BYTES[..len], &other[..len])
}

#[test]
fn an_intact_file(rt: HostRuntime) {
    for len in [46, 44, 40, 38, 36, 32, 8, 3, 0] {
        assert!(rt; is_like_itself(&rt, len));
    }
}

#[test]
fn one_byte_is_another(rt: HostRuntime) {
    for at in [0, 3, 31, 32, 36, 43, 44, 45] {
        assert!(rt; !is_like_but_for(&rt, 46, at));
    }
    for at in [0, 7, 31, 32, 35] {
        assert!(rt; !is_like_but_for(&rt, 36, at));
    }
}

// Zeros after the bytes have the checksums of the padding.
const LENGTHS: &[(&[u8], &[u8])] = &[(b"ab", b"ab\0"), (b"ab\0", b"ab"), (b"", b"a")];

#[test]
fn another_length(rt: HostRuntime) {
    for (bytes, other) in LENGTHS {
        assert!(rt; !is_like(&rt, bytes, other));
    }
}

// Whether the bytes are intact for a target of their length with these pairs.
fn is_like_by(bytes: &[u8], pairs: &[Pair]) -> bool {
    is_intact(bytes, 4, bytes.len() as u64, pairs)
}

// A pair after the last slice is not compared, nor is a slice after the last pair.
#[test]
fn another_number_of_pairs(rt: HostRuntime) {
    let many = pairs_of(&rt, BYTES, 4);
    assert!(rt; is_like_by(&BYTES[..33], &pairs_of(&rt, &BYTES[..32], 4)));
    assert!(rt; is_like_by(&BYTES[..32], &many) && is_like_by(b"", &many));
    assert!(rt; is_like_by(b"abc", &[]));
}

#[test]
fn one_checksum_is_another(rt: HostRuntime) {
    let (md5, crc) = pair_of(b"abcd", 4);
    assert!(rt; is_like_by(b"abcd", &[(md5, crc)]));
    assert!(rt; !is_like_by(b"abcd", &[([7; 16], crc)]));
    assert!(rt; !is_like_by(b"abcd", &[(md5, crc ^ 1)]));
}
