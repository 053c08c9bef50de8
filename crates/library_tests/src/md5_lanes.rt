//! Digests in lanes, side by side, against the hasher of one message.

ghost use Rattle.std.specs.Prelude.{◌≤◌};

use md5::{Digest, Md5};
use par2_md5_lanes::{LANES, window_digests};

const BYTES: &[u8] = b"The quick brown fox jumps over the lazy dog";

// Whether the first digests are these numbers, which their hexadecimal digits spell.
fn are_spelled(digests: &[[u8; 16]; LANES], numbers: &[u128]) -> bool {
    for (digest, number) in digests.iter().zip(numbers.iter()) {
        if u128::from_be_bytes(*digest) != *number {
            return false;
        }
    }
    true
}

// Values of md5sum.
const EXPECTED: [u128; 8] = [
    0xb9b9_2654_4b8e_cd5c_3ef5_53a8_7170_b726,
    0x442c_ffd0_4438_a9d6_e6de_8607_b7fd_5509,
    0x352f_edc7_6fd6_9d79_d776_c8fb_be7d_87c6,
    0x5839_ae27_5936_ecbd_1ff6_a4e5_421d_bd8b,
    0x2620_9f23_b95e_5dc4_0ac9_ea67_85de_cf8c,
    0x2620_9f23_b95e_5dc4_0ac9_ea67_85de_cf8c,
    0x2532_7c35_b4c8_c824_3fcc_e1e6_17f7_ea79,
    0x4dab_19db_799e_70f1_123a_1f94_ac3c_45fb,
];

const WHOLE: u128 = 0x9e10_7d9d_372b_b682_6bd8_1d35_42a4_19d6;

const NOTHING: u128 = 0xd41d_8cd9_8f00_b204_e980_0998_ecf8_427e;

const STARTS_OF_WORDS: &[usize; LANES] = &[
    0, 1, 4, 10, 16, 16, 31, 35, 35, 31, 16, 16, 10, 4, 1, 0,
];

#[test]
fn windows_of_a_sentence(rt: HostRuntime) {
    for count in [1, 2, 8, 9, 16] {
        let digests = window_digests(BYTES, STARTS_OF_WORDS, count, 8);
        let own = count.min(8);
        assert!(rt; are_spelled(&digests, &EXPECTED[..own]), "{count} windows");
    }
}

// The second eight are the first eight in reverse.
#[test]
fn sixteen_windows_of_a_sentence(rt: HostRuntime) {
    let digests = window_digests(BYTES, STARTS_OF_WORDS, LANES, 8);
    for k in 0..8 {
        assert!(rt; digests[15 - k] == digests[k], "window {k}");
    }
}

#[test]
fn the_whole_message_sixteen_times(rt: HostRuntime) {
    let digests = window_digests(BYTES, &[0; LANES], LANES, BYTES.len());
    assert!(rt; are_spelled(&digests, &[WHOLE; LANES]));
}

#[test]
fn empty_windows(rt: HostRuntime) {
    let starts = [0, 1, 2, 3, 40, 41, 42, 43, 43, 42, 41, 40, 3, 2, 1, 0];
    let digests = window_digests(BYTES, &starts, LANES, 0);
    assert!(rt; are_spelled(&digests, &[NOTHING; LANES]));
}

const STARTS: &[usize; LANES] = &[
    0, 1, 1, 500, 501, 64, 900, 1000, 2, 3, 63, 65, 128, 700, 999, 512,
];

fn window(bytes: &[u8], start: usize, len: usize) -> &[u8] {
    let rest = &bytes[start.min(bytes.len())..];
    &rest[..len.min(rest.len())]
}

// Whether the first `count` windows of `len` bytes have the digests of the hasher.
fn are_by_the_hasher(bytes: &[u8; 2048], count: usize, len: usize) -> bool
    requires few { count ≤ 16 }
    requires within { len ≤ 1000 }
{
    let digests = window_digests(bytes, STARTS, count, len);
    for (digest, start) in digests.iter().zip(STARTS[..count].iter()) {
        if *digest != Md5::digest(window(bytes, *start, len)) {
            return false;
        }
    }
    true
}

// Lengths around the edges of a block and of the padding.
#[test]
fn as_the_hasher_of_one_message(rt: HostRuntime) {
    let mut bytes = [0; 2048];
    for i in 0..bytes.len() {
        bytes[i] = ((i * i / 7 + i) % 256) as u8;
    }
    for len in [0, 1, 55, 56, 57, 63, 64, 65, 119, 120, 128, 1000] {
        for count in 0..LANES + 1 {
            assert!(rt;
                are_by_the_hasher(&bytes, count, len),
                "{count} windows of {len} bytes"
            );
        }
    }
}
