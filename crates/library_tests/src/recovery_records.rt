//! The record of a file in a set.

ghost use Rattle.std.specs.Prelude.{◌≤◌};

use md5::{Digest, Md5};
use par2_inputs::file_record_by_md5;
use par2_packets::{FileRecord, Pair};
use std::process::Abort;

fn record_of(rt: &(impl Abort + AllocGlobal), name: &str, bytes: &[u8], s: u64) -> FileRecord
    requires { 1 ≤ s }
{
    file_record_by_md5(rt.alloc(), name, bytes, Md5::digest(bytes), s).expect(rt, "memory")
}

// A digest as the number that its hexadecimal digits spell.
fn number(digest: [u8; 16]) -> u128 {
    u128::from_be_bytes(digest)
}

fn is_pair(pair: &Pair, md5: u128, crc: u32) -> bool {
    number(pair.0) == md5 && pair.1 == crc
}

// Whether the record is that of `abcde`, with slices of four bytes.
fn is_padded(record: &FileRecord) -> bool {
    let md5 = 0xab56_b4d9_2b40_713a_cc5a_f899_85d4_b786;
    number(record.id) == 0x0536_3d63_a48f_2a62_9008_5369_f9b6_5ce9
        && number(record.md5) == md5
        && number(record.md5_16k) == md5
        && record.length == 5
        && record.name.as_str() == "a"
}

// Whether the pairs are those of its two slices.
fn are_pairs(pairs: &[Pair]) -> bool {
    let [first, second] = pairs else {
        return false;
    };
    is_pair(
        first,
        0xe2fc_714c_4727_ee93_95f3_24cd_2e7f_331f,
        0xed82_cd11,
    ) && is_pair(
        second,
        0x3fd8_5f9e_e7ca_8882_c8ca_a747_d0ee_f0b3,
        0x2dbc_d82d,
    )
}

#[test]
fn record_of_a_padded_file(rt: HostRuntime) {
    let record = record_of(&rt, "a", b"abcde", 4);
    assert!(rt; is_padded(&record) && are_pairs(&record.pairs));
}

// `len` bytes, each 7 more than the one before.
fn rising_bytes(rt: &(impl Abort + AllocGlobal), len: usize) -> Vec<u8> {
    let mut bytes = vec![in rt.alloc(); 0u8; len].expect(rt, "memory");
    let mut next = 0u8;
    for byte in bytes.iter_mut() {
        *byte = next;
        next = next.wrapping_add(7);
    }
    bytes
}

// Whether the record is that of 20000 rising bytes, with slices of 16000 bytes.
fn is_long(record: &FileRecord) -> bool {
    number(record.id) == 0x27e5_c72b_3bdb_8404_dc8b_e959_311c_1979
        && number(record.md5_16k) == 0xea13_f524_a784_b8f6_3d95_a883_7432_53e7
        && record.pairs.len() == 2
}

#[test]
fn record_of_a_long_file(rt: HostRuntime) {
    assert!(rt; is_long(&record_of(&rt, "long", &rising_bytes(&rt, 20000), 16000)));
}
