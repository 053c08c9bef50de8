ghost use Rattle.std.specs.Prelude.{◌≤◌, length};

use crate::pairs::pairs_of;
use par2_slices::{
    Pair, Position, Rolling, Wanted, crc32, find, find_among, is_slice_size, padded_crc32,
    padded_md5, pair_of, slice_bytes, slice_count, slice_into,
};
use std::process::Abort;

const DIGEST: [u8; 16] = [
    0xe2, 0xfc, 0x71, 0x4c, 0x47, 0x27, 0xee, 0x93, 0x95, 0xf3, 0x24, 0xcd, 0x2e, 0x7f, 0x33, 0x1f,
];

#[test]
fn checksums(rt: HostRuntime) {
    let sums = [crc32(b"123456789"), crc32(b""), crc32(b"abcd")];
    assert!(rt; sums == [0xcbf4_3926, 0, 0xed82_cd11]);
    assert!(rt; padded_md5(b"abcd", 4) == DIGEST);
}

// The checksum of the first slice of `s` bytes, and the checksum after sliding by one byte from `out` to `next`.
fn rolled(rt: &(impl Abort + AllocGlobal), s: u64, bytes: &[u8], out: u8, next: u8) -> (u32, u32)
    requires size { 1 ≤ s }
    requires room { length bytes.now ≤ s }
{
    let mut rolling = Rolling::new(rt.alloc(), s).expect(rt, "memory");
    rolling.start(bytes);
    let first = rolling.value();
    rolling.slide(out, next);
    (first, rolling.value())
}

#[test]
fn rolling_checksums(rt: HostRuntime) {
    assert!(rt; rolled(&rt, 4, b"abcd", b'a', b'e') == (0xed82_cd11, crc32(b"bcde")));
}

#[test]
fn slices_of_a_file(rt: HostRuntime) {
    let counts = [slice_count(0, 4), slice_count(8, 4), slice_count(9, 4)];
    assert!(rt; counts == [0, 2, 3]);
    assert!(rt; slice_bytes(b"abcdef", 4, 1) == b"ef".as_slice());
}

#[test]
fn sizes_of_slices(rt: HostRuntime) {
    for size in [4, 8, 512, 1_000_000, 1 << 30] {
        assert!(rt; is_slice_size(size), "{size}");
    }
    for size in [0, 2, 5, 1_000_002, (1 << 30) + 4, u64::MAX] {
        assert!(rt; !is_slice_size(size), "{size}");
    }
}

#[test]
fn slices_over_other_bytes(rt: HostRuntime) {
    let mut slice = [9u8; 4];
    slice_into(b"abcdef", 4, 0, &mut slice);
    let first = slice;
    slice_into(b"abcdef", 4, 1, &mut slice);
    assert!(rt; first == *b"abcd" && slice == *b"ef\0\0");
}

#[test]
fn checksums_with_padding(rt: HostRuntime) {
    let sums = [padded_crc32(b"ab", 4), padded_crc32(b"", 0)];
    assert!(rt; sums == [crc32(b"ab\0\0"), 0]);
    assert!(rt; padded_md5(b"ab", 4) == padded_md5(b"ab\0\0", 4));
}

#[test]
fn rolling_over_padding(rt: HostRuntime) {
    let (whole, next) = rolled(&rt, 1 << 30, b"ab", b'a', 0);
    assert!(rt; next == padded_crc32(b"b", 1 << 30) && next != whole);
}

// The positions of the pairs by `find_among`, in one file.
fn positions_of(
    rt: &(impl Abort + AllocGlobal),
    bytes: &[u8],
    s: u64,
    pairs: &[Pair],
) -> Vec<Option<Position>>
    requires { 1 ≤ s }
{
    let wanted = Wanted::new(rt.alloc(), pairs).expect(rt, "memory");
    find_among(rt.alloc(), &[bytes], s, &wanted).expect(rt, "memory")
}

// The offsets of the pairs by `find`.
fn offsets_of(
    rt: &(impl Abort + AllocGlobal),
    bytes: &[u8],
    s: u64,
    pairs: &[Pair],
) -> Vec<Option<usize>>
    requires { 1 ≤ s }
{
    let wanted = Wanted::new(rt.alloc(), pairs).expect(rt, "memory");
    find(rt.alloc(), bytes, s, &wanted).expect(rt, "memory")
}

// Whether `find_among` finds the pairs at these offsets, for slices of at least one byte.
fn are_found(
    rt: &(impl Abort + AllocGlobal),
    bytes: &[u8],
    s: u64,
    pairs: &[Pair],
    offsets: &[Option<usize>],
) -> bool {
    if s == 0 {
        return false;
    }
    let positions = positions_of(rt, bytes, s, pairs);
    for (position, offset) in positions.iter().zip(offsets.iter()) {
        if !is_at(position, *offset) {
            return false;
        }
    }
    positions.len() == offsets.len()
}

fn is_at(position: &Option<Position>, offset: Option<usize>) -> bool {
    match position {
        Some(position) => offset == Some(position.offset),
        None => offset.is_none(),
    }
}

// The pairs of these slices, without those that are too long.
fn pairs_with(rt: &(impl Abort + AllocGlobal), s: u64, slices: &[&[u8]]) -> Vec<Pair> {
    let mut pairs = Vec::new(rt.alloc());
    for slice in slices {
        if slice.len() as u64 <= s {
            pairs.push(pair_of(slice, s)).expect(rt, "memory");
        }
    }
    pairs
}

// Bytes, the slice size, slices, and the position of each.
type Row = (
    &'static [u8],
    u64,
    &'static [&'static [u8]],
    &'static [Option<usize>],
);

const OFFSETS: &[Row] = &[
    // Shifted by one byte.
    (b"Xabcdefgh", 4, &[b"abcd", b"efgh"], &[Some(1), Some(5)]),
    // The first of several offsets.
    (
        b"aaaaaaaa",
        4,
        &[b"aaaa", b"aa", b"aaaa"],
        &[Some(0), Some(6), Some(0)],
    ),
    (b"ab", 4, &[b"ab", b"abc"], &[Some(0), None]),
    (b"", 4, &[b"", b"ab"], &[None, None]),
    (b"aaaa", 4, &[], &[]),
    // A slice larger than the file.
    (
        b"abc",
        1 << 20,
        &[b"bc", b"abc", b"ab"],
        &[Some(1), Some(0), None],
    ),
];

// Whether both searches return what the row says.
fn is_as_reported(rt: &(impl Abort + AllocGlobal), row: &Row) -> bool {
    let (bytes, s, slices, offsets) = *row;
    let pairs = pairs_with(rt, s, slices);
    s != 0
        && offsets_of(rt, bytes, s, &pairs).as_slice() == offsets
        && are_found(rt, bytes, s, &pairs, offsets)
}

#[test]
fn offsets_of_slices(rt: HostRuntime) {
    for (k, row) in OFFSETS.iter().enumerate() {
        assert!(rt; is_as_reported(&rt, row), "row {k}");
    }
}

// The pair of the same CRC-32 with another MD5 is nowhere.
#[test]
fn same_crc_with_another_md5(rt: HostRuntime) {
    let (md5, crc) = pair_of(b"bcde", 4);
    let pairs = [([7; 16], crc), (md5, crc), (md5, crc ^ 1)];
    assert!(rt; are_found(&rt, b"abcdebcde", 4, &pairs, &[None, Some(1), None]));
}

fn window_at(bytes: &[u8], s: u64, offset: usize) -> &[u8]
    requires { offset ≤ length bytes.now }
    ensures { length result.now ≤ s }
{
    let rest = &bytes[offset..];
    if s < rest.len() as u64 {
        &rest[..s as usize]
    } else {
        rest
    }
}

// The same result by comparing every window.
fn plain_offset(bytes: &[u8], s: u64, pair: &Pair) -> Option<usize>
    requires { 1 ≤ s }
{
    for offset in 0..bytes.len() {
        let (md5, crc) = pair_of(window_at(bytes, s, offset), s);
        if md5 == pair.0 && crc == pair.1 {
            return Some(offset);
        }
    }
    None
}

// The offsets by the plain search.
fn plain_offsets(
    rt: &(impl Abort + AllocGlobal),
    bytes: &[u8],
    s: u64,
    pairs: &[Pair],
) -> Vec<Option<usize>>
    requires { 1 ≤ s }
{
    let mut offsets = Vec::new(rt.alloc());
    for pair in pairs {
        offsets
            .push(plain_offset(bytes, s, pair))
            .expect(rt, "memory");
    }
    offsets
}

// Whether the search agrees with the plain search for each pair.
fn is_as_plain(rt: &(impl Abort + AllocGlobal), bytes: &[u8], s: u64, pairs: &[Pair]) -> bool
    requires { 1 ≤ s }
{
    are_found(rt, bytes, s, pairs, &plain_offsets(rt, bytes, s, pairs))
}

// The last ones have more windows than are compared side by side.
const BUFFERS: &[&[u8]] = &[
    b"",
    b"a",
    b"\0\0\0\0\0",
    b"abababab",
    b"aabaabaaab\0\0b",
    b"mississippi",
    b"\0\0\0\0\0\0\0\0\0\0\0\0\0\0\0\0\0\0\0\0",
    b"abcdefghijklmnopqrstuvwxyz",
    b"abcdefghiabcdefghiabcdefghi",
];

// Whether the slices of each file are found in this one as by the plain search.
fn is_searched(rt: &(impl Abort + AllocGlobal), bytes: &[u8], s: u64) -> bool
    requires { 1 ≤ s }
{
    for other in BUFFERS {
        if !is_as_plain(rt, bytes, s, &pairs_of(rt, other, s)) {
            return false;
        }
    }
    true
}

#[test]
fn same_as_a_plain_search(rt: HostRuntime) {
    for bytes in BUFFERS {
        for s in 1..10u64 {
            assert!(rt; is_searched(&rt, bytes, s));
        }
    }
}

// The pairs of every `step`th window, each after a pair with the same CRC-32 that is nowhere, if `strangers` is set.
fn window_pairs(
    rt: &(impl Abort + AllocGlobal),
    bytes: &[u8],
    s: u64,
    step: usize,
    strangers: bool,
) -> Vec<Pair>
    requires { 1 ≤ step }
{
    let mut pairs = Vec::new(rt.alloc());
    for offset in 0..bytes.len() {
        if offset % step == 0 {
            let (md5, crc) = pair_of(window_at(bytes, s, offset), s);
            if strangers {
                pairs.push(([7; 16], crc)).expect(rt, "memory");
            }
            pairs.push((md5, crc)).expect(rt, "memory");
        }
    }
    pairs
}

// Whether the windows are found as by the plain search, with strangers and without.
fn are_searched(rt: &(impl Abort + AllocGlobal), bytes: &[u8], s: u64, step: usize) -> bool
    requires size { 1 ≤ s }
    requires step { 1 ≤ step }
{
    is_as_plain(rt, bytes, s, &window_pairs(rt, bytes, s, step, false))
        && is_as_plain(rt, bytes, s, &window_pairs(rt, bytes, s, step, true))
}

// The windows overlap, and more pairs than are compared side by side have their CRC-32, up to the end of the file.
#[test]
fn windows_that_follow_each_other(rt: HostRuntime) {
    for bytes in BUFFERS {
        for s in 1..10u64 {
            for step in 1..4usize {
                assert!(rt; are_searched(&rt, bytes, s, step));
            }
        }
    }
}
