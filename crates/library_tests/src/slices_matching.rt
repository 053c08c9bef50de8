use crate::pairs::pairs_of;
use par2_slices::{Pair, Target, matched};
use std::process::Abort;

// The target with these bytes.
fn target<'a>(bytes: &[u8], pairs: &'a [Pair]) -> Target<'a> {
    Target {
        length: bytes.len() as u64,
        pairs,
    }
}

// Whether two targets with slices of four bytes have these matches.
fn is_matched(
    rt: &(impl Abort + AllocGlobal),
    bytes: &[&[u8]; 2],
    buffers: &[&[u8]],
    numbers: &[Option<usize>],
) -> bool {
    let first = pairs_of(rt, bytes[0], 4);
    let second = pairs_of(rt, bytes[1], 4);
    let targets = [target(bytes[0], &first), target(bytes[1], &second)];
    let found = matched(rt.alloc(), buffers, 4, &targets).expect(rt, "memory");
    found.as_slice() == numbers
}

// The bytes of two targets, the contents of files, and the number of the file that each target matches.
type Row = (
    &'static [&'static [u8]; 2],
    &'static [&'static [u8]],
    &'static [Option<usize>],
);

const ROWS: &[Row] = &[
    // Two targets of equal content, and two files that have it.
    (
        &[b"abcde", b"abcde"],
        &[b"abcd", b"abcde", b"abcde"],
        &[Some(1), Some(2)],
    ),
    // Two files with exchanged names.
    (
        &[b"abcde", b"fghij"],
        &[b"fghij", b"abcde"],
        &[Some(1), Some(0)],
    ),
    // A file matches one target only.
    (&[b"abcde", b"abcde"], &[b"xyz", b"abcde"], &[Some(1), None]),
    (&[b"abcde", b"abcde"], &[], &[None, None]),
];

#[test]
fn buffers_of_two_targets(rt: HostRuntime) {
    for (k, (bytes, buffers, numbers)) in ROWS.iter().enumerate() {
        assert!(rt; is_matched(&rt, bytes, buffers, numbers), "row {k}");
    }
}
