use crate::pairs::pairs_of;
use par2_slices::{Pair, found_windows};
use std::process::Abort;

// The windows that hold the slices of these pairs, of four bytes each.
fn found_in<'a>(
    rt: &(impl Abort + AllocGlobal),
    buffers: &[&'a [u8]],
    pairs: &[Pair],
) -> Vec<Option<&'a [u8]>> {
    found_windows(rt.alloc(), buffers, 4, pairs).expect(rt, "memory")
}

// Whether the slices of the bytes are found as the row says.
fn is_found(rt: &(impl Abort + AllocGlobal), row: &Row) -> bool {
    let (bytes, buffers, windows) = *row;
    found_in(rt, buffers, &pairs_of(rt, bytes, 4)).as_slice() == windows
}

// Bytes, the contents of files, and the window in which each slice of the bytes is found.
type Row = (
    &'static [u8],
    &'static [&'static [u8]],
    &'static [Option<&'static [u8]>],
);

const ROWS: &[Row] = &[
    // Shifted by one byte.
    (
        b"abcdefgh",
        &[b"Xabcdefgh"],
        &[Some(b"abcd"), Some(b"efgh")],
    ),
    // Zeros after the end of a file are left out, zeros in it are not.
    (b"abcdef", &[b"abcdef"], &[Some(b"abcd"), Some(b"ef")]),
    (
        b"abcdef",
        &[b"abcdef\0\0g"],
        &[Some(b"abcd"), Some(b"ef\0\0")],
    ),
    // Equal slices.
    (
        b"aaaabbbbaaaa",
        &[b"xaaaa"],
        &[Some(b"aaaa"), None, Some(b"aaaa")],
    ),
    // The first file has the slice as its padded end, the second as it is.
    (
        b"ab\0\0efghijklmnop",
        &[b"xxab", b"ab\0\0efgh", b"efghijkl"],
        &[Some(b"ab"), Some(b"efgh"), Some(b"ijkl"), None],
    ),
    // No file, and no pair.
    (b"abcde", &[], &[None, None]),
    (b"", &[b"abcd", b""], &[]),
];

#[test]
fn windows_of_slices(rt: HostRuntime) {
    for (k, row) in ROWS.iter().enumerate() {
        assert!(rt; is_found(&rt, row), "row {k}");
    }
}
