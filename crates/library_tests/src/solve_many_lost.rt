//! Many lost slices, rebuilt from recovery slices with consecutive exponents.

use crate::gf16::field;
use crate::recovery::recovery_of_a;
use crate::recovery_choices::with_exponents;
use par2_recovery::Survivors;
use recovery_calls::rebuilt;
use std::process::Abort;

// The number of lost slices (every third one), the bytes of a slice, and the first exponent.
type Row = (usize, usize, u32);

const ROWS: &[Row] = &[
    // more bytes than are processed at a time
    (20, 14_000, 7),
    // more slices than are rebuilt with the inverse of a matrix of this size
    (800, 4, 7),
];

fn bytes_of_all(rt: &(impl Abort + AllocGlobal), count: usize) -> Vec<u8> {
    let mut bytes = vec![in rt.alloc(); 0u8; count].expect(rt, "memory");
    for (i, byte) in bytes.iter_mut().enumerate() {
        *byte = (i % 251) as u8;
    }
    bytes
}

// The slices of the bytes without every third one.
fn known_of<'a>(
    rt: &(impl Abort + AllocGlobal),
    bytes: &'a [u8],
    size: usize,
) -> Vec<Option<&'a [u8]>> {
    let mut known = Vec::new(rt.alloc());
    for (k, slice) in bytes.chunks(size.max(1)).enumerate() {
        known
            .push((k % 3 != 2).then_some(slice))
            .expect(rt, "memory");
    }
    known
}

fn lost_of(rt: &(impl Abort + AllocGlobal), bytes: &[u8], row: &Row) -> Vec<Vec<u8>> {
    let (count, size, first) = *row;
    let slices = recovery_of_a(rt, bytes, size as u64, first, (count % 65536) as u32);
    let survivors = Survivors {
        slice: size,
        known: known_of(rt, bytes, size),
        recovery: with_exponents(rt, first, &slices),
    };
    let answer = rebuilt(rt.alloc(), &field(rt), &survivors).expect(rt, "fitting survivors");
    answer.expect(rt, "lost slices")
}

// Whether these are every third slice of the bytes.
fn are_lost(buffers: &[Vec<u8>], bytes: &[u8], row: &Row) -> bool {
    let (count, size, _) = *row;
    for (buffer, slices) in buffers
        .iter()
        .zip(bytes.chunks(size.saturating_mul(3).max(1)))
    {
        if buffer.len() != size || !slices.ends_with(buffer) {
            return false;
        }
    }
    buffers.len() == count
}

fn come_back(rt: &(impl Abort + AllocGlobal), row: &Row) -> bool {
    let size = row.0.saturating_mul(row.1).saturating_mul(3);
    let bytes = bytes_of_all(rt, size);
    are_lost(&lost_of(rt, &bytes, row), &bytes, row)
}

#[test]
fn each_third_slice_comes_back(rt: HostRuntime) {
    for (k, row) in ROWS.iter().enumerate() {
        assert!(rt; come_back(&rt, row), "row {k}");
    }
}
