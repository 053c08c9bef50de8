//! Recovery slices by the transform against the sum over the slices, product by product.

ghost use Rattle.std.specs.Prelude.{◌≡◌, ◌<◌, ◌*◌, length, IsTrue};
ghost use Rattle.par2_spec.specs.Prelude.{list_at, lists_of};
ghost use Rattle.par2_transform.specs.Rows.{HaveWords};

use crate::calls::{are_buffers, lists_of, places_of};
use crate::gf16::field;
use par2_gf16::Gf;
use par2_transform::{Place, Transform, whole_buffers};
use recovery_calls::slices_added;
use std::process::Abort;

// Memory for some columns of few outputs.
const ROOM: usize = 100 * 1024;

fn buffer_at(buffers: &[Vec<u8>], i: usize) -> &[u8]
    requires { i < length buffers.now }
    ensures { result.now ≡ list_at (lists_of buffers.now) i }
{
    &buffers[i]
}

fn has_words(buffer: &[u8], words: usize) -> bool
    ensures { IsTrue result → length buffer.now ≡ 2 * words }
{
    buffer.len() % 2 == 0 && buffer.len() / 2 == words
}

fn have_words(buffers: &[Vec<u8>], words: usize) -> bool
    ensures { IsTrue result → HaveWords words (lists_of buffers.now) }
{
    for t in 0..buffers.len() {
        if !has_words(buffer_at(buffers, t), words) {
            return false;
        }
    }
    true
}

// Adds the recovery slices, and returns whether the conditions for that hold.
fn are_added(
    rt: &(impl Abort + AllocGlobal),
    gf: &Gf,
    slices: &[&[u8]],
    words: usize,
    first: u32,
    buffers: &mut [Vec<u8>],
) -> bool {
    if slices.len() > 32768 || buffers.len() as u64 + first as u64 > 1 << 32 {
        return false;
    }
    if !have_words(buffers, words) {
        return false;
    }
    let room = ROOM;
    let transform = Transform { gf, slices, room };
    transform
        .add_recovery_slices(rt.alloc(), words, first, buffers)
        .expect(rt, "memory");
    true
}

// Byte `k` of slice `i`.
fn mixed(i: usize, k: usize) -> u8 {
    let number = i.wrapping_mul(31) ^ k.wrapping_mul(7919);
    number.wrapping_mul(40503).to_le_bytes()[1]
}

fn buffer(rt: &(impl Abort + AllocGlobal), i: usize, size: usize) -> Vec<u8> {
    let mut bytes = vec![in rt.alloc(); 0u8; size].expect(rt, "memory");
    for (k, byte) in bytes.iter_mut().enumerate() {
        *byte = mixed(i, k);
    }
    bytes
}

// Two of five slices are whole, one is absent, one ends within a word and one at the end of a word.
fn size_of(i: usize, words: usize) -> usize {
    match i % 5 {
        2 => 0,
        3 => 3,
        4 => 2,
        _ => words.saturating_mul(2),
    }
}

fn buffers_of_slices(rt: &(impl Abort + AllocGlobal), n: usize, words: usize) -> Vec<Vec<u8>> {
    let mut buffers = Vec::new(rt.alloc());
    for i in 0..n {
        buffers
            .push(buffer(rt, i, size_of(i, words)))
            .expect(rt, "memory");
    }
    buffers
}

fn buffers_before(rt: &(impl Abort + AllocGlobal), count: u32, words: usize) -> Vec<Vec<u8>> {
    let mut buffers = Vec::new(rt.alloc());
    for t in 0..count {
        buffers
            .push(buffer(rt, t as usize, words.saturating_mul(2)))
            .expect(rt, "memory");
    }
    buffers
}

fn views<'a>(rt: &(impl Abort + AllocGlobal), buffers: &'a [Vec<u8>]) -> Vec<&'a [u8]> {
    let mut views: Vec<&[u8]> = Vec::new(rt.alloc());
    for buffer in buffers {
        views.push(buffer.as_slice()).expect(rt, "memory");
    }
    views
}

fn word(buffer: &[u8], p: usize) -> u16 {
    let place = p.saturating_mul(2);
    let low = buffer.get(place).copied().unwrap_or(0);
    let high = buffer.get(place.saturating_add(1)).copied().unwrap_or(0);
    u16::from_le_bytes([low, high])
}

// Word `p` of the recovery slice of exponent `e`.
fn plain_word(gf: &Gf, slices: &[&[u8]], e: u32, p: usize) -> u16 {
    let mut sum = 0;
    for (i, slice) in slices.iter().enumerate() {
        let constant = gf.constant(u32::try_from(i).unwrap_or(0)).unwrap_or(0);
        sum ^= gf.mul(gf.pow(constant, e), word(slice, p));
    }
    sum
}

fn is_added(gf: &Gf, slices: &[&[u8]], e: u32, before: &[u8], after: &[u8]) -> bool {
    for p in 0..before.len() / 2 {
        if word(after, p) != word(before, p) ^ plain_word(gf, slices, e, p) {
            return false;
        }
    }
    true
}

fn each_is_added(
    gf: &Gf,
    slices: &[&[u8]],
    first: u32,
    before: &[Vec<u8>],
    after: &[Vec<u8>],
) -> bool {
    let mut e = first;
    for (old, new) in before.iter().zip(after.iter()) {
        if !is_added(gf, slices, e, old, new) {
            return false;
        }
        e = e.wrapping_add(1);
    }
    true
}

// Whether the transform adds the recovery slices from an exponent on to this many buffers of this many words.
fn are_sums(
    rt: &(impl Abort + AllocGlobal),
    gf: &Gf,
    n: usize,
    count: u32,
    first: u32,
    words: usize,
) -> bool {
    let buffers = buffers_of_slices(rt, n, words);
    let slices = views(rt, &buffers);
    let before = buffers_before(rt, count, words);
    let mut after = buffers_before(rt, count, words);
    are_added(rt, gf, &slices, words, first, after.as_mut_slice())
        && each_is_added(gf, &slices, first, &before, &after)
}

fn are_sums_from_each(rt: &(impl Abort + AllocGlobal), gf: &Gf, n: usize, count: u32) -> bool {
    for first in [0, 1, 1000, 65535u32.saturating_sub(count)] {
        if !are_sums(rt, gf, n, count, first, 3) {
            return false;
        }
    }
    true
}

// The largest numbers of slices and exponents of which every number is tried.
const FEW: usize = 40;

#[test]
fn few_slices_and_exponents(rt: HostRuntime) {
    let gf = field(&rt);
    for n in 0..FEW + 1 {
        for count in 0..FEW as u32 + 1 {
            assert!(rt;
                are_sums_from_each(&rt, &gf, n, count),
                "{n} slices, {count} exponents"
            );
        }
    }
}

// Slices, exponents, the first exponent, and words of a slice: several windows, blocks of outputs, and columns of
// words.
const SUMS: &[(usize, u32, u32, usize)] = &[
    (200, 33, 7, 3),
    (60, 17, 65530, 2),
    (12, 3, 4294967293, 1100),
    (700, 20, 0, 2),
];

#[test]
fn windows_blocks_and_columns(rt: HostRuntime) {
    let gf = field(&rt);
    for (k, (n, count, first, words)) in SUMS.iter().enumerate() {
        assert!(rt; are_sums(&rt, &gf, *n, *count, *first, *words), "row {k}");
    }
}

fn add_product(gf: &Gf, c: u16, slice: &[u8], buffer: &mut [u8]) {
    if slice.len() == buffer.len() && buffer.len() % 2 == 0 {
        gf.mul_add(c, slice, buffer);
    }
}

fn add_products(gf: &Gf, slices: &[&[u8]], e: u32, buffer: &mut [u8]) {
    for (i, slice) in slices.iter().enumerate() {
        let constant = gf.constant(u32::try_from(i).unwrap_or(0)).unwrap_or(0);
        add_product(gf, gf.pow(constant, e), slice, buffer);
    }
}

// Adds the recovery slices directly: one product for each slice and exponent.
fn add_directly(gf: &Gf, slices: &[&[u8]], first: u32, buffers: &mut [Vec<u8>]) {
    let mut e = first;
    for buffer in buffers.iter_mut() {
        add_products(gf, slices, e, buffer.as_mut_slice());
        e = e.wrapping_add(1);
    }
}

// Slices; every seventh is absent.
fn whole_slices(rt: &(impl Abort + AllocGlobal), n: usize, size: usize) -> Vec<Vec<u8>> {
    let mut buffers = Vec::new(rt.alloc());
    for i in 0..n {
        let size = if i % 7 == 3 { 0 } else { size };
        buffers.push(buffer(rt, i, size)).expect(rt, "memory");
    }
    buffers
}

fn are_equal(some: &[Vec<u8>], others: &[Vec<u8>]) -> bool {
    for (buffer, other) in some.iter().zip(others.iter()) {
        if buffer.as_slice() != other.as_slice() {
            return false;
        }
    }
    some.len() == others.len()
}

// Whether the transform gives what the direct sum gives, for this many buffers of this many words.
fn are_as_directly(
    rt: &(impl Abort + AllocGlobal),
    gf: &Gf,
    n: usize,
    count: u32,
    first: u32,
    words: usize,
) -> bool {
    let buffers = whole_slices(rt, n, words.saturating_mul(2));
    let slices = views(rt, &buffers);
    let mut directly = buffers_before(rt, count, words);
    let mut together = buffers_before(rt, count, words);
    add_directly(gf, &slices, first, directly.as_mut_slice());
    are_added(rt, gf, &slices, words, first, together.as_mut_slice())
        && are_equal(&together, &directly)
}

// The next of a sequence of pseudo-random numbers.
pub(super) fn next_number(number: u64) -> u64 {
    number
        .wrapping_mul(6364136223846793005)
        .wrapping_add(1442695040888963407)
}

#[test]
fn random_sizes(rt: HostRuntime) {
    let gf = field(&rt);
    let mut number = 36;
    for _ in 0..6 {
        number = next_number(number);
        let n = ((number >> 48) % 3000) as usize + 1;
        let count = ((number >> 32) % 300) as u32 + 1;
        let first = ((number >> 16) % 65236) as u32;
        let words = ((number >> 24) % 70) as usize + 1;
        assert!(rt;
            are_as_directly(&rt, &gf, n, count, first, words),
            "{n} slices, {count} exponents from {first} on, {words} words"
        );
    }
}

// More exponents than fit into this little memory at a time.
#[test]
fn groups_of_exponents(rt: HostRuntime) {
    let gf = field(&rt);
    assert!(rt; are_as_directly(&rt, &gf, 40, 600, 5, 3));
}

// The first exponent, the outputs (the buffer and the first byte in it), and the buffers before and after.
type Added = (
    u32,
    &'static [(usize, usize)],
    &'static [&'static [u8]],
    &'static [&'static [u8]],
);

const ADDED: &[Added] = &[
    (
        0,
        &[(1, 1), (0, 0), (1, 5)],
        &[b"\0\0\0\0>", b"<\x01\x01\x01\x01\0\0\0\0>", b"..."],
        &[
            b"\x5d\x4d\x51\x79>",
            b"<\x05\x05\x05\x0d\xe5\x9f\xcd\x67>",
            b"...",
        ],
    ),
    (
        1,
        &[(0, 4)],
        &[b"\0\0\0\0\0\0\0\0"],
        &[b"\0\0\0\0\x5d\x4d\x51\x79"],
    ),
    (7, &[], &[b"<>"], &[b"<>"]),
];

// The buffers after the recovery slices of `abcd` and `efgh` were added.
fn added(rt: &(impl Abort + AllocGlobal), row: &Added) -> Vec<Vec<u8>> {
    let (first, pairs, before, _) = row;
    let mut buffers = lists_of(rt, before);
    let places = places_of(rt, pairs);
    let slices: [&[u8]; 2] = [b"abcd", b"efgh"];
    let all = buffers.as_mut_slice();
    let answer = slices_added(rt.alloc(), &field(rt), &slices, *first, all, &places, 2);
    answer.expect(rt, "memory").expect(rt, "outputs");
    buffers
}

#[test]
fn recovery_slices_are_added_at_their_places(rt: HostRuntime) {
    for (k, row) in ADDED.iter().enumerate() {
        assert!(rt; are_buffers(&added(&rt, row), row.3), "row {k}");
    }
}

fn is_whole(place: &Place, buffer: usize) -> bool {
    place.buffer == buffer && place.at == 0
}

#[test]
fn places_of_whole_buffers(rt: HostRuntime) {
    let places = whole_buffers(rt.alloc(), 3).expect(&rt, "memory");
    assert!(rt;
        places.len() == 3
            && places
                .iter()
                .enumerate()
                .all(|(t, place)| is_whole(place, t))
    );
}
