ghost use Rattle.std.specs.Prelude.{◌≡◌, ◌≤◌, ◌%◌, length};

use crate::plain_field::product;
use par2_gf16::{Factor, Gf, vectors_of};
use std::process::Abort;

pub(super) fn field(rt: &(impl Abort + AllocGlobal)) -> Gf {
    Gf::new(rt.alloc()).expect(rt, "memory")
}

// Adds the products word by word.
fn plain_mul_add(c: u16, src: &[u8], dst: &mut [u8])
    requires { length src.now ≡ length dst.old }
{
    for i in 0..dst.len() / 2 {
        let [low, high] = product(
            c,
            u16::from_le_bytes([src[2 * i], src[2 * i + 1]]),
        ).to_le_bytes();
        dst[2 * i] ^= low;
        dst[2 * i + 1] ^= high;
    }
}

// `n` bytes with a long period.
fn mixed_bytes(rt: &(impl Abort + AllocGlobal), n: usize, seed: u32) -> Vec<u8>
    ensures { length result.items ≡ n }
{
    let mut bytes = vec![in rt.alloc(); 0u8; n].expect(rt, "memory");
    let mut state = seed;
    for byte in bytes.iter_mut() {
        state ^= state << 13;
        state ^= state >> 17;
        state ^= state << 5;
        *byte = state.to_le_bytes()[3];
    }
    bytes
}

enum Operation {
    Product(u16, u16),
    Power(u16, u32),
    Inverse(u16),
    Constant(u32),
}

fn outcome(gf: &Gf, operation: &Operation) -> Option<u16> {
    match operation {
        Operation::Product(a, b) => Some(gf.mul(*a, *b)),
        Operation::Power(a, e) => Some(gf.pow(*a, *e)),
        Operation::Inverse(a) => gf.inv(*a),
        Operation::Constant(k) => gf.constant(*k),
    }
}

const OUTCOMES: &[(Operation, Option<u16>)] = &[
    (Operation::Product(0x8000, 2), Some(0x100B)),
    (Operation::Product(2, 0xFFFF), Some(0xEFF5)),
    (Operation::Product(2, 0x8805), Some(1)),
    (Operation::Product(1, 0xFFFF), Some(0xFFFF)),
    (Operation::Product(0, 7), Some(0)),
    (Operation::Product(7, 0), Some(0)),
    (Operation::Power(2, 65535), Some(1)),
    (Operation::Power(2, 65534), Some(0x8805)),
    (Operation::Power(0, 0), Some(1)),
    (Operation::Power(0, 3), Some(0)),
    (Operation::Power(3, 1), Some(3)),
    (Operation::Power(2, 4294967295), Some(1)),
    (Operation::Inverse(2), Some(0x8805)),
    (Operation::Inverse(1), Some(1)),
    (Operation::Inverse(0), None),
    (Operation::Constant(0), Some(2)),
    (Operation::Constant(1), Some(4)),
    (Operation::Constant(2), Some(16)),
    (Operation::Constant(3), Some(128)),
    (Operation::Constant(4), Some(256)),
    (Operation::Constant(5), Some(2048)),
    (Operation::Constant(6), Some(8192)),
    (Operation::Constant(7), Some(16384)),
    (Operation::Constant(8), Some(4107)),
    (Operation::Constant(9), Some(32856)),
    (Operation::Constant(10), Some(17132)),
    (Operation::Constant(32767), Some(0x8805)),
    (Operation::Constant(32768), None),
];

#[test]
fn products_powers_inverses_and_constants(rt: HostRuntime) {
    let gf = field(&rt);
    for (k, (operation, wanted)) in OUTCOMES.iter().enumerate() {
        assert!(rt; outcome(&gf, operation) == *wanted, "row {k}");
    }
}

// The word after the product of 2 and 0x8000 was added to it.
fn added(gf: &Gf, word: [u8; 2]) -> [u8; 2] {
    let mut sum = word;
    gf.mul_add(2, &[0x00, 0x80], &mut sum);
    sum
}

fn add_nothing(gf: &Gf) {
    gf.mul_add(2, &[], &mut []);
}

#[test]
fn products_are_added_and_taken_back(rt: HostRuntime) {
    let gf = field(&rt);
    assert!(rt; added(&gf, [0, 0]) == [0x0B, 0x10]);
    assert!(rt; added(&gf, [0x0B, 0x10]) == [0, 0]);
    add_nothing(&gf);
}

fn copied(rt: &(impl Abort + AllocGlobal), bytes: &[u8]) -> Vec<u8>
    ensures { length result.items ≡ length bytes.now }
{
    Vec::from_slice(rt.alloc(), bytes).expect(rt, "memory")
}

// A copy of `dst` to which the products were added, by the element.
fn by_element(rt: &(impl Abort + AllocGlobal), gf: &Gf, c: u16, src: &[u8], dst: &[u8]) -> Vec<u8>
    requires same { length src.now ≡ length dst.now }
    requires even { length dst.now % 2 ≡ 0 }
{
    let mut sum = copied(rt, dst);
    gf.mul_add(c, src, &mut sum);
    sum
}

fn by_factor(rt: &(impl Abort + AllocGlobal), gf: &Gf, c: u16, src: &[u8], dst: &[u8]) -> Vec<u8> {
    let mut sum = copied(rt, dst);
    gf.mul_add_by(&Factor::new(c), src, &mut sum);
    sum
}

fn by_words(rt: &(impl Abort + AllocGlobal), c: u16, src: &[u8], dst: &[u8]) -> Vec<u8>
    requires { length src.now ≡ length dst.now }
{
    let mut sum = copied(rt, dst);
    plain_mul_add(c, src, &mut sum);
    sum
}

// Whether the element, the factor and the vectors give what the word by word sum gives on a copy of `dst`.
fn is_as_word_by_word(
    rt: &(impl Abort + AllocGlobal),
    gf: &Gf,
    c: u16,
    src: &[u8],
    dst: &[u8],
) -> bool
    requires same { length src.now ≡ length dst.now }
    requires even { length dst.now % 2 ≡ 0 }
{
    let wanted = by_words(rt, c, src, dst);
    by_element(rt, gf, c, src, dst) == wanted
        && by_factor(rt, gf, c, src, dst) == wanted
        && by_vectors(rt, c, src, dst) == wanted
}

fn by_vectors(rt: &(impl Abort + AllocGlobal), c: u16, src: &[u8], dst: &[u8]) -> Vec<u8> {
    let mut sum = copied(rt, dst);
    let vectors = vectors_of(rt.alloc(), src).expect(rt, "memory");
    Factor::new(c).add_products(&vectors, &mut sum);
    sum
}

// The last four are random.
const FACTORS: &[u16] = &[
    0, 1, 2, 3, 0x100B, 0x8000, 0x8805, 0xFFFF, 0x5A3C, 0xC6E9, 0x1D47, 0x93B2,
];

// The first factor with a wrong result for this many words, if there is one.
fn first_other(rt: &(impl Abort + AllocGlobal), gf: &Gf, words: usize) -> Option<u16>
    requires { words ≤ 65 }
{
    let src = mixed_bytes(rt, 2 * words, 1);
    let old = mixed_bytes(rt, 2 * words, 2);
    for c in FACTORS {
        if !is_as_word_by_word(rt, gf, *c, &src, &old) {
            return Some(*c);
        }
    }
    None
}

#[test]
fn every_length_as_word_by_word(rt: HostRuntime) {
    let gf = field(&rt);
    for words in 0..=65usize {
        assert!(rt; first_other(&rt, &gf, words).is_none(), "{words} words");
    }
}

// Four words of zeros after the words of a message were added to them. The message ends within the second.
fn words_added(rt: &(impl Abort + AllocGlobal), gf: &Gf) -> ([u8; 8], [u8; 8]) {
    let vectors = vectors_of(rt.alloc(), &[1, 2, 3]).expect(rt, "memory");
    let mut by_vectors = [0; 8];
    Factor::new(1).add_products(&vectors, &mut by_vectors);
    let mut by_bytes = [0; 8];
    gf.mul_add_by(&Factor::new(1), &[1, 2, 3], &mut by_bytes);
    (by_vectors, by_bytes)
}

#[test]
fn zeros_follow_bytes_that_end(rt: HostRuntime) {
    let gf = field(&rt);
    let (by_vectors, by_bytes) = words_added(&rt, &gf);
    assert!(rt; by_vectors == [1, 2, 3, 0, 0, 0, 0, 0]);
    assert!(rt; by_bytes == by_vectors);
}
