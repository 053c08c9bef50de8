//! Every choice of lost slices among four, with every choice of at most three exponents from 0 to 20 and ten more,
//! against a plain elimination.

ghost use Rattle.std.specs.Prelude.{◌≡◌, ◌<◌, ◌≤◌};

use crate::gf16::field;
use crate::plain_elimination::{Equation, eliminated};
use crate::plain_field::{power, product};
use crate::recovery::recovery_of_a;
use crate::set_packets::add;
use par2_gf16::Gf;
use par2_recovery::{RebuildFault, Survivors};
use recovery_calls::rebuilt;
use std::process::Abort;
use std::slice::from_ref;

const SLICES: [[u8; 4]; 4] = [
    *b"abcd",
    *b"\x00\x00\xff\xff",
    *b"efgh",
    *b"\x80\x01\x00\x10",
];

// The constants of the four slices, as PAR2 2.0 lists them.
const CONSTANTS: [u16; 4] = [2, 4, 16, 128];

// Some of them depend on others, because a constant's 65,535th power is 1 and 65,535 has the divisors 3, 5, 17 and 257.
const EXPONENTS: &[u32] = &[
    0, 1, 2, 3, 4, 5, 6, 7, 8, 9, 10, 11, 12, 13, 14, 15, 16, 17, 18, 19, 20, 255, 3855, 13107,
    21844, 21845, 21846, 43690, 65280, 65534, 65535,
];

// More words than are processed at a time, and an odd number of them.
const SIZE: usize = 2 * 4096 + 6;

// A recovery slice, and its factor of each slice.
#[derive(Clone, Copy)]
struct Recovered {
    exponent: u32,
    factors: [u16; 4],
    buffer: [u8; 4],
}

fn words(buffer: &[u8; 4]) -> [u16; 2] {
    let [a, b, c, d] = *buffer;
    [u16::from_le_bytes([a, b]), u16::from_le_bytes([c, d])]
}

fn bytes(words: [u16; 2]) -> [u8; 4] {
    let [a, b] = words[0].to_le_bytes();
    let [c, d] = words[1].to_le_bytes();
    [a, b, c, d]
}

fn recovered_by(exponent: u32) -> Recovered {
    let mut factors = [0; 4];
    let mut sums = [0; 2];
    for k in 0..4 {
        factors[k] = power(CONSTANTS[k], exponent);
        let slice = words(&SLICES[k]);
        sums[0] ^= product(factors[k], slice[0]);
        sums[1] ^= product(factors[k], slice[1]);
    }
    Recovered {
        exponent,
        factors,
        buffer: bytes(sums),
    }
}

fn equation(factors: [u16; 4], buffer: &[u8; 4]) -> Equation {
    let [a, b, c, d] = factors;
    let [first, second] = words(buffer);
    [a, b, c, d, first, second]
}

// A word of the bytes, which are followed by zeros.
fn word_at(bytes: &[u8], w: usize) -> u16 {
    let at = w.saturating_mul(2);
    let low = bytes.get(at).copied().unwrap_or(0);
    let high = bytes.get(at.saturating_add(1)).copied().unwrap_or(0);
    u16::from_le_bytes([low, high])
}

// Word `w` of the recovery slices of exponents 1 and 2, over consecutive slices.
fn plain_words(bytes: &[u8], w: usize) -> (u16, u16) {
    let mut first = 0;
    let mut second = 0;
    for (slice, constant) in bytes.chunks(SIZE).zip(CONSTANTS.iter()) {
        let word = word_at(slice, w);
        first ^= product(*constant, word);
        second ^= product(product(*constant, *constant), word);
    }
    (first, second)
}

// The equation of a known slice.
fn known_equation(k: usize) -> Equation
    requires { k < 4 }
{
    let mut factors = [0; 4];
    factors[k] = 1;
    equation(factors, &SLICES[k])
}

fn is_lost(lost: u8, k: usize) -> bool
    requires { k < 4 }
{
    (lost >> k) & 1 == 1
}

// The plain elimination of the known slices and these recovery slices: all slices, or the independent equations.
fn plain_answer(rt: &(impl Abort + AllocGlobal), lost: u8, chosen: &[Recovered]) -> Vec<Equation> {
    let mut equations = Vec::new(rt.alloc());
    for k in 0..4 {
        if !is_lost(lost, k) {
            equations.push(known_equation(k)).expect(rt, "memory");
        }
    }
    for one in chosen {
        equations
            .push(equation(one.factors, &one.buffer))
            .expect(rt, "memory");
    }
    eliminated(rt, equations, 4)
}

// The lost slices by the plain elimination, one after the other.
fn plain_buffers(rt: &(impl Abort + AllocGlobal), lost: u8, solved: &[Equation]) -> Vec<u8> {
    let mut buffers = Vec::new(rt.alloc());
    for (k, equation) in solved.iter().enumerate() {
        if k < 4 && is_lost(lost, k) {
            add(rt, &mut buffers, &bytes([equation[4], equation[5]]));
        }
    }
    buffers
}

// The known slices, with None for each lost one.
fn known_slices(rt: &(impl Abort + AllocGlobal), lost: u8) -> Vec<Option<&'static [u8]>> {
    let mut known = Vec::new(rt.alloc());
    for (k, slice) in SLICES.iter().enumerate() {
        let is_known = k >= 4 || !is_lost(lost, k);
        known
            .push(is_known.then_some(slice.as_slice()))
            .expect(rt, "memory");
    }
    known
}

fn recovery_of<'a>(
    rt: &(impl Abort + AllocGlobal),
    chosen: &'a [Recovered],
) -> Vec<(u32, &'a [u8])> {
    let mut recovery = Vec::new(rt.alloc());
    for one in chosen {
        recovery
            .push((one.exponent, one.buffer.as_slice()))
            .expect(rt, "memory");
    }
    recovery
}

fn our_answer(
    rt: &(impl Abort + AllocGlobal),
    gf: &Gf,
    lost: u8,
    chosen: &[Recovered],
) -> Result<Vec<Vec<u8>>, RebuildFault> {
    let survivors = Survivors {
        slice: 4,
        known: known_slices(rt, lost),
        recovery: recovery_of(rt, chosen),
    };
    rebuilt(rt.alloc(), gf, &survivors).expect(rt, "fitting survivors")
}

// Whether the buffers, one after the other, are those of the plain elimination.
fn are_plain(
    rt: &(impl Abort + AllocGlobal),
    buffers: &[Vec<u8>],
    lost: u8,
    plain: &[Equation],
) -> bool {
    let ours = buffers.concat(rt.alloc()).expect(rt, "memory");
    plain.len() == 4 && ours == plain_buffers(rt, lost, plain)
}

// Whether the fault has this number of lost slices, and the number of equations that are independent of the known
// slices.
fn is_reported(fault: &RebuildFault, lost: u8, independent: usize) -> bool {
    let lost = lost.count_ones() as usize;
    match fault {
        RebuildFault::NotRepairable { missing, rank } => {
            *missing == lost
                && *rank < lost
                && independent == 4usize.saturating_sub(lost).saturating_add(*rank)
        }
        _ => false,
    }
}

// Whether the lost slices are rebuilt; None if the plain elimination disagrees.
fn compared(
    rt: &(impl Abort + AllocGlobal),
    gf: &Gf,
    lost: u8,
    chosen: &[Recovered],
) -> Option<bool> {
    let plain = plain_answer(rt, lost, chosen);
    match our_answer(rt, gf, lost, chosen) {
        Ok(buffers) => are_plain(rt, &buffers, lost, &plain).then_some(true),
        Err(fault) => is_reported(&fault, lost, plain.len()).then_some(false),
    }
}

// The choices with one more than these, if they have less than three.
fn with_one(
    rt: &(impl Abort + AllocGlobal),
    choices: &[Vec<Recovered>],
    one: &Recovered,
) -> Vec<Vec<Recovered>> {
    let mut with_it = Vec::new(rt.alloc());
    for choice in choices {
        if choice.len() < 3 {
            with_it.push(more(rt, choice, one)).expect(rt, "memory");
        }
    }
    with_it
}

fn more(rt: &(impl Abort + AllocGlobal), choice: &[Recovered], one: &Recovered) -> Vec<Recovered> {
    [choice, from_ref(one)]
        .concat(rt.alloc())
        .expect(rt, "memory")
}

// All choices of at most three of them.
fn choices(rt: &(impl Abort + AllocGlobal), all: &[Recovered]) -> Vec<Vec<Recovered>> {
    let mut choices = vec![in rt.alloc(); Vec::new(rt.alloc())].expect(rt, "memory");
    for one in all {
        choices
            .append(&mut with_one(rt, &choices, one))
            .expect(rt, "memory");
    }
    choices
}

// All recovery slices.
fn all_recovered(rt: &(impl Abort + AllocGlobal)) -> Vec<Recovered> {
    let mut all = Vec::new(rt.alloc());
    for exponent in EXPONENTS {
        all.push(recovered_by(*exponent)).expect(rt, "memory");
    }
    all
}

// The number of choices of lost slices that the chosen recovery slices rebuild.
fn repairable_by(rt: &(impl Abort + AllocGlobal), gf: &Gf, chosen: &[Recovered]) -> u32 {
    let mut repairable = 0u32;
    for lost in 1..15u8 {
        if compared(rt, gf, lost, chosen).expect(rt, "the plain answer") {
            repairable = repairable.wrapping_add(1);
        }
    }
    repairable
}

#[test]
fn as_a_plain_elimination(rt: HostRuntime) {
    let gf = field(&rt);
    let choices = choices(&rt, &all_recovered(&rt));
    let mut repairable = 0u32;
    for chosen in &choices {
        repairable = repairable.wrapping_add(repairable_by(&rt, &gf, chosen));
    }
    // Another program counted these, and 2543 that can't be rebuilt: 14 for each choice.
    assert!(rt; repairable == 67345 && choices.len() == (67345 + 2543) / 14);
}

// Three slices of more words than are processed at a time, the last one with half a word at its end.
fn many_bytes(rt: &(impl Abort + AllocGlobal)) -> Vec<u8> {
    let mut bytes = vec![in rt.alloc(); 0u8; 3 * SIZE - 5].expect(rt, "memory");
    for (i, byte) in bytes.iter_mut().enumerate() {
        *byte = (i % 251) as u8;
    }
    bytes
}

// Whether these are the recovery slices of exponents 1 and 2.
fn are_many(buffers: &[Vec<u8>], bytes: &[u8]) -> bool {
    match buffers {
        [first, second] => are_plain_words(first, second, bytes),
        _ => false,
    }
}

fn are_plain_words(first: &[u8], second: &[u8], bytes: &[u8]) -> bool {
    for w in 0..4099usize {
        if (word_at(first, w), word_at(second, w)) != plain_words(bytes, w) {
            return false;
        }
    }
    first.len() == SIZE && second.len() == SIZE
}

#[test]
fn many_words(rt: HostRuntime) {
    let bytes = many_bytes(&rt);
    assert!(rt; are_many(&recovery_of_a(&rt, &bytes, SIZE as u64, 1, 2), &bytes));
}

// The recovery slices with the exponents from the first one on.
pub(super) fn with_exponents<'a>(
    rt: &(impl Abort + AllocGlobal),
    first: u32,
    slices: &'a [Vec<u8>],
) -> Vec<(u32, &'a [u8])> {
    let mut recovery = Vec::new(rt.alloc());
    for (exponent, slice) in (first..65536u32).zip(slices.iter()) {
        recovery
            .push((exponent, slice.as_slice()))
            .expect(rt, "memory");
    }
    recovery
}

// The slices of the bytes without these two.
fn known_but<'a>(
    rt: &(impl Abort + AllocGlobal),
    bytes: &'a [u8],
    lost: [usize; 2],
) -> Vec<Option<&'a [u8]>> {
    let mut known = Vec::new(rt.alloc());
    for (k, slice) in bytes.chunks(SIZE).enumerate() {
        known
            .push((!lost.contains(&k)).then_some(slice))
            .expect(rt, "memory");
    }
    known
}

// The rebuilt bytes of the two slices.
fn many_rebuilt(rt: &(impl Abort + AllocGlobal), bytes: &[u8], lost: [usize; 2]) -> Vec<u8> {
    let slices = recovery_of_a(rt, bytes, SIZE as u64, 1, 2);
    let survivors = Survivors {
        slice: SIZE,
        known: known_but(rt, bytes, lost),
        recovery: with_exponents(rt, 1, &slices),
    };
    let answer = rebuilt(rt.alloc(), &field(rt), &survivors).expect(rt, "fitting survivors");
    let buffers = answer.expect(rt, "two lost slices");
    buffers.concat(rt.alloc()).expect(rt, "memory")
}

// The bytes of all slices, with the padding of the last.
fn many_padded(rt: &(impl Abort + AllocGlobal), bytes: &[u8]) -> Vec<u8> {
    [bytes, &[0u8; 5]].concat(rt.alloc()).expect(rt, "memory")
}

// Two neighbouring slices are lost, the short one, too, which is rebuilt with its padding.
#[test]
fn many_words_come_back(rt: HostRuntime) {
    let bytes = many_bytes(&rt);
    let padded = many_padded(&rt, &bytes);
    let front = many_rebuilt(&rt, &bytes, [0, 1]);
    assert!(rt; front.len() == 2 * SIZE && padded.starts_with(&front));
    let back = many_rebuilt(&rt, &bytes, [1, 2]);
    assert!(rt; back.len() == 2 * SIZE && padded.ends_with(&back));
}
