//! Messages and MD5 states in lanes, against the hasher of one message.

use md5::{Digest, Md5};
use par2_md5_lanes::{LANES, Midstate, Part, Pending, absorb_each, buffer_digests};
use std::process::Abort;

// Lengths around the edges of a block and of the padding.
const SIZES: [usize; 12] = [0, 1, 55, 56, 57, 63, 64, 65, 119, 120, 128, 129];

fn message() -> [u8; 1024] {
    let mut bytes = [0; 1024];
    for i in 0..bytes.len() {
        bytes[i] = ((i * i / 7 + i) % 256) as u8;
    }
    bytes
}

// The bytes of the message from `at` on, as many as entry `step` of the sizes.
fn piece(message: &[u8], at: usize, step: usize) -> &[u8] {
    let rest = &message[at.min(message.len())..];
    &rest[..SIZES[step % 12].min(rest.len())]
}

// The parts of message `k`, of many sizes: a length, bytes, and other bytes or none.
fn parts(message: &[u8], step: usize, k: usize) -> [Part<'_>; 3] {
    [
        Part::Length(k as u64),
        Part::Bytes(piece(message, k, step.wrapping_add(k.wrapping_mul(5)))),
        Part::Bytes(piece(message, 300, step.wrapping_mul(k))),
    ]
}

fn state_after(bytes: &[u8]) -> Midstate {
    let mut state = Midstate::new();
    state.absorb(&[Part::Bytes(bytes)]);
    state
}

// The digest of message `k` between other bytes.
fn digest_by_the_hasher(
    before: &[u8],
    message: &[u8],
    step: usize,
    k: usize,
    behind: &[u8],
) -> [u8; 16] {
    let mut hasher = Md5::new();
    hasher.update(before);
    hasher.update((k as u64).to_le_bytes().as_slice());
    hasher.update(piece(message, k, step.wrapping_add(k.wrapping_mul(5))));
    hasher.update(piece(message, 300, step.wrapping_mul(k)));
    hasher.update(behind);
    hasher.finalize()
}

fn pieces<'a>(
    rt: &(impl Abort + AllocGlobal),
    message: &'a [u8],
    step: usize,
    count: usize,
) -> Vec<&'a [u8]> {
    let mut pieces = Vec::new(rt.alloc());
    for k in 0..count {
        pieces
            .push(piece(message, k, step.wrapping_add(k.wrapping_mul(5))))
            .expect(rt, "memory");
    }
    pieces
}

// Whether this many pieces have the digests of the hasher.
fn are_digested(
    rt: &(impl Abort + AllocGlobal),
    message: &[u8],
    step: usize,
    count: usize,
) -> bool {
    let pieces = pieces(rt, message, step, count);
    let digests = buffer_digests(rt.alloc(), pieces.as_slice()).expect(rt, "memory");
    for (k, digest) in digests.iter().enumerate() {
        if *digest != Md5::digest(piece(message, k, step.wrapping_add(k.wrapping_mul(5)))) {
            return false;
        }
    }
    digests.len() == count
}

// A state after its own piece, and the parts of message `k`.
fn pending<'a>(
    rt: &(impl Abort + AllocGlobal),
    message: &'a [u8],
    step: usize,
    k: usize,
) -> Pending<'a> {
    Pending {
        state: state_after(piece(message, 500, step.wrapping_add(k))),
        parts: Vec::from_slice(rt.alloc(), &parts(message, step, k)).expect(rt, "memory"),
    }
}

fn pendings<'a>(
    rt: &(impl Abort + AllocGlobal),
    message: &'a [u8],
    step: usize,
    count: usize,
) -> Vec<Pending<'a>> {
    let mut pendings = Vec::new(rt.alloc());
    for k in 0..count {
        pendings
            .push(pending(rt, message, step, k))
            .expect(rt, "memory");
    }
    pendings
}

fn digest_behind(message: &[u8], step: usize, k: usize) -> [u8; 16] {
    let before = piece(message, 500, step.wrapping_add(k));
    digest_by_the_hasher(before, message, step, k, piece(message, 7, step))
}

// Whether this many states, each with a piece after it, have the digests of the hasher.
fn are_absorbed(
    rt: &(impl Abort + AllocGlobal),
    message: &[u8],
    step: usize,
    count: usize,
) -> bool {
    let pendings = pendings(rt, message, step, count);
    if pendings.len() > LANES {
        return false;
    }
    for (k, state) in absorb_each(pendings.as_slice()).iter().enumerate() {
        if k < count
            && digest_then(state, piece(message, 7, step)) != digest_behind(message, step, k)
        {
            return false;
        }
    }
    true
}

fn digest_then(state: &Midstate, bytes: &[u8]) -> [u8; 16] {
    let mut state = *state;
    state.absorb(&[Part::Bytes(bytes)]);
    state.digest()
}

#[test]
fn one_to_sixteen_messages_and_states(rt: HostRuntime) {
    let message = message();
    for step in 0..12 {
        for count in 1..LANES + 1 {
            assert!(rt; are_digested(&rt, &message, step, count), "{step} {count}");
            assert!(rt; are_absorbed(&rt, &message, step, count), "{step} {count}");
        }
    }
}
