//! The state of MD5 after the first bytes of a message: `new`, then `absorb` any number of times, and `digest` at any
//! time. The tail of a message is its bytes after the whole blocks, and then its padding: one block or two.

ghost use Rattle.std.specs.Prelude.{◌≡◌, ◌++◌, ◌-◌, ◌%◌, ◌^◌, [], ◌∷◌, replicate, ℕ, List, length, ◌≤◌, ◌<◌, ◌*◌, ◌/◌, take, drop};
ghost use Rattle.md5.specs.Md5.{md5, padding};
ghost use Rattle.par2_md5_lanes.specs.Messages.{HasAbsorbed, message_of, part_bytes, tail_len, tail_of, buffer_at, digest_at};

use crate::blocks::{Feed, hashed};
use crate::{LANES, digest_of};

// The zeros of a padding.
static ZEROS: [u8; 64] = [0; 64];

/// A part of a message: bytes, or a length as eight bytes, the low one first.
#[derive(Clone, Copy, Drop)]
pub enum Part<'a> {
    Length(u64),
    Bytes(&'a [u8]),
}

/// MD5 after the first bytes of a message, from which it can go on.
#[derive(Clone, Copy, Drop)]
pub struct Midstate {
    /// The hash value after the whole blocks.
    pub(crate) hash: [u32; 4],
    /// Begins with the bytes after the whole blocks.
    pub(crate) rest: [u8; 64],
    /// The number of bytes so far, modulo 2^64, as the padding needs it (RFC 1321, 3.2).
    pub(crate) length: u64,
}

/// The number of bytes of all parts together, modulo 2^64.
pub(crate) fn length_of(parts: &[Part]) -> u64
    ensures { result ≡ length (message_of parts.now) % 2 ^ 64 }
{
    let mut length = 0u64;
    for part in parts {
        let len = match part {
            Part::Length(_) => 8,
            Part::Bytes(bytes) => bytes.len() as u64,
        };
        length = length.wrapping_add(len);
    }
    length
}

/// The padding of a message of this many bytes, modulo 2^64, as parts (RFC 1321, 3.1 and 3.2).
pub(crate) fn ending(length: u64) -> [Part<'static>; 3]
    ensures { (n : ℕ) → n % 2 ^ 64 ≡ length → message_of result ≡ padding n }
{
    let zeros = &ZEROS[..((119 - length % 64) % 64) as usize];
    [
        Part::Bytes(&[0x80]),
        Part::Bytes(zeros),
        Part::Length(length.wrapping_mul(8)),
    ]
}

impl Midstate {
    /// Before the first byte: the initial hash value (RFC 1321, 3.3).
    pub fn new() -> Midstate
        ensures { HasAbsorbed result [] }
    {
        Midstate {
            hash: [0x6745_2301, 0xefcd_ab89, 0x98ba_dcfe, 0x1032_5476],
            rest: [0; 64],
            length: 0,
        }
    }

    /// Absorbs the parts, so that the message goes on with them. `HasAbsorbed`: the state is that after these bytes.
    pub fn absorb(&mut self, parts: &[Part])
        ensures { (m : List ℕ) → HasAbsorbed self.old m
            → HasAbsorbed self.new (m ++ message_of parts.now) }
    {
        let rest = self.rest;
        // Reborrowed, so that `rest` and the bytes of the parts have one lifetime.
        let parts = &parts[..];
        let feed = Feed::new(&rest[..(self.length % 64) as usize], parts);
        self.length = self.length.wrapping_add(length_of(parts));
        self.hash = hashed(self.hash, feed, &mut self.rest);
    }

    /// The MD5 digest of the message so far. The state is unchanged, and can absorb more.
    pub fn digest(&self) -> [u8; 16]
        ensures { (m : List ℕ) → HasAbsorbed self.now m → result ≡ md5 m }
    {
        let mut padded = *self;
        padded.absorb(&ending(self.length));
        digest_of(padded.hash)
    }
}

// The tail of a window, at most two blocks, followed by zeros.
fn tail_of(window: &[u8]) -> [u8; 128]
    ensures { take (tail_len (length window.now)) result ≡ tail_of (length window.now) window.now }
{
    let padding = ending(window.len() as u64);
    let mut tail = [0; 128];
    Feed::new(&window[window.len() / 64 * 64..], &padding).fill(&mut tail);
    tail
}

/// The tails of the windows of `len` bytes, each at the beginning of its array.
#[tactic(auto, using(crate::proofs::LaneLaws::writes, crate::proofs::LaneLaws::bytes_here))]
pub(crate) fn tails_of_windows(windows: &[&[u8]; LANES], len: usize) -> [[u8; 128]; LANES]
    requires within { (k : ℕ) → k < 16 → length (buffer_at windows.now k) ≡ len }
    ensures { (k : ℕ) → k < 16
        → take (tail_len len) (digest_at result k) ≡ tail_of len (buffer_at windows.now k) }
{
    let mut tails = [[0; 128]; LANES];
    for k in 0..LANES {
        tails[k] = tail_of(windows[k]);
    }
    tails
}
