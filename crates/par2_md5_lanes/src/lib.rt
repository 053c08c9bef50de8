//! MD5 (RFC 1321) of up to sixteen messages side by side, each in a lane of a vector. A message is a window of a
//! buffer, a buffer, or a list of parts; `Midstate` is the state after the first bytes of a message.
//!
//! `par2_files`, `par2_packets`, `par2_slices` and others use it. It knows messages and digests, but no files, packets
//! or slices.
#![tactic(auto)]

ghost use Rattle.std.specs.Prelude.{◌≡◌, ◌≤◌, ◌<◌, ◌+◌, ◌*◌, ◌/◌, ℕ, length, take, drop, slice_index};
ghost use Rattle.std.specs.Int.{to_le_bytes};
ghost use Rattle.md5.specs.Md5.{digest_bytes, hash_after, md5, padded_message};
ghost use Rattle.par2_md5_lanes.specs.Messages.{HaveLanes, buffer_at, digest_at};

mod blocks;
mod midstate;
mod tasks;

use blocks::{HashState, Hashes, Sixteen};
use md5::{Digest, Md5};
use midstate::tails_of_windows;
pub use midstate::{Midstate, Part};
use std::simd::prelude::*;
pub use tasks::{Pending, absorb_each, buffer_digests};

/// The largest number of messages that are digested side by side.
pub const LANES: usize = 16;

// The arrays as the buffers of sixteen lanes.
#[tactic(auto, using(crate::proofs::LaneLaws::writes, crate::proofs::LaneLaws::bytes_here))]
fn as_buffers<const N: usize>(arrays: &[[u8; N]; LANES]) -> [&[u8]; LANES]
    ensures bytes { (k : ℕ) → k < 16 → buffer_at result k ≡ digest_at arrays.now k }
    ensures size { (k : ℕ) → k < 16 → length (buffer_at result k) ≡ N }
{
    let none: &[u8] = &[];
    let mut buffers = [none; LANES];
    for k in 0..LANES {
        buffers[k] = &arrays[k][..];
    }
    buffers
}

// The windows of `len` bytes that begin at `starts`, one for each lane.
#[tactic(auto, using(crate::proofs::LaneLaws::writes, crate::proofs::LaneLaws::bytes_here))]
fn windows<'a>(bytes: &'a [u8], starts: &[usize; LANES], len: usize) -> [&'a [u8]; LANES]
    requires within { (k : ℕ) → k < 16 → slice_index starts.now k + len ≤ length bytes.now }
    ensures { (k : ℕ)
        → k < 16 → buffer_at result k ≡ take len (drop (slice_index starts.now k) bytes.now) }
{
    let mut windows = [bytes; LANES];
    for k in 0..LANES {
        windows[k] = &bytes[starts[k]..starts[k] + len];
    }
    windows
}

// The digest of a last hash value: its four words, low byte first (RFC 1321, 3.5).
fn digest_of(hash: [u32; 4]) -> [u8; 16]
    ensures { result ≡ digest_bytes hash 4 }
{
    let [a, b, c, d] = hash;
    let [a0, a1, a2, a3] = a.to_le_bytes();
    let [b0, b1, b2, b3] = b.to_le_bytes();
    let [c0, c1, c2, c3] = c.to_le_bytes();
    let [d0, d1, d2, d3] = d.to_le_bytes();
    [
        a0, a1, a2, a3, b0, b1, b2, b3, c0, c1, c2, c3, d0, d1, d2, d3,
    ]
}

// The digests of the first `count` windows, of `len` bytes each, in as many lanes as `H` has. Each absorbs its whole
// blocks, and then its tail: the rest and the padding.
#[tactic(auto, using(crate::proofs::LaneLaws::writes))]
fn digests<H: Hashes>(windows: &[&[u8]; LANES], count: usize, len: usize) -> [[u8; 16]; LANES]
    requires lanes { HaveLanes count H.count }
    requires within { (k : ℕ) → k < 16 → length (buffer_at windows.now k) ≡ len }
    ensures { (k : ℕ) → k < count → digest_at result k ≡ md5 (buffer_at windows.now k) }
{
    let tails = tails_of_windows(windows, len);
    let initial = Midstate::new().hash;
    let before = H::from_hashes(&[initial; LANES]).absorbed(windows, len / 64);
    // The padding has at least nine bytes.
    let hashes = before.absorbed(&as_buffers(&tails), (len % 64 + 72) / 64);
    let mut digests = [[0; 16]; LANES];
    for k in 0..count {
        digests[k] = digest_of(hashes.in_lane(k));
    }
    digests
}

/// The MD5 digests of the windows of `len` bytes that begin at the first `count` starts, in their order. Windows may
/// overlap. The other digests have no meaning.
pub fn window_digests(
    bytes: &[u8],
    starts: &[usize; LANES],
    count: usize,
    len: usize,
) -> [[u8; 16]; LANES]
    requires few { count ≤ 16 }
    requires within { (k : ℕ) → k < 16 → slice_index starts.now k + len ≤ length bytes.now }
    ensures { (k : ℕ)
        → k < count
        → digest_at result k ≡ md5 (take len (drop (slice_index starts.now k) bytes.now)) }
{
    let windows = windows(bytes, starts, len);
    match count {
        // Several messages side by side take about as long as two, so one alone is faster by itself.
        0..=1 => [Md5::digest(windows[0]); LANES],
        2..=8 => digests::<HashState<u32x8>>(&windows, count, len),
        _ => digests::<Sixteen>(&windows, count, len),
    }
}
