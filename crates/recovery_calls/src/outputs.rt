//! Recovery slices at their places in buffers.

ghost use Rattle.std.specs.Prelude.{◌≡◌, ◌+◌, ◌*◌, ◌<◌, ◌≤◌, ℕ, length, replicate, IsTrue};
ghost use Rattle.par2_spec.specs.Prelude.{list_at, lists_of};
ghost use Rattle.par2_transform.specs.Rows.{place_at, AreApart, LieWithin};
ghost use Rattle.par2_solve.specs.Rebuilding.{AreZeros, output_at};
ghost use Rattle.recovery_calls.specs.Outputs.{AreBeside};

use crate::MOST_SLICES;
use par2_gf16::Gf;
use par2_solve::write_recovery_slices;
use par2_transform::{Place, Places, Transform};
use std::alloc::{AllocError, Global};

fn place_of(places: &[Place], t: usize) -> Place
    requires { t < length places.now }
    ensures { result ≡ place_at places.now t }
{
    places[t]
}

// Whether an output of this many words ends where another one begins, or before.
fn ends_before(first: Place, second: Place, words: usize) -> bool
    ensures { IsTrue result → first.at + 2 * words ≤ second.at }
{
    first.at <= second.at && words <= (second.at - first.at) / 2
}

// Whether two outputs have no byte in common.
fn are_two(first: Place, second: Place, words: usize) -> bool
    ensures { IsTrue result → AreBeside words first second }
{
    first.buffer != second.buffer
        || ends_before(first, second, words)
        || ends_before(second, first, words)
}

// Whether output `t` has no byte in common with those before it.
fn is_apart(places: &[Place], t: usize, words: usize) -> bool
    requires { t < length places.now }
    ensures { IsTrue result → (s : ℕ) → s < t
        → AreBeside words (place_at places.now s) (place_at places.now t) }
{
    for s in 0..t {
        if !are_two(place_of(places, s), place_of(places, t), words) {
            return false;
        }
    }
    true
}

fn are_apart(places: &[Place], words: usize) -> bool
    ensures { IsTrue result → AreApart words places.now }
{
    for t in 0..places.len() {
        if !is_apart(places, t, words) {
            return false;
        }
    }
    true
}

fn buffer_at(buffers: &[Vec<u8>], i: usize) -> &[u8]
    requires { i < length buffers.now }
    ensures { result.now ≡ list_at (lists_of buffers.now) i }
{
    &buffers[i]
}

// Whether a buffer has this many words from byte `at` on.
fn has_words(bytes: &[u8], at: usize, words: usize) -> bool
    ensures { IsTrue result → at + 2 * words ≤ length bytes.now }
{
    at <= bytes.len() && words <= (bytes.len() - at) / 2
}

// Whether the buffers have all bytes of an output.
fn have_output(buffers: &[Vec<u8>], place: Place, words: usize) -> bool
    ensures bytes { IsTrue result → place.buffer < length buffers.now }
    ensures room { IsTrue result
        → place.at + 2 * words ≤ length (list_at (lists_of buffers.now) place.buffer) }
{
    place.buffer < buffers.len() && has_words(buffer_at(buffers, place.buffer), place.at, words)
}

fn lie_within(places: &[Place], words: usize, buffers: &[Vec<u8>]) -> bool
    ensures { IsTrue result → LieWithin words places.now (lists_of buffers.now) }
{
    for t in 0..places.len() {
        if !have_output(buffers, place_of(places, t), words) {
            return false;
        }
    }
    true
}

fn is_blank(bytes: &[u8]) -> bool
    ensures { IsTrue result → bytes.now ≡ replicate (length bytes.now) 0 }
{
    for k in 0..bytes.len() {
        if bytes[k] != 0 {
            return false;
        }
    }
    true
}

// Whether an output is zeros.
fn is_output_blank(buffers: &[Vec<u8>], place: Place, words: usize) -> bool
    requires bytes { place.buffer < length buffers.now }
    requires room { place.at + 2 * words ≤ length (list_at (lists_of buffers.now) place.buffer) }
    ensures { IsTrue result
        → output_at (2 * words) place (lists_of buffers.now) ≡ replicate (2 * words) 0 }
{
    is_blank(&buffer_at(buffers, place.buffer)[place.at..place.at + 2 * words])
}

fn are_blank(places: &[Place], words: usize, buffers: &[Vec<u8>]) -> bool
    requires { LieWithin words places.now (lists_of buffers.now) }
    ensures { IsTrue result → AreZeros words places.now (lists_of buffers.now) }
{
    for t in 0..places.len() {
        if !is_output_blank(buffers, place_of(places, t), words) {
            return false;
        }
    }
    true
}

/// Adds the recovery slices of exponents from `first` on to outputs of this many words.
pub fn slices_added(
    alloc: Global,
    gf: &Gf,
    slices: &[&[u8]],
    first: u32,
    buffers: &mut [Vec<u8>],
    places: &[Place],
    words: usize,
) -> Result<Option<()>, AllocError> {
    if slices.len() > MOST_SLICES || places.len() as u64 + first as u64 > 1 << 32 {
        return Ok(None);
    }
    if !are_apart(places, words) || !lie_within(places, words, buffers) {
        return Ok(None);
    }
    let outputs = Places::new(places, words);
    let room = 100 * 1024;
    let transform = Transform { gf, slices, room };
    transform.add_recovery_slices_at(alloc, first, buffers, &outputs)?;
    Ok(Some(()))
}

/// Writes the recovery slices of these exponents to outputs of this many words.
pub fn slices_written(
    alloc: Global,
    gf: &Gf,
    slices: &[&[u8]],
    exponents: &[u32],
    buffers: &mut [Vec<u8>],
    places: &[Place],
    words: usize,
) -> Result<Option<()>, AllocError> {
    if slices.len() > MOST_SLICES || exponents.len() != places.len() {
        return Ok(None);
    }
    if !are_apart(places, words) || !lie_within(places, words, buffers) {
        return Ok(None);
    }
    if !are_blank(places, words, buffers) {
        return Ok(None);
    }
    let outputs = Places::new(places, words);
    write_recovery_slices(alloc, gf, slices, exponents, buffers, &outputs)?;
    Ok(Some(()))
}
