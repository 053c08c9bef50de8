//! The checksums that a search looks for, with an index by CRC-32: the places of the pairs in groups whose CRC-32s have
//! the same high bits.
//!
//! `Filter` is a set of checksums that are still searched for, with one bit for all checksums that have the same high
//! bits and the same low three bits. The high bits give the byte, and the low ones the bit in it. A large table has few false hits but isn't in the nearest
//! cache, so a summary has a bit for each byte: a search tests for each offset just whether the byte may differ from 0.
//! The table has 128 KiB for few pairs and 512 KiB for many, and the summary an eighth.
//!
//! A filter is exactly the set of groups that were added and not removed. A search keeps a group exactly as long as a
//! pair of it isn't found.

ghost use Rattle.std.specs.Prelude.{◌≡◌, ◌≤◌, ◌<◌, ◌/◌, ◌^◌, ℕ, IfOk, length, ◌≢◌, ◌*◌, ◌%◌, ◌↔◌, ◌⊎◌, IsTrue, slice_index, slice_set};
ghost use Rattle.std.specs.List.Sorted.{IsNonDecreasingBy};
ghost use Rattle.par2_slices.specs.Checksums.{is_awaited, pair_place_at, AreStarts, HoldsGroup, IsIndex, IsStart, AreAlike, Includes, HasBit};

use crate::checksum::Pair;
use crate::search::Position;
use par2_spec::Result;
use std::alloc::Global;
use std::marker::Model;

// The number of groups that the places are in.
const GROUPS: usize = 1 << 15;

// In how many low bits the checksums of a group may differ.
const SHIFT: u32 = 17;

/// The index of a pair among the pairs looked for, with its CRC-32.
#[derive(Clone, Copy, Drop)]
pub(crate) struct PairPlace {
    pub(crate) crc: u32,
    pub(crate) index: usize,
}

impl PairPlace {
    /// Whether the pair has this CRC-32 and isn't found yet.
    pub(crate) fn is_awaited(&self, crc: u32, found: &[Option<Position>]) -> bool
        ensures { result ≡ is_awaited crc found.now self.now }
    {
        self.crc == crc && found.get(self.index).copied().flatten().is_none()
    }
}

/// The pairs that a search looks for, in order. A pair may occur more than once.
#[derive(Drop)]
pub struct Wanted {
    pairs: Vec<Pair>,
    places: Vec<PairPlace>,
    // The index where the places of each group begin, followed by the number of all places.
    starts: Vec<usize>,
}

impl Model for Wanted {
    ghost use Rattle.std.specs.Prelude.{List};
    ghost use Rattle.par2_spec.specs.Checksums.{Pair};
    ghost use Rattle.par2_slices.specs.Checksums.{AreStarts, IsIndex};

    ghost Value = { List Pair };

    ghost view = { λ a. a.pairs.items };

    ghost invariant = { λ a. (IsIndex a.pairs.items a.places.items) × AreStarts a.places.items
        a.starts.items };
}

// The places of the pairs, by ascending CRC-32s.
fn places_of(alloc: Global, pairs: &[Pair]) -> Result<Vec<PairPlace>>
    ensures { IfOk result (λ places. IsIndex pairs.now places.items) }
{
    let mut places = Vec::with_capacity(alloc, pairs.len())?;
    for (index, pair) in pairs.iter().enumerate() {
        places.push(PairPlace { crc: pair.1, index })?;
    }
    places.sort_unstable_by_key(|place| place.crc);
    Ok(places)
}

// The index where the places of this group and of those above it begin.
fn group_start(places: &[PairPlace], group: usize) -> usize
    requires { IsNonDecreasingBy (λ place. place.crc) places.now }
    ensures { IsStart places.now group result }
{
    places.partition_point(|place| ((place.crc >> SHIFT) as usize) < group)
}

// The index where the places of each group begin, followed by the number of all places: `Wanted::starts`.
fn group_starts(alloc: Global, places: &[PairPlace]) -> Result<Vec<usize>>
    requires { IsNonDecreasingBy (λ place. place.crc) places.now }
    ensures { IfOk result (λ starts. AreStarts places.now starts.items) }
{
    let starts = (0..GROUPS + 1).map(|group| group_start(places, group));
    starts.collect(alloc)
}

impl Wanted {
    /// The pairs to look for, in their order, with the index. An error is that memory ran out.
    pub fn new(alloc: Global, pairs: &[Pair]) -> Result<Wanted>
        ensures { IfOk result (λ wanted. wanted ≡ pairs.now) }
    {
        let places = places_of(alloc, pairs)?;
        let starts = group_starts(alloc, &places)?;
        let pairs = Vec::from_slice(alloc, pairs)?;
        Ok(Wanted {
            pairs,
            places,
            starts,
        })
    }

    /// The pairs, in the order in which they were given.
    pub(crate) fn pairs(&self) -> &[Pair]
        ensures { result.now ≡ self.now }
    {
        &self.pairs
    }

    /// The places of the pairs whose CRC-32 has the same bits from `SHIFT` on as `crc`.
    pub(crate) fn group(&self, crc: u32) -> &[PairPlace]
        ensures { HoldsGroup self.now crc result.now }
    {
        let group = (crc >> SHIFT) as usize;
        &self.places[self.starts[group]..self.starts[group + 1]]
    }
}

/// In how many low bits the checksums of a byte may differ, for few pairs and for many.
pub(crate) const FEW: u32 = 15;

pub(crate) const MANY: u32 = 13;

// The most pairs that count as few.
const MOST_FEW: usize = 2048;

/// A set of groups of checksums. The checksums of a group have the same bits from `shift` on and the same low three
/// bits.
#[derive(Drop)]
pub(crate) struct Filter {
    shift: u32,
    bytes: Vec<u8>,
    // A bit for each byte, which is set if the byte isn't 0.
    summary: Vec<u32>,
}

impl Model for Filter {
    ghost use Rattle.par2_slices.specs.Checksums.{Groups, IsLong, Summarizes};

    ghost Value = { Groups };

    ghost view = { λ a. record { shift = a.shift; bytes = a.bytes.items } };

    ghost invariant = { λ a. IsLong a.shift a.bytes.items × Summarizes a.bytes.items a.summary.items };
}

// Sets the summary's bit for the byte at `place`, or clears it if that is 0.
fn summarize(bits: &mut [u32], place: usize, byte: u8)
    requires { place < 32 * length bits.old }
    ensures len { length bits.new ≡ length bits.old }
    ensures here { byte ≢ 0 → HasBit bits.new place }
    ensures kept { (other : ℕ) → other ≢ place → HasBit bits.old other → HasBit bits.new other }
{
    if byte == 0 {
        bits[place / 32] &= !(1 << (place % 32));
    } else {
        bits[place / 32] |= 1 << (place % 32);
    }
}

impl Filter {
    /// The empty set, for the checksums of this many pairs.
    pub(crate) fn new(alloc: Global, pairs: usize) -> Result<Filter>
        ensures empty { IfOk result (λ filter. (crc : ℕ) → ¬ (Includes filter crc)) }
        ensures fine { IfOk result (λ filter. filter.shift ≤ 17) }
    {
        let (shift, bytes) = if pairs > MOST_FEW {
            (MANY, 1usize << 19)
        } else {
            (FEW, 1usize << 17)
        };
        Ok(Filter {
            shift,
            bytes: vec![in alloc; 0u8; bytes]?,
            summary: vec![in alloc; 0u32; bytes / 32]?,
        })
    }

    /// Whether the checksums are of one group, so that the filter doesn't distinguish them.
    pub(crate) fn are_alike(&self, crc: u32, other: u32) -> bool
        ensures { IsTrue result ↔ AreAlike self.now.shift crc other }
    {
        other >> self.shift == crc >> self.shift && other % 8 == crc % 8
    }

    // The byte in which the group of `crc` has its bit.
    fn byte_at(&self, crc: u32) -> u8
        ensures place { crc / 2 ^ self.now.shift < length self.now.bytes }
        ensures value { result ≡ slice_index self.now.bytes (crc / 2 ^ self.now.shift) }
    {
        self.bytes[(crc >> self.shift) as usize]
    }

    // Writes this byte.
    fn write(&mut self, crc: u32, byte: u8)
        ensures shift { self.new.shift ≡ self.old.shift }
        ensures bytes { self.new.bytes ≡ slice_set self.old.bytes (crc / 2 ^ self.old.shift) byte }
    {
        let place = (crc >> self.shift) as usize;
        self.bytes[place] = byte;
        summarize(self.summary.as_mut_slice(), place, byte);
    }

    /// Adds the group of `crc`, and so each checksum of it. `Includes`: the group of a checksum is in the set.
    pub(crate) fn insert(&mut self, crc: u32)
        ensures shift { self.new.shift ≡ self.old.shift }
        ensures included { Includes self.new crc }
        ensures kept { (other : ℕ) → Includes self.old other → Includes self.new other }
        ensures only { (other : ℕ) → Includes self.new other
            → AreAlike self.old.shift crc other ⊎ Includes self.old other }
    {
        self.write(crc, self.byte_at(crc) | 1 << (crc % 8));
    }

    /// Removes the group of `crc`, when no open pair has a checksum of it any more.
    pub(crate) fn remove(&mut self, crc: u32)
        ensures shift { self.new.shift ≡ self.old.shift }
        ensures gone { ¬ (Includes self.new crc) }
        ensures kept { (other : ℕ) → ¬ (AreAlike self.old.shift crc other)
            → Includes self.old other → Includes self.new other }
        ensures only { (other : ℕ) → Includes self.new other → Includes self.old other }
    {
        self.write(crc, self.byte_at(crc) & !(1 << (crc % 8)));
    }

    // A number that is odd if the byte of the group of `crc` isn't 0. `shift` is the filter's; callers know it as a
    // constant.
    #[inline(always)]
    fn summary_at(&self, crc: u32, shift: u32) -> u32
        requires { shift ≡ self.now.shift }
        ensures { Includes self.now crc → result % 2 ≡ 1 }
    {
        let summary = self.summary.as_slice();
        let place = (crc >> shift) as usize;
        summary[place / 32] >> (place % 32)
    }

    /// Whether the group of `crc` is in the set. The summary is in a nearer cache, so it is asked first.
    pub(crate) fn contains(&self, crc: u32) -> bool
        ensures { IsTrue result ↔ Includes self.now crc }
    {
        self.summary_at(crc, self.shift) % 2 == 1 && (self.byte_at(crc) >> (crc % 8)) % 2 == 1
    }

    /// Whether the filter is for many pairs. This decides its shift, and so the constant for `may_contain_any`.
    pub(crate) fn is_for_many(&self) -> bool
        ensures many { IsTrue result → self.now.shift ≡ 13 }
        ensures few { ¬ (IsTrue result) → self.now.shift ≡ 15 }
    {
        self.shift == MANY
    }

    /// Whether the group of one of the four may be in the set: true if any group of its byte is.
    // All four are looked up before the test, because hardly any is in the set.
    #[inline(always)]
    pub(crate) fn may_contain_any<const SHIFT: u32>(&self, crcs: &[u32; 4]) -> bool
        requires { SHIFT ≡ self.now.shift }
        ensures { (k : ℕ) → k < 4 → Includes self.now (slice_index crcs.now k) → IsTrue result }
    {
        let [first, second, third, fourth] = *crcs;
        let low = self.summary_at(first, SHIFT) | self.summary_at(second, SHIFT);
        let high = self.summary_at(third, SHIFT) | self.summary_at(fourth, SHIFT);
        (low | high) % 2 == 1
    }
}
