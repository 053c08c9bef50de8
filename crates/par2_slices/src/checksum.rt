//! The checksums of slices: the CRC-32 (ISO 3309) by tables, also of a window that slides along a file, and the pairs of
//! MD5s and CRC-32s. `pairs_of` computes the MD5s of sixteen slices side by side.
//!
//! A remainder is a polynomial with the lowest bit first, and each zero bit after the bytes multiplies it by x. The
//! padding takes a number of steps that doesn't grow with its length. A search keeps the CRC-32s itself, and computes
//! each from the one before it by `slid`.

ghost use Rattle.std.specs.Prelude.{◌≡◌, ◌≤◌, ◌+◌, ◌-◌, ◌*◌, ◌^◌, ◌<◌, ℕ, fold, length, min, map, take, drop, ◌++◌, ◌∷◌, [], List, IfOk, OnOk, slice_index};
ghost use Rattle.std.specs.List.{concat};
ghost use Rattle.md5.specs.Md5.{Holds, md5};
ghost use Rattle.par2_spec.specs.Prelude.{padded, slice_at, slice_count, slices};
ghost use Rattle.par2_slices.specs.Checksums.{AreMd5s, after_slide, first_pairs, leaving, steps};
ghost use Rattle.par2_spec.specs.Checksums as spec;
ghost use Rattle.par2_spec.specs.Sets as sets;

use md5::{Digest, Md5};
use par2_md5_lanes::{LANES, window_digests};
use par2_spec::Result;
use std::alloc::Global;
use std::array;
use std::marker::Model;

// The remainder of a byte that `table` more zero bytes follow, from the table for this number.
fn entry(table: usize, byte: u8) -> u32
    requires table { table < 16 }
    ensures { result ≡ steps (8 * (table + 1)) byte }
{
    TABLES[table][byte as usize]
}

/// The remainder of some bytes, after one more byte.
pub(crate) fn after_byte(remainder: u32, byte: u8) -> u32
    ensures { result ≡ spec.crc_byte remainder byte }
{
    let mixed = remainder ^ byte as u32;
    entry(0, (mixed % 256) as u8) ^ mixed >> 8
}

// The remainder of the four bytes of a little-endian word that `later` more zero bytes follow.
fn four_later(word: u32, later: usize) -> u32
    requires later { later ≤ 12 }
    ensures { result ≡ steps (8 * (later + 4)) word }
{
    let [first, second, third, fourth] = word.to_le_bytes();
    entry(later, fourth)
        ^ entry(later + 1, third)
        ^ entry(later + 2, second)
        ^ entry(later + 3, first)
}

// The remainder after sixteen more bytes, as the sum of four words' remainders: the fast loop of `after_bytes`.
fn after_sixteen(remainder: u32, bytes: &[u8; 16]) -> u32
    ensures { result ≡ fold spec.crc_byte remainder bytes.now }
{
    let (words, _) = bytes.as_chunks::<4>();
    // The words that don't depend on the remainder come first, so that their sum doesn't wait for it.
    four_later(u32::from_le_bytes(words[3]), 0)
        ^ four_later(u32::from_le_bytes(words[2]), 4)
        ^ four_later(u32::from_le_bytes(words[1]), 8)
        ^ four_later(remainder ^ u32::from_le_bytes(words[0]), 12)
}

// The remainder after more groups of sixteen bytes.
fn after_groups(remainder: u32, groups: &[[u8; 16]]) -> u32
    ensures { result ≡ fold spec.crc_byte remainder (concat groups.now) }
{
    let mut after = remainder;
    for group in groups {
        after = after_sixteen(after, group);
    }
    after
}

/// The remainder after more bytes: groups of sixteen first, and then the rest byte by byte.
pub(crate) fn after_bytes(remainder: u32, bytes: &[u8]) -> u32
    ensures { result ≡ fold spec.crc_byte remainder bytes.now }
{
    let (groups, rest) = bytes.as_chunks::<16>();
    let mut after = after_groups(remainder, groups);
    for &byte in rest {
        after = after_byte(after, byte);
    }
    after
}

/// The CRC-32 of the bytes.
#[tactic(auto, unfolding(par2_spec::specs::Checksums::crc32))]
pub fn crc32(bytes: &[u8]) -> u32
    ensures { result ≡ spec.crc32 bytes.now }
{
    after_bytes(0xFFFF_FFFF, bytes) ^ 0xFFFF_FFFF
}

// The polynomial 1.
const ONE: u32 = 0x8000_0000;

/// The product of two remainders. If `b` is 1 with some zero bits after it, this is `a` with as many after it.
pub(crate) fn multiply(a: u32, b: u32) -> u32
    ensures { (n : ℕ) → b ≡ steps n ONE → result ≡ steps n a }
{
    let mut product = 0;
    for bit in 0..32u32 {
        // One more zero bit is a product with x.
        product = (product / 2) ^ (product % 2) * 0xEDB8_8320 ^ (a >> bit) % 2 * b;
    }
    product
}

/// The remainder of 1 with `count` zero bytes after it, by square and multiply.
pub(crate) fn power_of_x(count: u64) -> u32
    ensures { result ≡ steps (8 * count) ONE }
{
    let mut power = ONE;
    for bit in 0..64u32 {
        power = multiply(power, power);
        if (count >> (63 - bit)) % 2 == 1 {
            power = after_byte(power, 0);
        }
    }
    power
}

/// The CRC-32 of the bytes, padded with zeros to `s` bytes, as the checksum of a last slice is.
pub fn padded_crc32(bytes: &[u8], s: u64) -> u32
    requires { length bytes.now ≤ s }
    ensures { result ≡ spec.crc32 (padded s bytes.now) }
{
    let missing = s - bytes.len() as u64;
    // One product instead of a step for each zero.
    multiply(after_bytes(0xFFFF_FFFF, bytes), power_of_x(missing)) ^ 0xFFFF_FFFF
}

/// The entries of a table, from those of the bytes that are a power of two. The checksum is linear, so the entry of a
/// sum is the sum of the entries.
macro_rules! table {
    ([$($entry:expr),*]) => { [$($entry),*] };
    ([$($entry:expr),*] $power:literal $($more:literal)*) => {
        table!([$($entry,)* $($entry ^ $power),*] $($more)*)
    };
}

/// Entry `i` of table `k` is what `i` becomes after `8 * (k + 1)` steps of one bit.
pub static TABLES: [[u32; 256]; 16] = [
    table!([0] 0x77073096 0xee0e612c 0x076dc419 0x0edb8832 0x1db71064 0x3b6e20c8 0x76dc4190 0xedb88320),
    table!([0] 0x191b3141 0x32366282 0x646cc504 0xc8d98a08 0x4ac21251 0x958424a2 0xf0794f05 0x3b83984b),
    table!([0] 0x01c26a37 0x0384d46e 0x0709a8dc 0x0e1351b8 0x1c26a370 0x384d46e0 0x709a8dc0 0xe1351b80),
    table!([0] 0xb8bc6765 0xaa09c88b 0x8f629757 0xc5b428ef 0x5019579f 0xa032af3e 0x9b14583d 0xed59b63b),
    table!([0] 0x3d6029b0 0x7ac05360 0xf580a6c0 0x30704bc1 0x60e09782 0xc1c12f04 0x58f35849 0xb1e6b092),
    table!([0] 0xcb5cd3a5 0x4dc8a10b 0x9b914216 0xec53826d 0x03d6029b 0x07ac0536 0x0f580a6c 0x1eb014d8),
    table!([0] 0xa6770bb4 0x979f1129 0xf44f2413 0x33ef4e67 0x67de9cce 0xcfbd399c 0x440b7579 0x8816eaf2),
    table!([0] 0xccaa009e 0x4225077d 0x844a0efa 0xd3e51bb5 0x7cbb312b 0xf9766256 0x299dc2ed 0x533b85da),
    table!([0] 0x177b1443 0x2ef62886 0x5dec510c 0xbbd8a218 0xacc04271 0x82f182a3 0xde920307 0x6655004f),
    table!([0] 0xefc26b3e 0x04f5d03d 0x09eba07a 0x13d740f4 0x27ae81e8 0x4f5d03d0 0x9eba07a0 0xe6050901),
    table!([0] 0xc18edfc0 0x586cb9c1 0xb0d97382 0xbac3e145 0xaef6c4cb 0x869c8fd7 0xd64819ef 0x77e1359f),
    table!([0] 0x9ba54c6f 0xec3b9e9f 0x03063b7f 0x060c76fe 0x0c18edfc 0x1831dbf8 0x3063b7f0 0x60c76fe0),
    table!([0] 0xdd96d985 0x605cb54b 0xc0b96a96 0x5a03d36d 0xb407a6da 0xb37e4bf5 0xbd8d91ab 0xa06a2517),
    table!([0] 0x9d0fe176 0xe16ec4ad 0x19ac8f1b 0x33591e36 0x66b23c6c 0xcd6478d8 0x41b9f7f1 0x8373efe2),
    table!([0] 0xb9fbdbe8 0xa886b191 0x8a7c6563 0xcf89cc87 0x44629f4f 0x88c53e9e 0xcafb7b7d 0x4e87f0bb),
    table!([0] 0xae689191 0x87a02563 0xd4314c87 0x73139f4f 0xe6273e9e 0x173f7b7d 0x2e7ef6fa 0x5cfdedf4),
];

/// The CRC-32 of a window of fixed size. Sliding it by a byte takes a constant number of steps.
#[derive(Drop)]
pub struct Rolling {
    size: u64,
    leaving: Box<[u32; 256]>,
    value: u32,
}

impl Model for Rolling {
    ghost use Rattle.std.specs.Prelude.{◌≤◌};
    ghost use Rattle.par2_slices.specs.Checksums.{Roll, IsLeaving};

    ghost Value = { Roll };

    ghost view = { λ a. record { size = a.size; value = a.value } };

    ghost invariant = { λ a. (1 ≤ a.size) × IsLeaving a.size a.leaving.value };
}

// For each byte, what it adds to the checksum when it leaves a window of `s` bytes.
#[tactic(auto, using(crate::proofs::Searching::writes), unfolding(crate::specs::Checksums::leaving))]
fn leaving_table(s: u64) -> [u32; 256]
    ensures { (byte : ℕ) → byte < 256 → slice_index result byte ≡ leaving s byte }
{
    let none = crc32(&[0]);
    let zeros = power_of_x(s);
    let mut table = [0; 256];
    for byte in 0..256usize {
        table[byte] = multiply(crc32(&[byte as u8]), zeros) ^ none;
    }
    table
}

impl Rolling {
    /// For windows of `s` bytes. Before `start` the value is 0, the CRC-32 of no bytes.
    pub fn new(alloc: Global, s: u64) -> Result<Rolling>
        requires { 1 ≤ s }
        ensures size { IfOk result (λ rolling. rolling.size ≡ s) }
        ensures value { IfOk result (λ rolling. rolling.value ≡ 0) }
    {
        Ok(Rolling {
            size: s,
            leaving: Box::new(alloc, leaving_table(s))?,
            value: 0,
        })
    }

    /// The size of the windows in bytes.
    pub(crate) fn size(&self) -> u64
        ensures value { result ≡ self.now.size }
        ensures some { 1 ≤ result }
    {
        self.size
    }

    /// Begins at a window: computes its CRC-32. A window shorter than the size is padded with zeros. Only tests call
    /// it.
    pub fn start(&mut self, window: &[u8])
        requires { length window.now ≤ self.old.size }
        ensures size { self.new.size ≡ self.old.size }
        ensures padded { self.new.value ≡ spec.crc32 (padded self.old.size window.now) }
        ensures whole { length window.now ≡ self.old.size → self.new.value ≡ spec.crc32 window.now }
    {
        self.value = padded_crc32(window, self.size);
    }

    /// Slides the window by a byte: `out` leaves it at the front, `next` enters at the end. Only tests call it; a
    /// search calls `slid`.
    pub fn slide(&mut self, out: u8, next: u8)
        ensures size { self.new.size ≡ self.old.size }
        ensures value { (rest : List ℕ) → length rest + 1 ≡ self.old.size → self.old.value
            ≡ spec.crc32 (out ∷ rest) → self.new.value ≡ spec.crc32 (rest ++ next ∷ []) }
    {
        self.value = self.slid(self.value, out, next);
    }

    /// The CRC-32 after one slide of a window whose CRC-32 is `value`: `out` leaves it, `next` enters. Its own value
    /// isn't used, so that four windows can slide side by side.
    #[inline(always)]
    pub(crate) fn slid(&self, value: u32, out: u8, next: u8) -> u32
        ensures { result ≡ after_slide self.now.size value out next }
    {
        after_byte(value, next) ^ self.leaving[out as usize]
    }

    /// The CRC-32 of the window where it is now. Only tests call it.
    pub fn value(&self) -> u32
        ensures { result ≡ self.now.value }
    {
        self.value
    }
}

/// The checksums of a slice: its MD5 and its CRC-32 (Parity Volume Set Specification 2.0, "Input File Slice Checksum
/// packet").
pub type Pair = ([u8; 16], u32);

// The padding, absorbed in pieces of this size.
static ZEROS: [u8; 1024] = [0; 1024];

/// The MD5 of the bytes, padded with zeros to `s` bytes.
pub fn padded_md5(bytes: &[u8], s: u64) -> [u8; 16]
    requires { length bytes.now ≤ s }
    ensures { result ≡ md5 (padded s bytes.now) }
{
    let mut hasher = Md5::new();
    hasher.update(bytes);
    let missing = s - bytes.len() as u64;
    for _ in 0..missing / 1024 {
        hasher.update(&ZEROS);
    }
    hasher.update(&ZEROS[..(missing % 1024) as usize]);
    hasher.finalize()
}

/// The checksums of the bytes, padded with zeros to `s` bytes. Only tests and benchmarks call it.
pub fn pair_of(bytes: &[u8], s: u64) -> Pair
    requires { length bytes.now ≤ s }
    ensures { result ≡ spec.pair_of (padded s bytes.now) }
{
    (padded_md5(bytes, s), padded_crc32(bytes, s))
}

/// At most sixteen slices of `s` bytes of a file, from slice `first` on: as many as there are MD5 lanes.
#[derive(Clone, Copy)]
pub(crate) struct SliceGroup<'a> {
    pub(crate) bytes: &'a [u8],
    pub(crate) s: u64,
    pub(crate) first: usize,
    pub(crate) count: usize,
    ghost some: { 1 ≤ s },
    ghost few: { count ≤ 16 },
    ghost fits: { first + count < 2 ^ 64 },
    ghost within: { first + count ≤ slice_count s (length bytes.now) },
}

/// The CRC-32 of slice `j` of a file, with its padding.
pub(crate) fn slice_crc32(bytes: &[u8], s: u64, j: u64) -> u32
    requires size { 1 ≤ s }
    requires place { j < slice_count s (length bytes.now) }
    ensures { result ≡ spec.crc32 (slice_at s bytes.now j) }
{
    let slice = slice_bytes(bytes, s, j);
    if slice.len() as u64 == s {
        // This is faster than with padding, which takes time even if there is none.
        crc32(slice)
    } else {
        padded_crc32(slice, s)
    }
}

// The offsets of `count` slices of `s` bytes from slice `first` on, for each lane. Unused lanes repeat the last one.
fn starts_from(first: usize, count: usize, s: usize) -> [usize; LANES]
    requires some { 1 ≤ count }
    requires last { first + count < 2 ^ 64 }
    requires end { (first + count) * s < 2 ^ 64 }
    ensures { (k : ℕ) → k < 16 → slice_index result k ≡ (first + min k (count - 1)) * s }
{
    array::from_fn(|lane| (first + lane.min(count - 1)) * s)
}

// The MD5s of the first `count` slices of the group, which are whole, side by side. Unused lanes repeat the last one.
fn whole_md5s(group: SliceGroup, count: usize) -> [[u8; 16]; LANES]
    requires own { count ≤ group.count }
    requires whole { 1 ≤ count → (group.first + count) * group.s ≤ length group.bytes.now }
    ensures { AreMd5s group.entry.s group.entry.bytes.now group.entry.first count result }
{
    if count == 0 {
        return [[0; 16]; LANES];
    }
    let s = group.s as usize;
    window_digests(group.bytes, &starts_from(group.first, count, s), count, s)
}

/// The MD5s of the slices of the group, each with its padding. Other lanes have no meaning.
#[tactic(auto, using(crate::proofs::Searching::writes))]
pub(crate) fn slice_md5s(group: SliceGroup) -> [[u8; 16]; LANES]
    ensures { let its = group.entry in AreMd5s its.s its.bytes.now its.first its.count result }
{
    let whole = (group.bytes.len() as u64 / group.s) as usize;
    let together = group.count.min(whole.saturating_sub(group.first));
    let mut md5s = whole_md5s(group, together);
    for k in together..group.count {
        let slice = slice_bytes(group.bytes, group.s, (group.first + k) as u64);
        md5s[k] = padded_md5(slice, group.s);
    }
    md5s
}

// Appends the checksums of the slices of the group to those of the slices before them.
fn push_group(pairs: &mut Vec<Pair>, group: SliceGroup) -> Result<()>
    requires { pairs.old.items ≡ first_pairs group.s group.bytes.now group.first }
    ensures { let its = group.entry in
        OnOk result (pairs.new.items ≡ first_pairs its.s its.bytes.now (its.first + its.count)) }
{
    let md5s = slice_md5s(group);
    for k in 0..group.count {
        let j = (group.first + k) as u64;
        pairs.push((md5s[k], slice_crc32(group.bytes, group.s, j)))?;
    }
    Ok(())
}

/// The checksums of the slices of `s` bytes of a file, in order. An error is that memory ran out.
pub fn pairs_of(alloc: Global, bytes: &[u8], s: u64) -> Result<Vec<Pair>>
    requires { 1 ≤ s }
    ensures { IfOk result (λ pairs. pairs.items ≡ map spec.pair_of (slices s bytes.now)) }
{
    let count = slice_count(bytes.len() as u64, s) as usize;
    let mut pairs = Vec::with_capacity(alloc, count)?;
    for group in 0..count.div_ceil(LANES) {
        let first = group * LANES;
        let count = LANES.min(count - first);
        let group = SliceGroup {
            bytes,
            s,
            first,
            count,
        };
        push_group(&mut pairs, group)?;
    }
    Ok(pairs)
}

/// The most slices that a set may have. The field has a constant for each.
pub const MOST_SLICES: u64 = 32768;

/// Whether slices may have this size: a multiple of 4 from 4 to 2^30.
pub fn is_slice_size(size: u64) -> bool
    ensures { result ≡ sets.is_slice_size size }
{
    size % 4 == 0 && 4 <= size && size <= 1 << 30
}

/// The number of slices of `s` bytes that a file of `len` bytes has; the last one may be shorter.
pub fn slice_count(len: u64, s: u64) -> u64
    requires { 1 ≤ s }
    ensures { result ≡ slice_count s len }
{
    len.div_ceil(s)
}

/// The bytes of the file in its slice `j`. The last slice may have fewer than `s`, because its padding isn't in the
/// file.
pub fn slice_bytes(bytes: &[u8], s: u64, j: u64) -> &[u8]
    requires size { 1 ≤ s }
    requires place { j < slice_count s (length bytes.now) }
    ensures value { result.now ≡ take s (drop (j * s) bytes.now) }
    ensures short { length result.now ≤ s }
{
    window_bytes(bytes, s, (j * s) as usize)
}

/// The bytes of the file in its window at `offset`. At the end of the file they may be fewer than `s`.
#[tactic(auto, using(std::proofs::lemmas::List::take_min))]
pub fn window_bytes(bytes: &[u8], s: u64, offset: usize) -> &[u8]
    requires { offset ≤ length bytes.now }
    ensures { result.now ≡ take s (drop offset bytes.now) }
{
    let rest = &bytes[offset..];
    &rest[..s.min(rest.len() as u64) as usize]
}

/// Writes slice `j` of the file into `dst`, which has `s` bytes, with its padding. Only tests call it.
pub fn slice_into(bytes: &[u8], s: u64, j: u64, dst: &mut [u8])
    requires size { 1 ≤ s }
    requires place { j < slice_count s (length bytes.now) }
    requires room { length dst.old ≡ s }
    ensures { dst.new ≡ slice_at s bytes.now j }
{
    let slice = slice_bytes(bytes, s, j);
    let (front, padding) = dst.split_at_mut(slice.len());
    front.copy_from_slice(slice);
    padding.fill(0);
}
