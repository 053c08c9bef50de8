//! Blocks of several messages at once, each message in a lane of its own: their words, the 64 steps of a block in four
//! rounds (RFC 1321, 3.4), and the hash values after blocks (`Hashes::absorbed`), also of one message by itself
//! (`hashed`). `Feed` has the bytes of a list of parts, block by block: without a copy inside a part (`take_at_hand`),
//! and copied across parts (`fill`).
//!
//! Reading the words of eight messages one by one takes a fifth of the time of a block. So sixteen bytes of each message
//! are read as a row, and the rows of four or eight messages are transposed.

ghost use Rattle.std.specs.Prelude.{◌≡◌, ◌≤◌, ◌<◌, ◌+◌, ◌^◌, ℕ, length, slice_index, ◌++◌, ◌*◌, ◌/◌, ◌%◌, [], List, take, drop, true, false, ◌-◌, min};
ghost use Rattle.std.specs.Int.{w32, rotate_left};
ghost use Rattle.md5.specs.Md5.{add32, add_state, f_fn, g_fn, h_fn, i_fn, round, step_constants, step_shifts, word_at, block_words};
ghost use Rattle.par2_md5_lanes.specs.Messages.{Advances, AreFourWords, Have, HaveHashesAfter, buffer_at, four_words_at, lane, bytes_left, digest_at, hash_behind, at_hand, message_of, hash_of_sixteen, lane_words};

use crate::midstate::Part;
use std::convert::AsSlice;
use std::simd::prelude::*;

/// One word of each of several messages.
pub(crate) trait Lanes: Copy {
    // The number of messages.
    ghost count: { ℕ };

    // The word in one lane.
    ghost at: { Self → ℕ → ℕ };

    /// The function F: the bits of `y` at the ones of `x`, and those of `z` at its zeros.
    fn f(x: Self, y: Self, z: Self) -> Self
        ensures { (k : ℕ) → k < count → at result k ≡ f_fn (at x k) (at y k) (at z k) };

    /// A sum plus the function G. The two terms of G have no bit in common, so they are added one by one. The term with
    /// `x` comes last, because `x` is the result of the step before.
    fn plus_g(sum: Self, x: Self, y: Self, z: Self) -> Self
        ensures { (k : ℕ) → k < count
            → at result k ≡ add32 (at sum k) (g_fn (at x k) (at y k) (at z k)) };

    /// The function H: the exclusive or of the three.
    fn h(x: Self, y: Self, z: Self) -> Self
        ensures { (k : ℕ) → k < count → at result k ≡ h_fn (at x k) (at y k) (at z k) };

    /// A sum plus one plus the function I. The complement of I is subtracted instead, which saves the complement of `z`
    /// but adds one more; `step` takes that off its constant.
    fn plus_one_and_i(sum: Self, x: Self, y: Self, z: Self) -> Self
        ensures { (k : ℕ) → k < count
            → at result k ≡ add32 (add32 (at sum k) 1) (i_fn (at x k) (at y k) (at z k)) };

    /// The sum modulo 2^32, in each lane.
    fn plus(x: Self, y: Self) -> Self
        ensures { (k : ℕ) → k < count → at result k ≡ add32 (at x k) (at y k) };

    /// The same word in each lane.
    fn splat(x: u32) -> Self
        ensures { (k : ℕ) → k < count → at result k ≡ x };

    /// Each word, rotated left by `shift` bits.
    fn rotated(x: Self, shift: u32) -> Self
        ensures { (k : ℕ) → k < count → at result k ≡ rotate_left w32 (at x k) shift };

    /// Four words of each buffer, from byte `offset` on: one vector for each of the four places.
    fn four_words(buffers: &[&[u8]], offset: usize) -> HashState<Self>
        requires { Have count (offset + 16) buffers.now }
        // The lanes of `a`, `b`, `c` and `d` are the first to the fourth of these words.
        ensures { AreFourWords count at buffers.now offset result };

    /// The word in lane k.
    fn word(self, k: usize) -> u32
        requires { k < count }
        ensures { result ≡ at self k };
}

#[tactic(auto, using(crate::proofs::LaneLaws::lanes))]
impl<const N: usize> Lanes for Simd<u32, N> {
    ghost count = { N };

    ghost at = { slice_index };

    #[inline(always)]
    fn f(x: Self, y: Self, z: Self) -> Self {
        (x & y) | (!x & z)
    }

    #[inline(always)]
    fn plus_g(sum: Self, x: Self, y: Self, z: Self) -> Self {
        sum + (y & !z) + (x & z)
    }

    #[inline(always)]
    fn h(x: Self, y: Self, z: Self) -> Self {
        x ^ y ^ z
    }

    #[inline(always)]
    fn plus_one_and_i(sum: Self, x: Self, y: Self, z: Self) -> Self {
        sum - (y ^ (!x & z))
    }

    #[inline(always)]
    fn plus(x: Self, y: Self) -> Self {
        x + y
    }

    #[inline(always)]
    fn splat(x: u32) -> Self {
        Simd::splat(x)
    }

    #[inline(always)]
    fn rotated(x: Self, shift: u32) -> Self {
        let left = shift % 32;
        (x << Simd::splat(left)) | (x >> Simd::splat((32 - left) % 32))
    }

    #[inline(always)]
    fn four_words(buffers: &[&[u8]], offset: usize) -> HashState<Self> {
        if N == 8 {
            let HashState { a, b, c, d } = words_of_eight(buffers, offset);
            state_of(with_lanes(a), with_lanes(b), with_lanes(c), with_lanes(d))
        } else if N == 4 {
            let HashState { a, b, c, d } = words_of_four(buffers, offset);
            state_of(with_lanes(a), with_lanes(b), with_lanes(c), with_lanes(d))
        } else {
            state_of(
                gathered_words(buffers, offset),
                gathered_words(buffers, offset + 4),
                gathered_words(buffers, offset + 8),
                gathered_words(buffers, offset + 12),
            )
        }
    }

    #[inline(always)]
    fn word(self, k: usize) -> u32 {
        self[k]
    }
}

// The first two words of each half of two vectors, alternating; and the last two.
const LOW_WORDS: [usize; 8] = [0, 8, 1, 9, 4, 12, 5, 13];

const HIGH_WORDS: [usize; 8] = [2, 10, 3, 11, 6, 14, 7, 15];

// The little-endian word at byte `at`.
#[inline(always)]
fn word(bytes: &[u8], at: usize) -> u32
    requires { at + 4 ≤ length bytes.now }
    ensures { result ≡ word_at bytes.now at }
{
    u32::from_le_bytes([bytes[at], bytes[at + 1], bytes[at + 2], bytes[at + 3]])
}

// The word at byte `offset` of each of the first N buffers, read one by one: for other N than four and eight.
#[inline(always)]
#[tactic(auto, using(crate::proofs::LaneLaws::writes, crate::proofs::LaneLaws::bytes_here))]
fn gathered_words<const N: usize>(buffers: &[&[u8]], offset: usize) -> Simd<u32, N>
    requires { Have N (offset + 4) buffers.now }
    ensures { (k : ℕ) → k < N → slice_index result k ≡ word_at (buffer_at buffers.now k) offset }
{
    let mut words = [0; N];
    for k in 0..N {
        words[k] = word(buffers[k], offset);
    }
    Simd::from_array(words)
}

// The four words of a buffer from byte `offset` on.
#[inline(always)]
fn words_of_one(bytes: &[u8], offset: usize) -> u32x4
    requires { offset + 16 ≤ length bytes.now }
    ensures { result ≡ four_words_at bytes.now offset }
{
    u32x4::from_le_bytes(u8x16::from_slice(&bytes[offset..]))
}

// The four words of buffer k from byte `offset` on.
#[inline(always)]
fn row(buffers: &[&[u8]], k: usize, offset: usize) -> u32x4
    requires place { k < length buffers.now }
    requires within { offset + 16 ≤ length (buffer_at buffers.now k) }
    ensures { result ≡ four_words_at (buffer_at buffers.now k) offset }
{
    words_of_one(buffers[k], offset)
}

/// The state of these four vectors.
// The front end cannot construct a struct of vectors whose number of lanes is a
// parameter, so a generic function does.
#[inline(always)]
pub(crate) fn state_of<V: Copy>(a: V, b: V, c: V, d: V) -> HashState<V>
    ensures { result ≡ record { a = a; b = b; c = c; d = d } }
{
    HashState { a, b, c, d }
}

// The four words from byte `offset` on of each of four buffers: their rows, transposed.
#[inline(always)]
fn words_of_four(buffers: &[&[u8]], offset: usize) -> HashState<u32x4>
    requires { Have 4 (offset + 16) buffers.now }
    ensures { AreFourWords 4 slice_index buffers.now offset result }
{
    let (even_low, even_high) = row(buffers, 0, offset).interleave(row(buffers, 2, offset));
    let (odd_low, odd_high) = row(buffers, 1, offset).interleave(row(buffers, 3, offset));
    let (a, b) = even_low.interleave(odd_low);
    let (c, d) = even_high.interleave(odd_high);
    HashState { a, b, c, d }
}

// The four words of buffer k from byte `offset` on, followed by those of buffer k + 4: a step of `words_of_eight`.
#[inline(always)]
fn pair(buffers: &[&[u8]], k: usize, offset: usize) -> u32x8
    requires place { k < 4 }
    requires rows { Have 8 (offset + 16) buffers.now }
    ensures { result ≡ four_words_at (buffer_at buffers.now k) offset
        ++ four_words_at (buffer_at buffers.now (k + 4)) offset }
{
    row(buffers, k, offset).shuffle(row(buffers, k + 4, offset), [0, 1, 2, 3, 4, 5, 6, 7])
}

// The four words from byte `offset` on of each of eight buffers. Rows are shuffled in pairs, each half by itself, which
// AVX2 does in one instruction.
#[inline(always)]
fn words_of_eight(buffers: &[&[u8]], offset: usize) -> HashState<u32x8>
    requires { Have 8 (offset + 16) buffers.now }
    ensures { AreFourWords 8 slice_index buffers.now offset result }
{
    let (a, b) = (pair(buffers, 0, offset), pair(buffers, 1, offset));
    let (c, d) = (pair(buffers, 2, offset), pair(buffers, 3, offset));
    let (even_low, even_high) = (a.shuffle(c, LOW_WORDS), a.shuffle(c, HIGH_WORDS));
    let (odd_low, odd_high) = (b.shuffle(d, LOW_WORDS), b.shuffle(d, HIGH_WORDS));
    HashState {
        a: even_low.shuffle(odd_low, LOW_WORDS),
        b: even_low.shuffle(odd_low, HIGH_WORDS),
        c: even_high.shuffle(odd_high, LOW_WORDS),
        d: even_high.shuffle(odd_high, HIGH_WORDS),
    }
}

// The same vector, with the type of one of N lanes. The caller has tested that M and N are equal, which the type checker
// can't see.
#[inline(always)]
fn with_lanes<const M: usize, const N: usize>(vector: Simd<u32, M>) -> Simd<u32, N>
    requires { M ≡ N }
    ensures { result ≡ vector.entry }
{
    Simd::from_slice(&vector.to_array())
}

// The table T (RFC 1321, 3.4).
const CONSTANTS: [u32; 64] = [
    0xd76aa478, 0xe8c7b756, 0x242070db, 0xc1bdceee, 0xf57c0faf, 0x4787c62a, 0xa8304613, 0xfd469501,
    0x698098d8, 0x8b44f7af, 0xffff5bb1, 0x895cd7be, 0x6b901122, 0xfd987193, 0xa679438e, 0x49b40821,
    0xf61e2562, 0xc040b340, 0x265e5a51, 0xe9b6c7aa, 0xd62f105d, 0x02441453, 0xd8a1e681, 0xe7d3fbc8,
    0x21e1cde6, 0xc33707d6, 0xf4d50d87, 0x455a14ed, 0xa9e3e905, 0xfcefa3f8, 0x676f02d9, 0x8d2a4c8a,
    0xfffa3942, 0x8771f681, 0x6d9d6122, 0xfde5380c, 0xa4beea44, 0x4bdecfa9, 0xf6bb4b60, 0xbebfbc70,
    0x289b7ec6, 0xeaa127fa, 0xd4ef3085, 0x04881d05, 0xd9d4d039, 0xe6db99e5, 0x1fa27cf8, 0xc4ac5665,
    0xf4292244, 0x432aff97, 0xab9423a7, 0xfc93a039, 0x655b59c3, 0x8f0ccc92, 0xffeff47d, 0x85845dd1,
    0x6fa87e4f, 0xfe2ce6e0, 0xa3014314, 0x4e0811a1, 0xf7537e82, 0xbd3af235, 0x2ad7d2bb, 0xeb86d391,
];

// The shift of each step (RFC 1321, 3.4).
const SHIFTS: [u32; 64] = [
    7, 12, 17, 22, 7, 12, 17, 22, 7, 12, 17, 22, 7, 12, 17, 22, 5, 9, 14, 20, 5, 9, 14, 20, 5, 9,
    14, 20, 5, 9, 14, 20, 4, 11, 16, 23, 4, 11, 16, 23, 4, 11, 16, 23, 4, 11, 16, 23, 6, 10, 15,
    21, 6, 10, 15, 21, 6, 10, 15, 21, 6, 10, 15, 21,
];

/// The variables A, B, C and D of several messages, or four words of each.
#[derive(Clone, Copy)]
pub(crate) struct HashState<V> {
    pub(crate) a: V,
    pub(crate) b: V,
    pub(crate) c: V,
    pub(crate) d: V,
}

/// The sixteen words of a block of each message.
pub(crate) type Words<V> = [V; 16];

/// The hash value of message k: lane k of the variables A, B, C and D. `V.at` is the word in a lane.
pub(crate) fn in_lane<V: Lanes>(state: &HashState<V>, k: usize) -> [u32; 4]
    requires { k < V.count }
    ensures { result ≡ lane V.at k state.now }
{
    let HashState { a, b, c, d } = *state;
    [a.word(k), b.word(k), c.word(k), d.word(k)]
}

// The part of a step's sum that does not depend on the step before: A, the word and the entry of the table T.
#[inline(always)]
fn early_sum<V: Lanes>(a: V, word: V, entry: u32) -> V
    ensures { (k : ℕ) → k < V.count → V.at result k ≡ add32 (add32 (V.at a k) (V.at word k)) entry }
{
    V::plus(V::plus(a, word), V::splat(entry))
}

// The variables after step `t`. `sum` is A + word + constant + round function, before the rotation.
#[inline(always)]
fn next_state<V: Lanes>(state: HashState<V>, sum: V, t: usize) -> HashState<V>
    requires { t < 64 }
    ensures { (k : ℕ) (f word : ℕ) → k < V.count
        → V.at sum k ≡ add32 (add32 (add32 (V.at state.a k) word) (slice_index step_constants t)) f
        → lane V.at k result ≡ round
        (lane V.at k state) f (slice_index step_constants t) word (slice_index step_shifts t) }
{
    let next = V::plus(state.b, V::rotated(sum, SHIFTS[t]));
    state_of(state.d, next, state.b, state.c)
}

// Step `t` of a block, counted from 0. The round, t / 16, decides the function and the order of the words. `Advances`:
// if the steps before `t` of a block of these words are done, so are those before `t + 1` afterwards.
#[inline(always)]
fn step<V: Lanes>(state: HashState<V>, words: &Words<V>, t: usize) -> HashState<V>
    requires { t < 64 }
    ensures { Advances V.count V.at words.now t state (t + 1) result }
{
    let HashState { a, b, c, d } = state;
    let constant = CONSTANTS[t];
    let sum = match t / 16 {
        0 => V::plus(early_sum(a, words[t], constant), V::f(b, c, d)),
        1 => V::plus_g(early_sum(a, words[(5 * t + 1) % 16], constant), b, c, d),
        2 => V::plus(
            early_sum(a, words[(3 * t + 5) % 16], constant),
            V::h(b, c, d),
        ),
        _ => {
            let sum = early_sum(a, words[7 * t % 16], constant.wrapping_sub(1));
            V::plus_one_and_i(sum, b, c, d)
        }
    };
    next_state(state, sum, t)
}

// The four steps of a block from step `t` on.
#[inline(always)]
fn four_steps<V: Lanes>(state: HashState<V>, words: &Words<V>, t: usize) -> HashState<V>
    requires { t + 3 < 64 }
    ensures { Advances V.count V.at words.now t state (t + 4) result }
{
    let state = step(state, words, t);
    let state = step(state, words, t + 1);
    let state = step(state, words, t + 2);
    step(state, words, t + 3)
}

// Adds the variables from before the block, `state`, to those after its steps: the hash values after the block.
#[inline(always)]
fn sums<V: Lanes>(state: HashState<V>, after: HashState<V>) -> HashState<V>
    ensures { (k : ℕ) → k < V.count
        → lane V.at k result ≡ add_state (lane V.at k state) (lane V.at k after) }
{
    let a = V::plus(state.a, after.a);
    let b = V::plus(state.b, after.b);
    let c = V::plus(state.c, after.c);
    let d = V::plus(state.d, after.d);
    HashState { a, b, c, d }
}

// A round is a function of its own, because LLVM takes five times as long for twice the steps. It inlines such a function
// afterwards, since it is called once.

// The sixteen steps of a round (RFC 1321, 3.4), from step `FROM` on.
fn one_round<V: Lanes, const FROM: usize>(state: HashState<V>, words: &Words<V>) -> HashState<V>
    requires { FROM ≤ 48 }
    ensures { Advances V.count V.at words.now FROM state (FROM + 16) result }
{
    let state = four_steps(state, words, FROM);
    let state = four_steps(state, words, FROM + 4);
    let state = four_steps(state, words, FROM + 8);
    four_steps(state, words, FROM + 12)
}

// The sixteen steps of a round for two groups, which alternate every four steps: a group's variables then mostly stay in
// registers, even where there are few, and the steps of the other group are close enough to be executed out of order.
fn one_round_of_both<V: Lanes, const FROM: usize>(
    low: HashState<V>,
    low_words: &Words<V>,
    high: HashState<V>,
    high_words: &Words<V>,
) -> (HashState<V>, HashState<V>)
    requires { FROM ≤ 48 }
    ensures low { Advances V.count V.at low_words.now FROM low (FROM + 16) result.0 }
    ensures high { Advances V.count V.at high_words.now FROM high (FROM + 16) result.1 }
{
    let low = four_steps(low, low_words, FROM);
    let high = four_steps(high, high_words, FROM);
    let low = four_steps(low, low_words, FROM + 4);
    let high = four_steps(high, high_words, FROM + 4);
    let low = four_steps(low, low_words, FROM + 8);
    let high = four_steps(high, high_words, FROM + 8);
    let low = four_steps(low, low_words, FROM + 12);
    (low, four_steps(high, high_words, FROM + 12))
}

/// The hash values after one more block of each message, which has these words.
#[inline(always)]
pub(crate) fn compressed<V: Lanes>(state: HashState<V>, words: &Words<V>) -> HashState<V>
    ensures { HaveHashesAfter V.count V.at state words.now result }
{
    let after = one_round::<V, 0>(state, words);
    let after = one_round::<V, 16>(after, words);
    let after = one_round::<V, 32>(after, words);
    let after = one_round::<V, 48>(after, words);
    sums(state, after)
}

/// The hash values of two groups after one more block. Their steps alternate.
#[inline(always)]
pub(crate) fn both_compressed<V: Lanes>(
    low: HashState<V>,
    low_words: &Words<V>,
    high: HashState<V>,
    high_words: &Words<V>,
) -> (HashState<V>, HashState<V>)
    ensures low { HaveHashesAfter V.count V.at low low_words.now result.0 }
    ensures high { HaveHashesAfter V.count V.at high high_words.now result.1 }
{
    let (a, b) = one_round_of_both::<V, 0>(low, low_words, high, high_words);
    let (a, b) = one_round_of_both::<V, 16>(a, low_words, b, high_words);
    let (a, b) = one_round_of_both::<V, 32>(a, low_words, b, high_words);
    let (a, b) = one_round_of_both::<V, 48>(a, low_words, b, high_words);
    (sums(low, a), sums(high, b))
}

// The sixteen words of the block that begins at byte `offset` of each buffer: lane k has those of buffer k.
#[inline(always)]
fn read_words<V: Lanes>(buffers: &[&[u8]], offset: usize) -> Words<V>
    requires { Have V.count (offset + 64) buffers.now }
    ensures { (k : ℕ) → k < V.count → lane_words V.at k result
        ≡ block_words (take 64 (drop offset (buffer_at buffers.now k))) 16 }
{
    let first = V::four_words(buffers, offset);
    let second = V::four_words(buffers, offset + 16);
    let third = V::four_words(buffers, offset + 32);
    let fourth = V::four_words(buffers, offset + 48);
    [
        first.a, first.b, first.c, first.d, second.a, second.b, second.c, second.d, third.a,
        third.b, third.c, third.d, fourth.a, fourth.b, fourth.c, fourth.d,
    ]
}

/// The hash values of several messages, whose blocks are absorbed side by side.
pub(crate) trait Hashes: Copy {
    // The number of messages.
    ghost count: { ℕ };

    // The hash value of one message.
    ghost at: { ℕ → Self → List ℕ };

    /// The hash values, one for each message.
    fn from_hashes(hashes: &[[u32; 4]]) -> Self
        requires { count ≤ length hashes.now }
        ensures { (k : ℕ) → k < count → at k result ≡ digest_at hashes.now k };

    /// The hash values after the first `blocks` blocks of each buffer. `hash_behind`: the hash value after some blocks.
    fn absorbed(self, buffers: &[&[u8]], blocks: usize) -> Self
        requires { Have count (blocks * 64) buffers.now }
        ensures { (k : ℕ)
            → k < count → at k result ≡ hash_behind (at k self) (buffer_at buffers.now k) blocks };

    /// The hash value of message k.
    fn in_lane(&self, k: usize) -> [u32; 4]
        requires { k < count }
        ensures { result ≡ at k self.now };
}

// Word `i` of each hash value.
#[tactic(auto, using(crate::proofs::LaneLaws::writes))]
fn word_of_each<const N: usize>(hashes: &[[u32; 4]], i: usize) -> Simd<u32, N>
    requires word { i < 4 }
    requires count { N ≤ length hashes.now }
    ensures { (k : ℕ) → k < N → slice_index result k ≡ slice_index (digest_at hashes.now k) i }
{
    let mut words = [0; N];
    for k in 0..N {
        words[k] = hashes[k][i];
    }
    Simd::from_array(words)
}

impl<const N: usize> Hashes for HashState<Simd<u32, N>> {
    ghost count = { N };

    ghost at = { lane slice_index };

    fn from_hashes(hashes: &[[u32; 4]]) -> Self {
        state_of(
            word_of_each(hashes, 0),
            word_of_each(hashes, 1),
            word_of_each(hashes, 2),
            word_of_each(hashes, 3),
        )
    }

    fn absorbed(self, buffers: &[&[u8]], blocks: usize) -> Self {
        let mut after = self;
        for block in 0..blocks {
            after = compressed(after, &read_words(buffers, 64 * block));
        }
        after
    }

    fn in_lane(&self, k: usize) -> [u32; 4] {
        in_lane(self, k)
    }
}

/// The hash values of sixteen messages, in two groups of eight.
pub(crate) type Sixteen = (HashState<u32x8>, HashState<u32x8>);

impl Hashes for Sixteen {
    ghost count = { 16 };

    ghost at = { hash_of_sixteen };

    fn from_hashes(hashes: &[[u32; 4]]) -> Self {
        let low = HashState::from_hashes(&hashes[..8]);
        (low, HashState::from_hashes(&hashes[8..]))
    }

    // The steps of the two groups alternate, so that one group is computed while the other waits for results.
    fn absorbed(self, buffers: &[&[u8]], blocks: usize) -> Self {
        let mut after = self;
        for block in 0..blocks {
            let low = read_words(&buffers[..8], 64 * block);
            let high = read_words(&buffers[8..], 64 * block);
            after = both_compressed(after.0, &low, after.1, &high);
        }
        after
    }

    fn in_lane(&self, k: usize) -> [u32; 4] {
        if k < 8 {
            self.0.in_lane(k)
        } else {
            self.1.in_lane(k - 8)
        }
    }
}

/// The hash value after the whole blocks that the feed has left, for one message by itself. `hash` is the value before
/// them, and `block` begins afterwards with the bytes after them.
pub(crate) fn hashed(hash: [u32; 4], mut feed: Feed, block: &mut [u8; 64]) -> [u32; 4]
    ensures hash { let m = bytes_left feed.entry in result ≡ hash_behind hash m (length m / 64) }
    ensures rest { take (length (bytes_left feed.entry) % 64) block.new
        ≡ drop (length (bytes_left feed.entry) / 64 * 64) (bytes_left feed.entry) }
{
    let mut state: HashState<Simd<u32, 1>> = HashState::from_hashes(&[hash]);
    while feed.fill(block) == 64 {
        state = state.absorbed(&[&block[..]], 1);
    }
    state.in_lane(0)
}

/// The bytes that are left of a list of parts.
#[derive(Clone, Copy, Drop)]
pub(crate) struct Feed<'a> {
    part: Part<'a>,
    // The number of bytes of `part` that are taken.
    at: usize,
    // The parts after it.
    parts: &'a [Part<'a>],
}

// The bytes from `at` on; none past the end.
fn behind(bytes: &[u8], at: usize) -> &[u8]
    ensures value { result.now ≡ drop at bytes.now }
    ensures fits { at + length result.now < 2 ^ 64 }
{
    &bytes[at.min(bytes.len())..]
}

// Copies as many of the bytes as the block has room for after its first `from` bytes, and returns their number.
fn copy_into(block: &mut [u8], from: usize, bytes: &[u8]) -> usize
    requires { from ≤ length block.old }
    ensures count { result ≡ min (length bytes.now) (length block.old - from) }
    ensures after { take (from + result) block.new ≡ take from block.old ++ take result bytes.now }
{
    let count = bytes.len().min(block.len() - from);
    block[from..from + count].copy_from_slice(&bytes[..count]);
    count
}

impl<'a> Feed<'a> {
    /// A feed of the bytes, followed by the parts. `bytes_left`: all bytes that the feed has still to give.
    pub(crate) fn new(bytes: &'a [u8], parts: &'a [Part<'a>]) -> Feed<'a>
        ensures { bytes_left result ≡ bytes.now ++ message_of parts.now }
    {
        let part = Part::Bytes(bytes);
        Feed { part, at: 0, parts }
    }

    // Copies as much of the current part as the block has room for after its first `from` bytes, and returns the number
    // of bytes. It is the step of `fill`.
    fn copy_part(&mut self, block: &mut [u8], from: usize) -> usize
        requires { from ≤ length block.old }
        // As many bytes as fit and the part has left follow those in the block.
        ensures count { result ≡ min (length (at_hand self.old)) (length block.old - from) }
        ensures after { take (from + result) block.new
            ≡ take from block.old ++ take result (bytes_left self.old) }
        // The feed goes on after these bytes, in the same part.
        ensures rest { bytes_left self.new ≡ drop result (bytes_left self.old) }
        ensures part { at_hand self.new ≡ drop result (at_hand self.old) }
        ensures parts { length self.new.parts.now ≡ length self.old.parts.now }
    {
        let count = match self.part {
            Part::Length(length) => copy_into(block, from, behind(&length.to_le_bytes(), self.at)),
            Part::Bytes(bytes) => copy_into(block, from, behind(bytes, self.at)),
        };
        self.at += count;
        count
    }

    // Moves on to the next part, or returns false if there is none.
    fn next_part(&mut self) -> bool
        requires { at_hand self.old ≡ [] }
        ensures same { bytes_left self.new ≡ bytes_left self.old }
        ensures end { result ≡ false → bytes_left self.old ≡ [] }
        ensures fewer { result ≡ true → length self.new.parts.now < length self.old.parts.now }
    {
        let [first, others @ ..] = self.parts else {
            return false;
        };
        self.part = *first;
        self.at = 0;
        self.parts = others;
        true
    }

    /// The number of whole blocks, of 64 bytes, that are left in the current part. A length is never read as a block.
    pub(crate) fn blocks_at_hand(&self) -> usize
        ensures blocks { result * 64 ≤ length (at_hand self.now) }
        ensures room { result * 64 < 2 ^ 64 }
    {
        match self.part {
            Part::Length(_) => 0,
            Part::Bytes(bytes) => behind(bytes, self.at).len() / 64,
        }
    }

    /// Takes the next `count` blocks, which lie in the current part, without a copy.
    pub(crate) fn take_at_hand(&mut self, count: usize) -> &'a [u8]
        requires { count * 64 ≤ length (at_hand self.old) }
        ensures bytes { result.now ≡ take (count * 64) (bytes_left self.old) }
        ensures rest { bytes_left self.new ≡ drop (count * 64) (bytes_left self.old) }
    {
        let blocks = match self.part {
            Part::Length(_) => &[],
            Part::Bytes(bytes) => &behind(bytes, self.at)[..64 * count],
        };
        self.at += blocks.len();
        blocks
    }

    /// Fills the blocks with copies of the next bytes, and returns their number: fewer than fit only if no more are
    /// left.
    pub(crate) fn fill(&mut self, blocks: &mut [u8]) -> usize
        ensures count { result ≡ min (length blocks.old) (length (bytes_left self.old)) }
        ensures bytes { take result blocks.new ≡ take result (bytes_left self.old) }
        ensures rest { bytes_left self.new ≡ drop result (bytes_left self.old) }
    {
        let mut filled = self.copy_part(blocks, 0);
        while filled < blocks.len() && self.next_part() {
            filled += self.copy_part(blocks, filled);
        }
        filled
    }
}
