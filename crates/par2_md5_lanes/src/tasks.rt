//! Messages that are absorbed side by side until each has its last hash value. `finish_all` finishes one message after
//! the other: `go_on` absorbs blocks of all messages while this one and a later one have not ended, and `finish`
//! absorbs the rest of this one alone.
//!
//! `absorb_each` makes such a task of each state and its parts, and `buffer_digests` computes the digests of any number
//! of buffers, up to sixteen side by side.

ghost use Rattle.std.specs.Prelude.{◌≡◌, ◌≤◌, ◌<◌, ◌*◌, ◌-◌, ◌^◌, ℕ, List, length, take, drop, get_or, ◌++◌, [], None, map, IfOk, OnOk};
ghost use Rattle.std.specs.List.{All};
ghost use Rattle.par2_md5_lanes.specs.Messages.{hash_behind, bytes_left, work, HasBlocks, HasEnded, AllProgress, Progresses, EndsIn, HasTaken, buffer_at, buffers_of, digest_at, HasAbsorbed, message_of, bytes_to_absorb, Absorb, IsBegun, TakeAll, Have, HaveLanes};
ghost use Rattle.par2_md5_lanes.specs.declared.tasks.LaneTask.{LaneTask};
ghost use Rattle.md5.specs.Md5.{md5};
ghost use Rattle.par2_md5_lanes.specs.declared.midstate.Midstate.{Midstate};
ghost use Rattle.par2_md5_lanes.specs.declared.tasks.Pending.{Pending};

use crate::blocks::{Feed, HashState, Hashes, Sixteen, hashed};
use crate::midstate::{Midstate, Part, length_of};
use crate::{LANES, as_buffers};
use std::alloc::{AllocError, Global};
use std::array;
use std::simd::prelude::*;

// At least as many blocks as any message has.
const MOST_BLOCKS: usize = usize::MAX / 64;

/// A message in a lane: the bytes that are left of it, or the hash value after its whole blocks.
#[derive(Clone, Copy, Drop)]
pub(crate) struct LaneTask<'a> {
    pub(crate) feed: Feed<'a>,
    pub(crate) hash: Option<[u32; 4]>,
    // Begins with the bytes after the whole blocks, once `hash` is set.
    pub(crate) rest: [u8; 64],
}

impl<'a> LaneTask<'a> {
    // Takes `count` blocks without a copy, or returns `others` as blocks for the idle lane if the message has ended.
    fn take(&mut self, count: usize, others: &'a [u8]) -> &'a [u8]
        requires some { 0 < count }
        requires blocks { HasBlocks self.old count }
        requires others { count * 64 ≤ length others.now }
        ensures room { count * 64 ≤ length result.now }
        ensures progress { (hash : List ℕ)
            → Progresses self.old self.new hash (hash_behind hash result.now count) 1 }
    {
        match self.hash {
            Some(_) => others,
            None => self.feed.take_at_hand(count),
        }
    }

    // Copies the next block of message k into `block`, or sets `hash` to the message's hash value in `state` if no
    // whole block is left.
    fn advance<H: Hashes>(&mut self, block: &mut [u8; 64], state: &H, k: usize)
        requires { k < H.count }
        ensures { let hash = H.at k state.now in
            Progresses self.old self.new hash (hash_behind hash block.new 1) 1 }
    {
        let None = self.hash else {
            return;
        };
        let count = self.feed.fill(block);
        if count < 64 {
            self.rest[..count].copy_from_slice(&block[..count]);
            self.hash = Some(state.in_lane(k));
        }
    }

    // Absorbs all blocks that are left, by itself. `hash` is the message's hash value so far.
    fn finish(&mut self, hash: [u32; 4])
        ensures progress { Progresses self.old self.new hash hash 0 }
        ensures done { work self.new ≡ 0 }
    {
        let None = self.hash else {
            return;
        };
        self.hash = Some(hashed(hash, self.feed, &mut self.rest));
    }
}

// The number of blocks that can be taken of each message without a copy: the least of the feeds' numbers. A message
// that has ended doesn't limit it.
fn batch_of(tasks: &[LaneTask]) -> usize
    ensures blocks { All (λ task. HasBlocks task result) tasks.now }
    ensures room { result * 64 < 2 ^ 64 }
{
    let mut count = MOST_BLOCKS;
    for task in tasks {
        if task.hash.is_none() {
            count = count.min(task.feed.blocks_at_hand());
        }
    }
    count
}

// Takes `batch` blocks of each message without a copy. Other lanes get those of message `unfinished`, which has not
// ended.
fn take_all<'a>(tasks: &mut [LaneTask<'a>], batch: usize, unfinished: usize) -> [&'a [u8]; LANES]
    // Each message has this many blocks, and `unfinished` is one that has not ended.
    requires some { 0 < batch }
    requires few { length tasks.old ≤ 16 }
    requires blocks { All (λ task. HasBlocks task batch) tasks.old }
    requires within { unfinished < length tasks.old }
    requires left { 0 < get_or (map work tasks.old) unfinished 0 }
    // Each message ends in the same hash value as before, once its lane has absorbed these blocks.
    ensures progress { (hash : ℕ → List ℕ) → AllProgress tasks.old tasks.new
        hash (λ k. hash_behind (hash k) (buffer_at result k) batch) 1 }
    // All sixteen lanes have blocks to absorb.
    ensures room { Have 16 (batch * 64) result }
{
    let mut ahead = tasks[unfinished].feed;
    let others = ahead.take_at_hand(batch);
    let mut buffers = [others; LANES];
    for (k, task) in tasks.iter_mut().enumerate() {
        buffers[k] = task.take(batch, others);
    }
    buffers
}

// Copies the next block of each message, or sets the hash value after its last one.
fn advance_all<H: Hashes>(tasks: &mut [LaneTask], blocks: &mut [[u8; 64]; LANES], state: &H)
    requires { HaveLanes (length tasks.old) H.count }
    ensures { AllProgress tasks.old tasks.new (λ k. H.at k state.now)
        (λ k. hash_behind (H.at k state.now) (digest_at blocks.new k) 1) 1 }
{
    for (k, task) in tasks.iter_mut().enumerate() {
        task.advance(&mut blocks[k], state, k);
    }
}

// Absorbs as many blocks at a time as all messages have without a copy, or else a copied block of each, until message k
// or all messages after it have ended.
fn go_on<H: Hashes>(tasks: &mut [LaneTask], mut state: H, k: usize) -> H
    // Message k is one of the messages in lanes.
    requires lanes { HaveLanes (length tasks.old) H.count }
    requires within { k < length tasks.old }
    // From the new hash values, each message ends as it would have from the old ones.
    ensures { AllProgress tasks.old tasks.new (λ k. H.at k state) (λ k. H.at k result) 0 }
{
    let mut blocks = [[0; 64]; LANES];
    while tasks[k].hash.is_none() && tasks[k + 1..].iter().any(|task| task.hash.is_none()) {
        let batch = batch_of(tasks);
        if batch > 0 {
            let buffers = take_all(tasks, batch, k);
            state = state.absorbed(&buffers, batch);
        } else {
            advance_all(tasks, &mut blocks, &state);
            state = state.absorbed(&as_buffers(&blocks), 1);
        }
    }
    state
}

/// Absorbs all blocks of the messages, after `state`. The blocks of a message go beside others while there are any. The
/// rest goes by itself, which is faster than with all lanes.
#[tactic(auto, using(crate::proofs::LaneLaws::writes))]
pub(crate) fn finish_all<H: Hashes>(tasks: &mut [LaneTask], mut state: H)
    requires { HaveLanes (length tasks.old) H.count }
    ensures { (k : ℕ) (none : LaneTask) (last rest : List ℕ) → k < length tasks.old
        → EndsIn (get_or tasks.old k none) (H.at k state) last rest
        → HasEnded (get_or tasks.new k none) last rest }
{
    for k in 0..tasks.len() {
        state = go_on(tasks, state, k);
        tasks[k].finish(state.in_lane(k));
    }
}

/// A state, and the parts that it absorbs next.
#[derive(Drop)]
pub struct Pending<'a> {
    pub state: Midstate,
    pub parts: Vec<Part<'a>>,
}

// The hash values of the states before their parts, that of state k in lane k. Other lanes have no meaning.
#[tactic(auto, using(crate::proofs::LaneLaws::writes))]
fn hashes_of<H: Hashes>(pendings: &[Pending]) -> H
    requires { HaveLanes (length pendings.now) H.count }
    ensures { (k : ℕ) (none : Pending) → k < length pendings.now
        → H.at k result ≡ (get_or pendings.now k none).state.hash }
{
    let mut hashes = [[0; 4]; LANES];
    for (k, pending) in pendings.iter().enumerate() {
        hashes[k] = pending.state.hash;
    }
    H::from_hashes(&hashes)
}

// The task of lane k: to absorb the bytes after the whole blocks of state k, and then its parts. A lane without a state
// has no bytes to absorb.
fn task<'a>(pendings: &'a [Pending<'a>], k: usize) -> LaneTask<'a>
    ensures open { result.hash ≡ None }
    ensures bytes { (none : Pending) → k < length pendings.now
        → bytes_left result.feed ≡ bytes_to_absorb (get_or pendings.now k none) }
{
    let feed = match pendings.get(k) {
        Some(Pending { state, parts }) => {
            Feed::new(&state.rest[..(state.length % 64) as usize], parts)
        }
        None => Feed::new(&[], &[]),
    };
    let (hash, rest) = (None, [0; 64]);
    LaneTask { feed, hash, rest }
}

// The task of each lane. `IsBegun`: the task has not ended and has all these bytes left.
fn tasks_of<'a>(pendings: &'a [Pending<'a>]) -> [LaneTask<'a>; LANES]
    ensures count { length result ≡ 16 }
    ensures begun { (k : ℕ) (no_task : LaneTask) (none : Pending)
        → k < 16 → k < length pendings.now
        → IsBegun (get_or pendings.now k none) (get_or result k no_task) }
{
    array::from_fn(|k| task(pendings, k))
}

// The state after `pending` has absorbed its parts, from its task, which has ended (`HasTaken`).
fn state_behind(pending: &Pending, task: &LaneTask) -> Midstate
    ensures { (m : List ℕ) → HasAbsorbed pending.now.state m
        → let message = m ++ message_of pending.now.parts.items in
        HasTaken task.now message → HasAbsorbed result message }
{
    let hash = task.hash.unwrap_or(pending.state.hash);
    let rest = task.rest;
    let length = pending.state.length.wrapping_add(length_of(&pending.parts));
    Midstate { hash, rest, length }
}

// Each state after ("behind") the parts of its message, computed in as many lanes as `H` has.
fn states_behind<'a, H: Hashes>(pendings: &'a [Pending<'a>]) -> [Midstate; LANES]
    requires { HaveLanes (length pendings.now) H.count }
    ensures { Absorb pendings.now result }
{
    let hashes: H = hashes_of(pendings);
    let mut tasks = tasks_of(pendings);
    let tasks = &mut tasks[..pendings.len()];
    finish_all(tasks, hashes);
    let mut states = [Midstate::new(); LANES];
    for (k, pending) in pendings.iter().enumerate() {
        states[k] = state_behind(pending, &tasks[k]);
    }
    states
}

/// Each state after it has absorbed its parts. There are sixteen at most, and the other lanes return an initial state.
pub fn absorb_each(pendings: &[Pending]) -> [Midstate; LANES]
    requires few { length pendings.now ≤ 16 }
    ensures { Absorb pendings.now result }
{
    // Reborrowed, so that the slice and the bytes of its parts have one lifetime.
    let all = &pendings[..];
    match all.len() {
        0..=1 => states_behind::<HashState<Simd<u32, 1>>>(all),
        2..=4 => states_behind::<HashState<u32x4>>(all),
        5..=8 => states_behind::<HashState<u32x8>>(all),
        _ => states_behind::<Sixteen>(all),
    }
}

// For each buffer an initial state with the buffer as its only part.
fn pendings_of<'a>(alloc: Global, buffers: &[&'a [u8]]) -> Result<Vec<Pending<'a>>, AllocError>
    ensures count { IfOk result (λ pendings. length pendings.items ≡ length buffers.now) }
    ensures each { IfOk result (λ pendings. TakeAll pendings.items (buffer_at buffers.now)) }
{
    let mut pendings = Vec::with_capacity(alloc, buffers.len())?;
    for bytes in buffers {
        let parts = Vec::from_slice(alloc, &[Part::Bytes(bytes)])?;
        let state = Midstate::new();
        pendings.push(Pending { state, parts })?;
    }
    Ok(pendings)
}

// Appends the digests of at most sixteen buffers to `all`: the step of `buffer_digests`. Each padding is absorbed by
// itself, a block or two.
fn push_digests(alloc: Global, all: &mut Vec<[u8; 16]>, buffers: &[&[u8]]) -> Result<(), AllocError>
    requires { length buffers.now ≤ 16 }
    ensures { OnOk result (all.new.items ≡ all.old.items ++ map md5 (buffers_of buffers.now)) }
{
    let pendings = pendings_of(alloc, buffers)?;
    let states = absorb_each(&pendings);
    for k in 0..buffers.len() {
        all.push(states[k].digest())?;
    }
    Ok(())
}

/// The MD5 digests of any number of buffers, in their order. An error is that memory ran out.
pub fn buffer_digests(alloc: Global, buffers: &[&[u8]]) -> Result<Vec<[u8; 16]>, AllocError>
    ensures { IfOk result (λ digests. digests.items ≡ map md5 (buffers_of buffers.now)) }
{
    let mut digests = Vec::with_capacity(alloc, buffers.len())?;
    for group in 0..buffers.len().div_ceil(LANES) {
        let first = group * LANES;
        let count = LANES.min(buffers.len() - first);
        push_digests(alloc, &mut digests, &buffers[first..first + count])?;
    }
    Ok(digests)
}
