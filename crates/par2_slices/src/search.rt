//! The search for slices in files by their checksums. A pair is open until it is found. `find_among` searches one
//! buffer after the other (`search_bytes`): windows of long buffers by four stretches side by side, the rest one by
//! one. A window whose CRC-32 an open pair has becomes a candidate of the batch, whose MD5s are compared later.
//! A repair takes the bytes of slices in damaged files from the windows that match them (`found_windows`).
//!
//! The CRC-32 of a window depends on that of the window before it. Four independent ones take half the time of four in
//! sequence.

ghost use Rattle.std.specs.Prelude.{None, All, option_map, ◌≡◌, ◌≤◌, ◌<◌, ◌+◌, ◌*◌, ◌⊎◌, ◌↔◌, [], ℕ, List, IfOk, IfSome, IsTrue, length, map, drop, slice_index, ◌-◌, min, take};
ghost use Rattle.std.specs.List.{count_by};
ghost use Rattle.std.specs.Option.{is_none};
ghost use Rattle.par2_spec.specs.Prelude.{Lists, crc32, first_match, found};
ghost use Rattle.par2_slices.specs.Checksums.{is_awaited, answer_at, after_slide};
ghost use Rattle.par2_slices.specs.Matching.{AreCandidateRows, IsWindow, IsAtWindow, IsSearching, IsTallied, IsWhole, candidate_at, Follow, first_position, HaveAnswers, IsWaiting, AreShort, IsWithin, padded_window, padded_windows, buffers_of, window_in, window_of, AreCrcs};
ghost use Rattle.md5.specs.Md5.{md5};
ghost use Rattle.par2_md5_lanes.specs.Messages.{digest_at};

use crate::checksum::{Pair, Rolling, crc32, padded_crc32, padded_md5, window_bytes};
use crate::wanted::{FEW, Filter, MANY, PairPlace, Wanted};
use arrayvec::ArrayVec;
use par2_md5_lanes::{LANES, window_digests};
use par2_spec::Result;
use std::alloc::Global;
use std::array;

/// A buffer that is searched for the pairs that weren't found in the buffers before it.
#[derive(Clone, Copy)]
struct Scan<'a> {
    wanted: &'a Wanted,
    /// The CRC-32s of its windows, and their size.
    rolling: &'a Rolling,
    /// The buffers before it. Their number is its index.
    earlier: &'a [&'a [u8]],
    bytes: &'a [u8],
}

impl Scan<'_> {
    /// The bytes of its window at `offset`. At the end of the buffer they may be fewer than the window's size.
    fn window(&self, offset: usize) -> &[u8]
        requires { offset ≤ length self.now.bytes.now }
        ensures { result.now ≡ take self.now.rolling.now.size (drop offset self.now.bytes.now) }
    {
        window_bytes(self.bytes, self.rolling.size(), offset)
    }

    /// Whether its window at `offset` lies in the buffer entirely.
    fn is_whole(&self, offset: usize) -> bool
        requires { offset ≤ length self.now.bytes.now }
        ensures { IsTrue result ↔ IsWhole self.now offset }
    {
        self.rolling.size() <= (self.bytes.len() - offset) as u64
    }
}

/// The windows at `at` bytes into each of four stretches, by their CRC-32s.
#[derive(Clone, Copy, Default, Drop)]
struct Row {
    at: usize,
    crcs: [u32; 4],
}

/// The CRC-32s of the first windows of four stretches of `LEN` offsets each, from offset `start` on: the first row.
fn first_crcs<const LEN: usize>(bytes: &[u8], s: u64, start: usize) -> [u32; 4]
    requires { start + 3 * LEN + s ≤ length bytes.now }
    ensures { AreCrcs s bytes.now start LEN 0 result }
{
    [
        crc32(window_bytes(bytes, s, start)),
        crc32(window_bytes(bytes, s, start + LEN)),
        crc32(window_bytes(bytes, s, start + 2 * LEN)),
        crc32(window_bytes(bytes, s, start + 3 * LEN)),
    ]
}

/// The CRC-32s of the row after this one. `outs` begins where the first stretch does, and `nexts` a window later.
// The length of a stretch is a constant, so that one register addresses the bytes of all four.
#[inline(always)]
fn next_crcs<const LEN: usize>(rolling: &Rolling, row: Row, outs: &[u8], nexts: &[u8]) -> [u32; 4]
    requires outs { 3 * LEN + row.at < length outs.now }
    requires nexts { 3 * LEN + row.at < length nexts.now }
    ensures { (k : ℕ) → k < 4 → slice_index result k ≡ after_slide rolling.now.size
        (slice_index row.crcs k)
        (slice_index outs.now (k * LEN + row.at))
        (slice_index nexts.now (k * LEN + row.at)) }
{
    let Row { at, crcs } = row;
    [
        rolling.slid(crcs[0], outs[at], nexts[at]),
        rolling.slid(crcs[1], outs[LEN + at], nexts[LEN + at]),
        rolling.slid(crcs[2], outs[2 * LEN + at], nexts[2 * LEN + at]),
        rolling.slid(crcs[3], outs[3 * LEN + at], nexts[3 * LEN + at]),
    ]
}

// How many open pairs of the group have this CRC-32. `found` has the position of each pair, None while it is open.
fn awaited(group: &[PairPlace], crc: u32, found: &[Option<Position>]) -> usize
    ensures { result ≡ count_by (is_awaited crc found.now) group.now }
{
    let awaited = group.iter().filter(|place| place.is_awaited(crc, found));
    awaited.count()
}

// Whether an open pair of the group has a CRC-32 that shares a bit of the filter with this one. Then the bit must stay.
fn is_waiting(group: &[PairPlace], crc: u32, found: &[Option<Position>], filter: &Filter) -> bool
    ensures { IsTrue result ↔ IsWaiting filter.now.shift group.now crc found.now }
{
    group.iter().any(|place| {
        filter.are_alike(crc, place.crc) && place.is_awaited(place.crc, found)
    })
}

// Records the candidate's position for each open pair that has the candidate's CRC-32 and this MD5, and counts these
// pairs. `Follow`: an open pair gets the position if it matches, and a found one keeps its own.
fn answer_pairs(
    wanted: &Wanted,
    candidate: Candidate,
    md5: &[u8; 16],
    found: &mut Vec<Option<Position>>,
) -> usize
    requires { length found.old.items ≡ length wanted.now }
    ensures each { Follow wanted.now md5.now candidate found.old.items found.new.items }
    ensures len { length found.new.items ≡ length found.old.items }
    ensures count { result + count_by is_none found.new.items ≡ count_by is_none found.old.items }
{
    let pairs = wanted.pairs();
    let mut count = 0;
    for place in wanted.group(candidate.crc) {
        if place.is_awaited(candidate.crc, found) && *md5 == pairs[place.index].0 {
            found[place.index] = Some(candidate.position);
            count += 1;
        }
    }
    count
}

// The most rows of four stretches that may hold windows looked for: twice the number of slices that the stretches
// hold.
const MOST_ROWS: usize = 512;

// A search in progress: the positions found, the number of open pairs, the filter of their checksums, and a batch of
// windows still to be compared. `awaited` counts the open pairs that have the checksums of the batch. It only decides
// when the batch is compared, which changes no result, so no clause mentions it.
#[derive(Drop)]
struct Search {
    found: Vec<Option<Position>>,
    left: usize,
    filter: Filter,
    batch: ArrayVec<Candidate, LANES>,
    awaited: usize,
}

impl Search {
    // A search before the first buffer: all pairs are open, and their CRC-32s are in the filter.
    fn new(alloc: Global, wanted: &Wanted) -> Result<Search>
        ensures tally { IfOk result (λ search. IsTallied wanted.now search) }
        ensures open { IfOk result (λ search. (i : ℕ) → answer_at search.found.items i ≡ None) }
        ensures batch { IfOk result (λ search. search.batch.items ≡ []) }
    {
        let pairs = wanted.pairs();
        let mut filter = Filter::new(alloc, pairs.len())?;
        for pair in pairs {
            filter.insert(pair.1);
        }
        Ok(Search {
            found: vec![in alloc; None; pairs.len()]?,
            left: pairs.len(),
            filter,
            batch: ArrayVec::new(),
            awaited: 0,
        })
    }

    // Records the candidate's position for the open pairs that have its CRC-32 and this MD5, and removes the CRC-32
    // from the filter if no open pair shares its bit. `IsTallied`: the count and the filter are those of the open
    // pairs.
    fn answer(&mut self, wanted: &Wanted, candidate: Candidate, md5: [u8; 16])
        requires { IsTallied wanted.now self.old }
        ensures tally { IsTallied wanted.now self.new }
        ensures each { Follow wanted.now md5 candidate self.old.found.items self.new.found.items }
        ensures batch { self.new.batch.items ≡ self.old.batch.items }
    {
        self.left -= answer_pairs(wanted, candidate, &md5, &mut self.found);
        let crc = candidate.crc;
        if !is_waiting(wanted.group(crc), crc, &self.found, &self.filter) {
            self.filter.remove(crc);
        }
    }

    // Compares the candidates of the batch with the open pairs by their MD5s, in the order of their offsets, and
    // empties it.
    fn compare_batch(&mut self, scan: &Scan)
        requires tally { IsTallied scan.now.wanted.now self.old }
        requires candidates { All (IsWindow scan.now) self.old.batch.items }
        ensures at { (o : ℕ) → IsSearching scan.now o self.old → IsSearching scan.now o self.new }
        ensures batch { self.new.batch.items ≡ [] }
    {
        if self.batch.is_empty() {
            return;
        }
        let batch = self.batch.take();
        self.awaited = 0;
        let candidates = batch.as_slice();
        let digests = batch_md5s(scan, candidates);
        for (k, &candidate) in candidates.iter().enumerate() {
            self.answer(scan.wanted, candidate, digests[k]);
        }
    }

    // Compares the batch if it is full, if it has a candidate of this CRC-32, or if the window reaches past the end of
    // the file. The first window of a CRC-32 mostly matches each open pair of it, and then the others need no MD5.
    fn make_room(&mut self, scan: &Scan, offset: usize, crc: u32)
        requires at { IsSearching scan.now offset self.old }
        requires within { offset < length scan.now.bytes.now }
        ensures at { IsSearching scan.now offset self.new }
        ensures room { length self.new.batch.items < 16 }
        ensures short { ¬ (IsWhole scan.now offset) → self.new.batch.items ≡ [] }
    {
        let batch = self.batch.as_slice();
        let is_known = batch.iter().any(|candidate| candidate.crc == crc);
        if !scan.is_whole(offset) || is_known || self.batch.is_full() {
            self.compare_batch(scan);
        }
    }

    // Adds the window at `offset`, whose CRC-32 `pairs` open pairs have, to the batch. A window that reaches past the
    // end of the file is compared at once, because the batch has whole windows only.
    fn add_candidate(&mut self, scan: &Scan, offset: usize, crc: u32, pairs: usize)
        requires window { IsAtWindow scan.now offset crc self.old }
        // The batch has room, and it is empty if the window reaches past the end.
        requires room { length self.old.batch.items < 16 }
        requires short { ¬ (IsWhole scan.now offset) → self.old.batch.items ≡ [] }
        // Afterwards this offset has been searched too.
        ensures { IsSearching scan.now (offset + 1) self.new }
    {
        let buffer = scan.earlier.len();
        let position = Position { buffer, offset };
        let candidate = Candidate { position, crc };
        if !scan.is_whole(offset) {
            let md5 = padded_md5(scan.window(offset), scan.rolling.size());
            self.answer(scan.wanted, candidate, md5);
            return;
        }
        self.batch.push(candidate);
        self.awaited = self.awaited.saturating_add(pairs);
        if self.awaited >= self.left {
            // The batch may match each open pair, and then the search can stop without filling it.
            self.compare_batch(scan);
        }
    }

    // Takes the search past `offset`: makes its window a candidate if an open pair has the CRC-32 `crc`. The caller
    // knows that the filter contains `crc`; no clause needs it. These windows are few, and the loop over all offsets is
    // faster without this code in it.
    #[cold]
    #[inline(never)]
    fn look(&mut self, scan: &Scan, offset: usize, crc: u32)
        requires { IsAtWindow scan.now offset crc self.old }
        ensures { IsSearching scan.now (offset + 1) self.new }
    {
        self.make_room(scan, offset, crc);
        let pairs = awaited(scan.wanted.group(crc), crc, &self.found);
        if pairs > 0 {
            self.add_candidate(scan, offset, crc, pairs);
        }
    }

    // Takes the search past `offset`; looks only if the filter contains `crc`. Its contract is that of `look`, because
    // a window whose CRC-32 the filter doesn't contain matches no open pair, so that nothing is to be done for it.
    fn test(&mut self, scan: &Scan, offset: usize, crc: u32)
        requires { IsAtWindow scan.now offset crc self.old }
        ensures { IsSearching scan.now (offset + 1) self.new }
    {
        if self.filter.contains(crc) {
            self.look(scan, offset, crc);
        }
    }

    // Whether an open pair has this CRC-32. `HaveAnswers`: each pair of this CRC-32 is found.
    fn awaits(&self, wanted: &Wanted, crc: u32) -> bool
        requires { IsTallied wanted.now self.now }
        ensures { ¬ (IsTrue result) ↔ HaveAnswers wanted.now self.now.found.items crc }
    {
        self.filter.contains(crc) && awaited(wanted.group(crc), crc, &self.found) > 0
    }

    // Whether an open pair has one of the CRC-32s of a row. As with `look`, few rows get here.
    #[cold]
    #[inline(never)]
    fn awaits_any(&self, wanted: &Wanted, crcs: [u32; 4]) -> bool
        requires { IsTallied wanted.now self.now }
        ensures { ¬ (IsTrue result) ↔ ((k : ℕ) → k < 4
            → HaveAnswers wanted.now self.now.found.items (slice_index crcs k)) }
    {
        crcs.iter().any(|&crc| self.awaits(wanted, crc))
    }

    // The rows of four stretches in which an open pair may have the CRC-32 of a window, as `rows`, with the filter's
    // shift as a constant for the loop.
    fn rows_by<const LEN: usize, const SHIFT: u32>(
        &self,
        scan: &Scan,
        start: usize,
    ) -> Option<ArrayVec<Row, MOST_ROWS>>
        requires shift { SHIFT ≡ self.now.filter.shift }
        requires at { IsSearching scan.now start self.now }
        requires within { IsWhole scan.now (start + 4 * LEN) }
        ensures { IfSome result (λ rows. AreCandidateRows scan.now start LEN LEN rows.items) }
    {
        let rolling = scan.rolling;
        let outs = &scan.bytes[start..];
        let nexts = &outs[rolling.size() as usize..];
        let mut crcs = first_crcs::<LEN>(scan.bytes, rolling.size(), start);
        let mut rows = ArrayVec::new();
        for at in 0..LEN {
            if self.filter.may_contain_any::<SHIFT>(&crcs) && self.awaits_any(scan.wanted, crcs) {
                if rows.is_full() {
                    return None;
                }
                rows.push(Row { at, crcs });
            }
            crcs = next_crcs::<LEN>(rolling, Row { at, crcs }, outs, nexts);
        }
        Some(rows)
    }

    // The rows of four stretches of `LEN` offsets, from `start` on, in which an open pair may have the CRC-32 of a
    // window. None if there are more than `MOST_ROWS`. A row is the windows at the same distance into each stretch.
    fn rows<const LEN: usize>(&self, scan: &Scan, start: usize) -> Option<ArrayVec<Row, MOST_ROWS>>
        requires at { IsSearching scan.now start self.now }
        requires within { IsWhole scan.now (start + 4 * LEN) }
        ensures { IfSome result (λ rows. AreCandidateRows scan.now start LEN LEN rows.items) }
    {
        if self.filter.is_for_many() {
            self.rows_by::<LEN, MANY>(scan, start)
        } else {
            self.rows_by::<LEN, FEW>(scan, start)
        }
    }

    // Takes the search past stretch `k` of four of `len` offsets: tests the windows of the stretch that are in the
    // rows. No other window can match an open pair.
    fn test_stretch(&mut self, scan: &Scan, start: usize, rows: &[Row], len: usize, k: usize)
        requires at { IsSearching scan.now (start + k * len) self.old }
        requires stretch { k < 4 }
        requires within { start + 4 * len ≤ length scan.now.bytes.now }
        requires rows { AreCandidateRows scan.now start len len rows.now }
        ensures { IsSearching scan.now (start + (k + 1) * len) self.new }
    {
        for row in rows {
            self.test(scan, start + k * len + row.at, row.crcs[k]);
        }
    }

    // Takes the search past four stretches of `LEN` offsets: tests the windows in their candidate rows in the order of
    // offsets, or all windows one by one if these rows are too many.
    fn search_four<const LEN: usize>(&mut self, scan: &Scan, start: usize)
        requires within { IsWhole scan.now (start + 4 * LEN) }
        requires at { IsSearching scan.now start self.old }
        ensures { IsSearching scan.now (start + 4 * LEN) self.new }
    {
        let Some(rows) = self.rows::<LEN>(scan, start) else {
            self.one_by_one(scan, start, start + 4 * LEN);
            return;
        };
        for k in 0..4usize {
            self.test_stretch(scan, start, rows.as_slice(), LEN, k);
        }
    }

    // Takes the search from `start` on by four stretches of `LEN` offsets at a time, as long as their windows are whole
    // and `is_fit` allows it. Returns the offset after them.
    fn by_stretches<const LEN: usize>(&mut self, scan: &Scan, start: usize) -> usize
        requires stretch { 1 ≤ LEN }
        requires within { start ≤ length scan.now.bytes.now }
        requires at { IsSearching scan.now start self.old }
        ensures within { result ≤ length scan.now.bytes.now }
        ensures at { IsSearching scan.now result self.new }
    {
        let mut offset = start;
        while self.left > 0 && is_fit(scan.bytes.len() - offset, scan.rolling.size(), LEN) {
            self.search_four::<LEN>(scan, offset);
            offset += 4 * LEN;
        }
        offset
    }

    // Takes the search from `start` to `end`, window by window. It stops early if each pair is found.
    fn one_by_one(&mut self, scan: &Scan, start: usize, end: usize)
        requires from { start ≤ end }
        requires within { end ≤ length scan.now.bytes.now }
        requires at { IsSearching scan.now start self.old }
        ensures { IsSearching scan.now end self.new }
    {
        let Scan { rolling, bytes, .. } = *scan;
        let incoming = &bytes[(rolling.size() as usize).min(bytes.len())..];
        let mut crc = padded_crc32(scan.window(start), rolling.size());
        for offset in start..end {
            if self.left == 0 {
                break;
            }
            self.test(scan, offset, crc);
            let next = incoming.get(offset).copied().unwrap_or(0);
            crc = rolling.slid(crc, bytes[offset], next);
        }
    }

    // Searches a whole buffer for the open pairs. The batch is empty before and afterwards.
    fn search_bytes(&mut self, scan: &Scan)
        requires at { IsSearching scan.now 0 self.old }
        requires empty { self.old.batch.items ≡ [] }
        ensures at { IsSearching scan.now (length scan.now.bytes.now) self.new }
        ensures empty { self.new.batch.items ≡ [] }
    {
        if self.left == 0 {
            return;
        }
        // No length is a multiple of a page; otherwise all four stretches would compete for the same few lines of the
        // caches.
        let offset = self.by_stretches::<4198464>(scan, 0);
        let offset = self.by_stretches::<1052736>(scan, offset);
        let offset = self.by_stretches::<266304>(scan, offset);
        let offset = self.by_stretches::<69696>(scan, offset);
        let offset = self.by_stretches::<20544>(scan, offset);
        let offset = self.by_stretches::<4160>(scan, offset);
        let offset = self.by_stretches::<1088>(scan, offset);
        self.one_by_one(scan, offset, scan.bytes.len());
        self.compare_batch(scan);
    }
}

// Whether the rest of a buffer, `left` bytes, is searched by four stretches of `len` offsets, for windows of `s` bytes:
// the stretches lie in it with a window after them, they save more than the CRC-32s of their first windows cost, and
// each holds at most 64 slices.
fn is_fit(left: usize, s: u64, len: usize) -> bool
    ensures { IsTrue result → 4 * len + s ≤ left }
{
    let is_long = s <= left as u64 && len <= (left - s as usize) / 4;
    is_long && s / 8 <= len as u64 && len as u64 / 64 <= s
}

/// For each pair the first buffer with a window of `s` bytes that matches it, and the least offset of such a window
/// there; None if there is none. A window that reaches past the end of its buffer is padded with zeros.
///
/// For each offset this takes one slide, one look at a filter and the CRC-32 of at most eight bytes, and for each
/// window whose CRC-32 is that of an open pair an MD5 of `s` bytes. Up to sixteen of these MD5s are computed side by
/// side, in a fifth of the time or less; if fewer such windows follow each other, an MD5 costs at most what it does
/// alone. In the worst case each window has such a CRC-32 and none has the MD5, and each offset costs an MD5 of `s`
/// bytes. Only pairs made for this lead to it. A buffer costs nothing for the pairs that aren't found in it.
pub fn find_among(
    alloc: Global,
    buffers: &[&[u8]],
    s: u64,
    wanted: &Wanted,
) -> Result<Vec<Option<Position>>>
    requires { 1 ≤ s }
    ensures { Lists (map (first_position s (buffers_of buffers.now)) wanted.now) result }
{
    let rolling = Rolling::new(alloc, s)?;
    let mut search = Search::new(alloc, wanted)?;
    for (buffer, bytes) in buffers.iter().enumerate() {
        search.search_bytes(&Scan {
            wanted,
            rolling: &rolling,
            earlier: &buffers[..buffer],
            bytes,
        });
    }
    Ok(search.found)
}

// The offsets of positions, for `find`.
fn offsets_of(alloc: Global, positions: &[Option<Position>]) -> Result<Vec<Option<usize>>>
    ensures { Lists (map (option_map (λ position. position.offset)) positions.now) result }
{
    let offsets = positions.iter().map(|at| at.map(|at| at.offset));
    offsets.collect(alloc)
}

/// For each pair the least offset at which the window of `s` bytes matches it; None if there is none. A window that
/// reaches past the end is padded with zeros. The cost is that of `find_among`. Only tests call it.
pub fn find(alloc: Global, bytes: &[u8], s: u64, wanted: &Wanted) -> Result<Vec<Option<usize>>>
    requires { 1 ≤ s }
    ensures { IfOk result (λ offsets. offsets.items ≡ map (first_match s bytes.now) wanted.now) }
{
    let positions = find_among(alloc, &[bytes], s, wanted)?;
    offsets_of(alloc, &positions)
}

/// The start of a window: the index of its buffer among those searched, and the offset there.
#[derive(Clone, Copy, Default, Debug, Drop)]
pub struct Position {
    pub buffer: usize,
    pub offset: usize,
}

/// A window that a search has still to compare, because an open pair has its CRC-32.
#[derive(Clone, Copy, Default, Drop)]
pub(crate) struct Candidate {
    pub(crate) position: Position,
    pub(crate) crc: u32,
}

// The offset of candidate k, or 0 for an unused lane.
fn start(batch: &[Candidate], k: usize) -> usize
    ensures { result ≡ (candidate_at batch.now k).position.offset }
{
    batch.get(k).copied().unwrap_or_default().position.offset
}

// The offsets of the candidates, one for each lane.
fn starts(batch: &[Candidate]) -> [usize; LANES]
    ensures { (k : ℕ) → k < 16 → slice_index result k ≡ (candidate_at batch.now k).position.offset }
{
    array::from_fn(|k| start(batch, k))
}

// The MD5s of the candidates' windows, in order. Lanes after the last candidate have no meaning.
fn batch_md5s(scan: &Scan, batch: &[Candidate]) -> [[u8; 16]; LANES]
    requires some { 1 ≤ length batch.now }
    requires fit { length batch.now ≤ 16 }
    requires windows { All (IsWindow scan.now) batch.now }
    ensures { (k : ℕ) → k < length batch.now
        → digest_at result k ≡ md5 (window_of scan.now (candidate_at batch.now k).position.offset) }
{
    let size = scan.rolling.size() as usize;
    window_digests(scan.bytes, &starts(batch), batch.len(), size)
}

// The window of `s` bytes at a position, if there is one; shorter if it reaches past the end of its buffer.
fn window_at<'a>(buffers: &[&'a [u8]], s: u64, at: Option<Position>) -> Option<&'a [u8]>
    requires { IfSome at (IsWithin (buffers_of buffers.now)) }
    ensures value { padded_window s result ≡ option_map (window_in s (buffers_of buffers.now)) at }
    ensures short { IfSome result (λ bytes. length bytes.now ≤ s) }
{
    let Position { buffer, offset } = at?;
    Some(window_bytes(buffers[buffer], s, offset))
}

/// For each pair the first window of `s` bytes that matches it, by file and then by offset; None if there is none. If a
/// window reaches past the end of its file, the zeros after the end are left out.
pub fn found_windows<'a>(
    alloc: Global,
    buffers: &[&'a [u8]],
    s: u64,
    pairs: &[Pair],
) -> Result<Vec<Option<&'a [u8]>>>
    requires { 1 ≤ s }
    ensures first { IfOk result (λ windows.
        padded_windows s windows.items ≡ map (found s (buffers_of buffers.now)) pairs.now) }
    ensures short { IfOk result (λ windows. AreShort s windows.items) }
{
    let wanted = Wanted::new(alloc, pairs)?;
    let positions = find_among(alloc, buffers, s, &wanted)?;
    let mut windows = Vec::with_capacity(alloc, positions.len())?;
    for position in &positions {
        windows.push(window_at(buffers, s, *position))?;
    }
    Ok(windows)
}
