//! A cursor that walks bytes from packet to packet, and computes the MD5s of packets side by side. `scan` finds the
//! next magic, asks `claimed_length` and `digest` whether a packet is there, and moves on by `advance`.

ghost use Rattle.std.specs.Prelude.{◌≡◌, ◌≤◌, ◌<◌, ◌+◌, ◌-◌, ◌^◌, ℕ, false, length, drop, slice_index, IfSome, MatchOption};
ghost use Rattle.std.specs.Option.{ForSome};
ghost use Rattle.md5.specs.Md5.{md5};
ghost use Rattle.par2_spec.specs.Prelude.{begins_with_packet, bytes_at};
ghost use Rattle.par2_packets.specs.Recoveries.{IsHead, AreDigests, IsBatchFrom};

use crate::views::u64_at;
use md5::{Digest, Md5};
use par2_md5_lanes::{LANES, window_digests};

pub(crate) const MAGIC: &[u8; 8] = b"PAR2\0PKT";

// The digests of `count` packets of `len` bytes each, which were computed side by side, and the position in the file
// where each packet begins.
#[derive(Clone, Copy, Drop)]
struct DigestBatch {
    len: usize,
    count: usize,
    starts: [usize; LANES],
    digests: [[u8; 16]; LANES],
}

/// The length that the bytes claim for a packet at their front, or `None` if no packet can be there. `IsHead`: a packet
/// of this length is there exactly if its MD5 is right.
#[tactic(auto, unfolding(par2_spec::specs::Packets::begins_with_packet))]
pub(crate) fn claimed_length(bytes: &[u8]) -> Option<usize>
    ensures { MatchOption result (begins_with_packet bytes.now ≡ false)
        (λ len. IsHead bytes.now len) }
{
    if bytes.len() < 64 || &bytes[..8] != MAGIC.as_slice() {
        return None;
    }
    let claim = u64_at(bytes, 8);
    if claim % 4 != 0 || claim < 64 || claim > bytes.len() as u64 {
        return None;
    }
    Some(claim as usize)
}

// A batch of packets of this length: the one at `at`, and those that are found ahead by walking along the claimed
// lengths. Unused lanes repeat the first. Digesting side by side takes about the time of two packets, so there is no
// batch of fewer than three.
//
// A walk over more than sixteen headers reads at most one for each 64 bytes of `len`. Reading a header costs less than the
// MD5 of 64 bytes, so the walk costs less than the digest of the packet at `at`.
fn batch_ahead(bytes: &[u8], at: usize, len: usize) -> Option<DigestBatch>
    requires head { 32 ≤ len }
    requires within { at + len ≤ length bytes.now }
    ensures { IfSome result (IsBatchFrom bytes.now at len) }
{
    let mut starts = [at; LANES];
    let mut count = 1;
    let mut place = at + len;
    for _ in 0..LANES.max(len / 64) {
        let Some(claim) = claimed_length(&bytes[place..]) else {
            break;
        };
        if claim == len {
            starts[count] = place;
            count += 1;
        }
        if count == LANES {
            break;
        }
        place += claim;
    }
    if count < 3 {
        return None;
    }
    // The MD5 leaves out the first 32 bytes of a packet: magic, length and the MD5 itself.
    let digests = window_digests(&bytes[32..], &starts, count, len - 32);
    Some(DigestBatch {
        len,
        count,
        starts,
        digests,
    })
}

// A packet's bytes from offset 32 on, and their MD5.
#[derive(Clone, Copy, Drop)]
struct Digested<'a> {
    bytes: &'a [u8],
    digest: [u8; 16],
    ghost right: { digest ≡ md5 bytes.now },
}

/// A position in bytes, and known digests: those of the last batch, and that of the longest packet that was digested
/// alone, here or in earlier bytes.
#[derive(Clone, Copy, Drop)]
pub(crate) struct Cursor<'a> {
    bytes: &'a [u8],
    at: usize,
    batch: Option<DigestBatch>,
    longest: Option<Digested<'a>>,
    ghost within: { at ≤ length bytes.now },
    ghost known: { ForSome batch (AreDigests bytes.now) },
}

impl<'a> Cursor<'a> {
    ghost use Rattle.par2_packets.specs.PacketViews.{rest_of};

    /// A cursor at the front of the bytes, without known digests.
    pub(crate) fn new(bytes: &'a [u8]) -> Cursor<'a>
        ensures { rest_of result ≡ bytes.now }
    {
        Cursor {
            bytes,
            at: 0,
            batch: None,
            longest: None,
        }
    }

    /// A cursor at the front of other bytes, which may repeat a packet that was digested here.
    pub(crate) fn in_bytes(&self, bytes: &'a [u8]) -> Cursor<'a>
        ensures { rest_of result ≡ bytes.now }
    {
        let mut cursor = Cursor::new(bytes);
        cursor.longest = self.longest;
        cursor
    }

    /// The bytes from the cursor on.
    pub(crate) fn rest(&self) -> &'a [u8]
        ensures { result.now ≡ rest_of self.now }
    {
        &self.bytes[self.at..]
    }

    /// Moves on by `len` bytes.
    pub(crate) fn advance(&mut self, len: usize)
        requires { len ≤ length (rest_of self.old) }
        ensures { rest_of self.new ≡ drop len (rest_of self.old) }
    {
        self.at += len;
    }

    // The MD5 of the packet of `len` bytes here, if it is in the batch, or if its bytes are those of the longest packet
    // that was digested alone.
    fn known_digest(&self, len: usize) -> Option<[u8; 16]>
        requires low { 32 ≤ len }
        requires high { len ≤ length (rest_of self.now) }
        ensures { IfSome result (λ d. d ≡ md5 (bytes_at 32 (len - 32) (rest_of self.now))) }
    {
        if let Some(batch) = self.batch
            && batch.len == len
            && let Some(place) = batch.starts.iter().position(|&start| start == self.at)
            && place < batch.count
        {
            return Some(batch.digests[place]);
        }
        let longest = self.longest?;
        (longest.bytes == &self.rest()[32..len]).then_some(longest.digest)
    }

    // Digests these bytes of one packet alone, and keeps the digest if they are the longest so far.
    fn digest_alone(&mut self, bytes: &'a [u8]) -> [u8; 16]
        ensures digest { result ≡ md5 bytes.now }
        ensures kept { rest_of self.new ≡ rest_of self.old }
    {
        let digest = Md5::digest(bytes);
        match self.longest {
            Some(longest) if longest.bytes.len() >= bytes.len() => {}
            _ => self.longest = Some(Digested { bytes, digest }),
        }
        digest
    }

    /// The MD5 of the packet of this length here, as its header should have it: without the first 32 bytes.
    pub(crate) fn digest(&mut self, len: usize) -> [u8; 16]
        requires low { 64 ≤ len }
        requires high { len ≤ length (rest_of self.old) }
        ensures digest { result ≡ md5 (bytes_at 32 (len - 32) (rest_of self.old)) }
        ensures kept { rest_of self.new ≡ rest_of self.old }
    {
        if let Some(digest) = self.known_digest(len) {
            return digest;
        }
        // A shorter packet doesn't replace the batch while one of the batch's packets is still ahead, because it is
        // between them.
        let at = self.at;
        let is_between = self.batch.is_some_and(|batch| {
            len < batch.len && batch.starts.iter().any(|&start| start > at)
        });
        if !is_between && let Some(batch) = batch_ahead(self.bytes, at, len) {
            self.batch = Some(batch);
            return batch.digests[0];
        }
        let rest = self.rest();
        self.digest_alone(&rest[32..len])
    }
}
