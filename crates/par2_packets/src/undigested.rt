//! Recovery packets whose slices are computed in place: `with_undigested` writes them with zeros for the slice and the
//! MD5, the caller fills in the slices, and `digest_recoveries` fills in the MD5s.

ghost use Rattle.std.specs.Prelude.{◌≡◌, ◌≤◌, ◌+◌, ◌*◌, ◌++◌, ℕ, List, length, map, drop, flat_map, replicate, OnOk, IfOk};
ghost use Rattle.std.specs.List.{range_with_len};
ghost use Rattle.md5.specs.Md5.{md5};
ghost use Rattle.par2_spec.specs.Prelude.{bytes_at};
ghost use Rattle.par2_packets.specs.Recoveries.{overwritten, ArePieces, undigested, digested, AreDigested};

use crate::append::type_of;
use crate::cursor::MAGIC;
use par2_md5_lanes::buffer_digests;
use par2_spec::{Kind, Result};
use std::alloc::Global;

// The most packets that are digested at a time.
const GROUP: usize = 1024;

// The bytes of a packet before its recovery slice: the header of 64 bytes and the exponent.
const HEAD: usize = 68;

/// Appends the recovery packets of the `count` exponents from `first` on to the bytes, which it returns, with zeros for
/// their slices and MD5s. `size` is the number of bytes of a slice, `set_id` the Recovery Set ID.
pub fn with_undigested(
    bytes: Vec<u8>,
    set_id: &[u8; 16],
    first: u32,
    count: u32,
    size: usize,
) -> Result<Vec<u8>>
    requires fits { 68 + size ≤ usize.MAX }
    requires exponents { first + count ≤ 65536 }
    ensures { let added = λ (e : ℕ). undigested set_id.now e (replicate size 0) in
        IfOk result (λ all. all.items
        ≡ bytes.items ++ flat_map added (range_with_len first count)) }
{
    let mut all = bytes;
    for k in 0..count {
        all.extend_from_slice([*MAGIC, ((HEAD + size) as u64).to_le_bytes()].as_flattened())?;
        all.extend_from_slice([[0; 16], *set_id, type_of(Kind::Recovery)].as_flattened())?;
        all.extend_from_slice(&(first + k).to_le_bytes())?;
        all.reserve(size)?;
        all.resize(all.len() + size, 0)?;
    }
    Ok(all)
}

// Writes the bytes over those of the buffer from position `at` on: a packet's MD5 over its zeros.
fn overwrite(buffer: &mut [u8], at: usize, bytes: &[u8])
    requires { at + length bytes.now ≤ length buffer.old }
    ensures { buffer.new ≡ overwritten at bytes.now buffer.old }
{
    buffer[at..at + bytes.len()].copy_from_slice(bytes);
}

// The bytes of packet `k`, from 0, that its MD5 is computed from: all but the first 32. Each packet has `len` bytes.
fn digest_input(packets: &[u8], len: usize, k: usize) -> &[u8]
    requires packet { (k + 1) * len ≤ length packets.now }
    requires head { 32 ≤ len }
    ensures { result.now ≡ drop 32 (bytes_at (k * len) len packets.now) }
{
    &packets[k * len + 32..(k + 1) * len]
}

// Fills in the MD5s of `count` packets of `len` bytes each from packet number `first` on, which it computes side by
// side. `AreDigested`: if the packets before these have their MD5s, all up to the last of these then have them.
fn digest_group(
    alloc: Global,
    packets: &mut [u8],
    len: usize,
    first: usize,
    count: usize,
) -> Result<()>
    requires packets { (first + count) * len ≤ length packets.old }
    requires head { 32 ≤ len }
    ensures { OnOk result (AreDigested len first (first + count) packets.old packets.new) }
{
    let inputs = (first..first + count).map(|k| digest_input(packets, len, k));
    let digests = buffer_digests(alloc, &inputs.collect::<Vec<&[u8]>>(alloc)?)?;
    for k in 0..count {
        overwrite(packets, (first + k) * len + 16, &digests[k]);
    }
    Ok(())
}

/// Fills in the MD5s of `count` recovery packets, the bytes `packets`, whose slices are filled in. A packet has 68
/// bytes, header and exponent, before its slice of `size` bytes. In the contract `first` is the exponent of the first
/// packet, and `ArePieces` says that the bytes are these packets one after the other.
pub fn digest_recoveries(alloc: Global, packets: &mut [u8], size: usize, count: usize) -> Result<()>
    requires fits { 68 + size ≤ usize.MAX }
    requires packets { count * (68 + size) ≤ length packets.old }
    ensures { OnOk result ((set_id : List ℕ) (first : ℕ) (slice : ℕ → List ℕ)
        → ArePieces (68 + size) (λ e. undigested set_id e (slice e)) first count packets.old
        → ArePieces (68 + size) (λ e. digested set_id e (slice e)) first count packets.new) }
{
    for group in 0..count.div_ceil(GROUP) {
        let first = group * GROUP;
        digest_group(alloc, packets, HEAD + size, first, GROUP.min(count - first))?;
    }
    Ok(())
}
