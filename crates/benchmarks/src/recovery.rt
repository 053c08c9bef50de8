//! Recovery slices and rebuilding, each beside the field's sums of as many buffers in the same run.

use crate::clock::{nanos_since, start};
use crate::random::random_bytes;
use crate::sums::add_products;
use anyhow::{Error, Result};
use par2_folder::Folder;
use par2_gf16::Gf;
use par2_recovery::{RebuildFault, SetRecord, Survivors};
use recovery_calls::{folder_of, rebuilt, recovery_slices_of, set_of};
use std::alloc::{AllocError, Global};
use std::io;

// 100 recovery slices over 1,024 slices.
const LARGE_SLICE: usize = 65536;

const LARGE_SLICES: usize = 1024;

const RECOVERY_SLICES: u32 = 100;

// 300 lost slices among 4,096.
const SMALL_SLICE: usize = 4096;

const SMALL_SLICES: usize = 4096;

const LOST: u32 = 300;

const NANOS_IN_MILLISECOND: u128 = 1_000_000;

// The time of this many sums of products over buffers of this size that stay in the cache.
fn sums_nanos(rt: &HostRuntime, gf: &Gf, count: u64, size: usize) -> io::Result<u128> {
    let source = random_bytes(rt.alloc(), size, 1)?;
    let mut target = random_bytes(rt.alloc(), size, 2)?;
    let start = start(rt)?;
    add_products(gf, count, &source, &mut target);
    let nanos = nanos_since(rt, start)?;
    report_sums(rt, count, &target, nanos)?;
    Ok(nanos)
}

fn report_sums(rt: &HostRuntime, count: u64, target: &[u8], nanos: u128) -> io::Result<()> {
    println!(rt;
        "{count} sums of {} bytes: {} ms (first byte {:?})",
        target.len(),
        nanos / NANOS_IN_MILLISECOND,
        target.first()
    )
}

fn report(rt: &HostRuntime, what: &str, nanos: u128, sums: u128) -> io::Result<()> {
    let ratio = nanos.saturating_mul(100) / sums.max(1);
    println!(rt;
        "{what}: {} ms, {ratio} hundredths of the sums",
        nanos / NANOS_IN_MILLISECOND
    )
}

// A folder of one file, and the record of its set.
#[derive(Drop)]
struct Protected {
    folder: Folder,
    set: SetRecord,
}

fn protect(alloc: Global, bytes: &[u8], slice_size: usize) -> Result<Protected> {
    let folder = folder_of(alloc, &[("a", bytes)])?;
    match set_of(alloc, &folder, &["a"], slice_size as u64)? {
        Some(Ok(set)) => Ok(Protected { folder, set }),
        _ => Err(Error::msg("no set")),
    }
}

// The first recovery slices of the set.
fn first_slices(
    alloc: Global,
    gf: &Gf,
    protected: &Protected,
    count: u32,
) -> Result<Option<Vec<Vec<u8>>>, AllocError> {
    recovery_slices_of(alloc, gf, &protected.set, &protected.folder, 0, count)
}

fn recover(rt: &HostRuntime, gf: &Gf, protected: &Protected, sums: u128) -> io::Result<()> {
    let start = start(rt)?;
    let buffers = first_slices(rt.alloc(), gf, protected, RECOVERY_SLICES)?;
    report(
        rt,
        "100 recovery slices of 64 KiB over 1024 slices",
        nanos_since(rt, start)?,
        sums,
    )?;
    println!(rt; "they are there: {}", buffers.is_some())
}

fn measure_recovery(rt: &HostRuntime, gf: &Gf) -> Result<()> {
    let bytes = random_bytes(rt.alloc(), LARGE_SLICE * LARGE_SLICES, 1)?;
    let protected = protect(rt.alloc(), &bytes, LARGE_SLICE)?;
    let count = u64::from(RECOVERY_SLICES) * LARGE_SLICES as u64;
    let sums = sums_nanos(rt, gf, count, LARGE_SLICE)?;
    Ok(recover(rt, gf, &protected, sums)?)
}

// Every 13th slice is lost, until there are enough.
fn is_lost(k: usize) -> bool {
    k % 13 == 0 && k / 13 < LOST as usize
}

fn known_of<'a>(alloc: Global, bytes: &'a [u8]) -> Result<Vec<Option<&'a [u8]>>, AllocError> {
    let mut known = Vec::new(alloc);
    for (k, slice) in bytes.chunks(SMALL_SLICE).enumerate() {
        known.push(if is_lost(k) { None } else { Some(slice) })?;
    }
    Ok(known)
}

fn numbered<'a>(alloc: Global, buffers: &'a [Vec<u8>]) -> Result<Vec<(u32, &'a [u8])>, AllocError> {
    let mut recovery = Vec::new(alloc);
    let mut exponent = 0u32;
    for buffer in buffers {
        recovery.push((exponent, buffer.as_slice()))?;
        exponent = exponent.wrapping_add(1);
    }
    Ok(recovery)
}

fn survivors_of<'a>(
    alloc: Global,
    bytes: &'a [u8],
    buffers: &'a [Vec<u8>],
) -> Result<Survivors<'a>, AllocError> {
    Ok(Survivors {
        slice: SMALL_SLICE,
        known: known_of(alloc, bytes)?,
        recovery: numbered(alloc, buffers)?,
    })
}

// Whether the buffers are the lost slices.
fn are_the_lost(bytes: &[u8], buffers: &[Vec<u8>]) -> bool {
    let lost = bytes
        .chunks(SMALL_SLICE)
        .enumerate()
        .filter(|(k, _)| is_lost(*k));
    buffers.len() == LOST as usize
        && lost
            .zip(buffers.iter())
            .all(|((_, slice), buffer)| slice == buffer.as_slice())
}

// Whether the lost slices were rebuilt.
fn are_back(bytes: &[u8], answer: &Option<Result<Vec<Vec<u8>>, RebuildFault>>) -> bool {
    match answer {
        Some(Ok(buffers)) => are_the_lost(bytes, buffers),
        _ => false,
    }
}

fn rebuild(
    rt: &HostRuntime,
    gf: &Gf,
    bytes: &[u8],
    buffers: &[Vec<u8>],
    sums: u128,
) -> io::Result<()> {
    let survivors = survivors_of(rt.alloc(), bytes, buffers)?;
    let start = start(rt)?;
    let answer = rebuilt(rt.alloc(), gf, &survivors);
    report(
        rt,
        "300 lost slices of 4 KiB among 4096",
        nanos_since(rt, start)?,
        sums,
    )?;
    println!(rt; "they are back: {}", are_back(bytes, &answer))
}

fn measure_rebuild(rt: &HostRuntime, gf: &Gf) -> Result<()> {
    let bytes = random_bytes(rt.alloc(), SMALL_SLICE * SMALL_SLICES, 1)?;
    let protected = protect(rt.alloc(), &bytes, SMALL_SLICE)?;
    let Some(buffers) = first_slices(rt.alloc(), gf, &protected, LOST)? else {
        return Err(Error::msg("no recovery slices"));
    };
    let sums = sums_nanos(rt, gf, u64::from(LOST) * SMALL_SLICES as u64, SMALL_SLICE)?;
    Ok(rebuild(rt, gf, &bytes, &buffers, sums)?)
}

pub fn measure(rt: &HostRuntime) -> Result<()> {
    let gf = Gf::new(rt.alloc())?;
    measure_recovery(rt, &gf)?;
    measure_rebuild(rt, &gf)
}
