//! Rebuilds lost slices from what survives of a set: `rebuild` numbers the lost slices, `invert` chooses the exponents and
//! inverts their matrix, and `solved` multiplies the inverse by the syndromes, a block of columns at a time. The syndrome
//! of a kept exponent is its recovery slice plus the contribution of the known slices to it, so it is what the lost slices
//! alone contribute. A lost slice is given as an empty one, which contributes nothing.

ghost use Rattle.std.specs.Prelude.{◌≡◌, ◌≤◌, ◌/◌, List, ℕ, length, map, IfOk, IfErr, IsOk};
ghost use Rattle.par2_solve.specs.BufferContents.{AreSolvedBy, Inverts, IsInversion, AreBlank, AreByteLists, AreExtended, byte_lists, syndrome};
ghost use Rattle.par2_solve.specs.Rebuilding.{AnotherAlwaysAgrees, AreEnough, CanRebuild, IsFaultOf, Rebuild, TwoAlwaysAgree, bytes_or_none, exponents_of, lost_among, lost_from, recovered_of, with_exponents};
ghost use Rattle.par2_spec.specs.Prelude.{lists_of};
ghost use Rattle.par2_transform.specs.Rows.{HaveWords};

use crate::additions::with_recovery_slices;
use crate::inverse::{Inverse, Inversion, invert};
use crate::products::{Size, borrowed, buffers_fit, fit_lists, windows};
use crate::room::{columns_at_once, rows_room};
use crate::targets::Recovered;
use par2_gf16::Gf;
use par2_matrix::{Exponents, Lost, buffer_at, fit_bytes};
use par2_spec::Result;
use par2_spec::rank_laws::{another_list_agrees, two_lists_agree};
use par2_transform::Transform;
use std::alloc::{AllocError, Global};
use thiserror::Error;

/// The slices of a set that survive.
#[derive(Drop)]
pub struct Survivors<'a> {
    /// The slice size in bytes, which is even.
    pub slice: usize,
    /// For each input slice its bytes, which may lack zeros at the end, or None if it is lost.
    pub known: Vec<Option<&'a [u8]>>,
    /// The recovery slices with their exponents, in increasing order. Each has `slice` bytes.
    pub recovery: Vec<(u32, &'a [u8])>,
}

/// Why lost slices couldn't be rebuilt.
#[derive(Debug, Error, Clone, Copy, Drop)]
pub enum RebuildFault {
    /// The recovery slices don't determine the lost slices: `missing` slices are lost, and the rank of the equations is
    /// `rank`.
    #[error("not repairable, lost {missing}, rank {rank}")]
    NotRepairable { missing: usize, rank: usize },
    /// Memory ran out.
    #[error("out of memory")]
    Memory,
}

impl From<AllocError> for RebuildFault {
    ghost use Rattle.std.specs.Prelude.{◌≡◌};
    ghost use Rattle.par2_solve.specs.declared.rebuild_slices.RebuildFault.TheVariants.{Memory};

    ghost from_gives = { λ _ fault. fault ≡ Memory };

    fn from(_error: AllocError) -> Self {
        RebuildFault::Memory
    }
}

// The numbers of the lost slices, which are those of which `known` has no bytes.
fn lost_numbers(alloc: Global, known: &[Option<&[u8]>]) -> Result<Vec<u32>>
    requires { length known.now ≤ 32768 }
    ensures { IfOk result (λ numbers. numbers.items ≡ lost_from 0 known.now) }
{
    let mut lost = Vec::new(alloc);
    for k in 0..known.len() {
        if known[k].is_none() {
            lost.push(k as u32)?;
        }
    }
    Ok(lost)
}

// The bytes of the recovery slices of the kept exponents, in order.
fn bytes_of<'a>(
    alloc: Global,
    recovery: &[(u32, &'a [u8])],
    kept: &Exponents,
) -> Result<Vec<&'a [u8]>>
    ensures { IfOk result (λ bytes.
        byte_lists bytes.items ≡ map (λ r. r.1) (with_exponents kept.now.numbers.now recovery.now)) }
{
    let slices = recovery.iter().filter(|slice| kept.contains(slice.0));
    slices.map(|slice| slice.1).collect(alloc)
}

// For the prover: each byte of the recovery slices is less than 256.
fn fit_recovery(recovery: &[(u32, &[u8])])
    ensures { AreByteLists (map (λ r. r.1) (recovered_of recovery.now)) }
{
    for i in 0..recovery.len() {
        fit_bytes(recovery[i].1);
    }
}

// The lost slices, one buffer for each: the inverse times the syndromes of the kept exponents. `slices` are the bytes
// of each input slice, none for a lost one.
fn solve(
    alloc: Global,
    gf: &Gf,
    survivors: &Survivors,
    slices: &[&[u8]],
    found: &Inversion,
) -> Result<Vec<Vec<u8>>, RebuildFault>
    // The recovery slices determine the lost ones, and `found` has the kept exponents and their
    // inverse.
    requires survivors { CanRebuild survivors.now }
    requires slices { byte_lists slices.now ≡ map bytes_or_none survivors.now.known.items }
    requires enough { AreEnough survivors.now }
    requires found { IsInversion
        (lost_among survivors.now) (exponents_of survivors.now.recovery.items) found.now }
    // It returns the lost slices, one buffer for each, unless memory runs out.
    ensures rebuilt { IfOk result (λ buffers. Rebuild survivors.now buffers.items) }
    ensures count { IfOk result (λ it. length it.items ≡ length (lost_among survivors.now)) }
    ensures memory { IfErr result (λ fault. fault ≡ RebuildFault.Memory) }
{
    let exponents = Exponents {
        numbers: &found.kept,
    };
    let recovery = bytes_of(alloc, &survivors.recovery, &exponents)?;
    let room = rows_room(slices, recovery.len());
    let transform = Transform { gf, slices, room };
    let kept = Recovered {
        exponents: exponents.numbers,
        slices: &recovery,
    };
    let bytes = survivors.slice;
    let buffers = solved(alloc, &transform, &found.inverse, &kept, Size { bytes })?;
    fit_lists(&buffers);
    Ok(buffers)
}

/// The lost slices in order, with their padding. If the recovery slices don't determine them, it returns
/// `NotRepairable` with the number of lost slices and of kept exponents. `Rebuild`: the buffers are the only slices
/// that agree with the known slices and the kept recovery slices.
pub fn rebuild(alloc: Global, gf: &Gf, survivors: &Survivors) -> Result<Vec<Vec<u8>>, RebuildFault>
    requires { CanRebuild survivors.now }
    ensures rebuilt { IfOk result (λ buffers. Rebuild survivors.now buffers.items) }
    ensures count { IfOk result (λ it. length it.items ≡ length (lost_among survivors.now)) }
    ensures enough { IsOk result → AreEnough survivors.now }
    ensures refused { IfErr result (IsFaultOf survivors.now) }
    // If it returns `NotRepairable` and a slice has two bytes or more, the lost slices can't be
    // known: for each list of slices that agrees with all that survives, another one agrees too,
    ensures another { 2 ≤ survivors.now.slice → IfErr result (AnotherAlwaysAgrees survivors.now) }
    // and there are always two that agree with the known slices and the kept exponents.
    ensures two { 2 ≤ survivors.now.slice → IfErr result (TwoAlwaysAgree survivors.now) }
{
    another_list_agrees();
    two_lists_agree();
    let known = survivors.known.iter().map(|&slice| slice.unwrap_or(&[]));
    let slices: Vec<&[u8]> = known.collect(alloc)?;
    // For the prover: what the laws say of lists of slices holds of bytes.
    buffers_fit(&slices);
    fit_recovery(&survivors.recovery);
    let lost = lost_numbers(alloc, &survivors.known)?;
    let numbers = survivors.recovery.iter().map(|slice| slice.0);
    let numbers: Vec<u32> = numbers.collect(alloc)?;
    let lost = Lost { numbers: &lost };
    let exponents = Exponents { numbers: &numbers };
    let found = invert(alloc, gf, &lost, &exponents)?;
    solve(alloc, gf, survivors, &slices, &found)
}

/// The same as `rebuild`, with tables of the field that it makes itself.
pub fn rebuild_lost(alloc: Global, survivors: &Survivors) -> Result<Vec<Vec<u8>>, RebuildFault>
    requires { CanRebuild survivors.now }
    ensures rebuilt { IfOk result (λ buffers. Rebuild survivors.now buffers.items) }
    ensures count { IfOk result (λ it. length it.items ≡ length (lost_among survivors.now)) }
    ensures enough { IsOk result → AreEnough survivors.now }
    ensures refused { IfErr result (IsFaultOf survivors.now) }
{
    rebuild(alloc, &Gf::new(alloc)?, survivors)
}

// `count` empty buffers with capacity for `size` bytes each: a lost slice for each row of the inverse.
fn reserved(alloc: Global, count: usize, size: usize) -> Result<Vec<Vec<u8>>>
    ensures { IfOk result (λ buffers. AreBlank 0 count (lists_of buffers.items)) }
{
    let mut buffers = Vec::with_capacity(alloc, count)?;
    for _i in 0..count {
        buffers.push(Vec::with_capacity(alloc, size)?)?;
    }
    Ok(buffers)
}

// Appends to each buffer its next block: to buffer r block r.
fn extend(buffers: &mut [Vec<u8>], blocks: &[Vec<u8>]) -> Result<()>
    requires { length blocks.now ≡ length buffers.old }
    ensures { IfOk result (λ _. AreExtended (lists_of buffers.old) (lists_of blocks.now)
        (lists_of buffers.new) (length blocks.now)) }
{
    for r in 0..blocks.len() {
        buffers[r].extend_from_slice(buffer_at(blocks, r))?;
    }
    Ok(())
}

// The lost slices, of this size each: the inverse times the syndromes of the kept exponents, block by block. The transform
// has all input slices, a lost one empty, and the room that its rows may take.
fn solved(
    alloc: Global,
    transform: &Transform,
    inverse: &Inverse,
    kept: &Recovered,
    size: Size,
) -> Result<Vec<Vec<u8>>>
    // The inverse is that for the exponents.
    requires inverse { (lost : List ℕ) × Inverts lost kept.now.exponents.now inverse.now }
    // Recovery slices are all of this size.
    requires size { HaveWords (size.bytes / 2) (byte_lists kept.now.slices.now) }
    // The result solves the equations with the syndromes.
    ensures solved { IfOk result (λ buffers. AreSolvedBy inverse.now size.bytes kept.now.exponents.now
        (syndrome kept.now.exponents.now
        (byte_lists transform.now.slices.now) (byte_lists kept.now.slices.now))
        (lists_of buffers.items)) }
    // For the prover: each item of the slices is a byte.
    ensures slices { IfOk result (λ _. AreByteLists (byte_lists transform.now.slices.now)) }
    ensures recovery { IfOk result (λ _. AreByteLists (byte_lists kept.now.slices.now)) }
{
    let Transform { gf, slices, room } = *transform;
    buffers_fit(slices);
    buffers_fit(kept.slices);
    let count = kept.slices.len();
    let columns = columns_at_once(slices, count, size.bytes);
    let at_once = columns.max(inverse.least());
    let mut buffers = reserved(alloc, count, size.bytes)?;
    let mut from = 0;
    while from < size.bytes {
        let bytes = at_once.min(size.bytes - from);
        let known = windows(alloc, slices, from, bytes)?;
        let part = windows(alloc, kept.slices, from, bytes)?;
        let block = Transform {
            gf,
            slices: &known,
            room,
        };
        let part = Recovered {
            exponents: kept.exponents,
            slices: &part,
        };
        let syndromes = with_recovery_slices(alloc, &block, bytes / 2, &part)?;
        let sources = borrowed(alloc, &syndromes)?;
        let lost = inverse.products(alloc, &sources, Size { bytes }, room)?;
        extend(buffers.as_mut_slice(), &lost)?;
        from += bytes;
    }
    Ok(buffers)
}
