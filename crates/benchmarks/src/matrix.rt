//! The elimination.

ghost use Rattle.std.specs.Prelude.{◌≡◌, ℕ, ◌<◌, length, IfOk};

use crate::clock::{nanos_since, start};
use crate::random::random_bytes;
use par2_gf16::Gf;
use par2_matrix::System;
use std::alloc::{AllocError, Global};
use std::io;

// The bytes of each unknown buffer.
const BYTES: usize = 4096;

// The entry of a slice's column.
fn coefficient(gf: &Gf, slice: u32, exponent: u32) -> u16 {
    gf.pow(gf.constant(slice).unwrap_or(1), exponent)
}

// The factors of the slices in the equation of an exponent.
fn coefficients(
    alloc: Global,
    gf: &Gf,
    columns: usize,
    exponent: u32,
) -> Result<Vec<u16>, AllocError>
    ensures { IfOk result (λ row. length row.items ≡ columns) }
{
    let mut row = vec![in alloc; 0u16; columns]?;
    let mut slice = 0u32;
    for element in row.iter_mut() {
        *element = coefficient(gf, slice, exponent);
        slice = slice.wrapping_add(1);
    }
    Ok(row)
}

// For the prover: inserts an equation, with a contract about the system's size only.
fn offer(gf: &Gf, system: &mut System, row: &[u16], right: Vec<u8>) -> Result<(), AllocError>
    requires row { length row.now ≡ system.old.columns }
    requires right { length right.items ≡ system.old.bytes }
    ensures columns { system.new.columns ≡ system.old.columns }
    ensures bytes { system.new.bytes ≡ system.old.bytes }
{
    let _offer = system.offer(gf, row, right)?;
    Ok(())
}

fn rank_of(system: &System) -> usize {
    system.rank()
}

// The nanoseconds for the equation of an exponent.
fn offer_nanos(
    rt: &HostRuntime,
    gf: &Gf,
    system: &mut System,
    columns: usize,
    exponent: u32,
) -> io::Result<u128>
    requires columns { columns ≡ system.old.columns }
    requires bytes { system.old.bytes ≡ 4096 }
    ensures columns { system.new.columns ≡ system.old.columns }
    ensures bytes { system.new.bytes ≡ system.old.bytes }
{
    let row = coefficients(rt.alloc(), gf, columns, exponent)?;
    let right = random_bytes(rt.alloc(), BYTES, u64::from(exponent))?;
    let start = start(rt)?;
    offer(gf, system, &row, right)?;
    nanos_since(rt, start)
}

fn report(rt: &HostRuntime, columns: u16, rank: usize, nanos: u128) -> io::Result<()> {
    println!(rt;
        "{columns} columns: rank {rank}, {} microseconds",
        nanos / 1000
    )
}

// The nanoseconds to solve a system.
fn solve(rt: &HostRuntime, gf: &Gf, columns: u16) -> io::Result<u128> {
    let mut system = System::new(rt.alloc(), usize::from(columns), BYTES)?;
    let mut nanos = 0u128;
    for exponent in 0..columns {
        let exponent = u32::from(exponent);
        let more = offer_nanos(rt, gf, &mut system, usize::from(columns), exponent)?;
        nanos = nanos.saturating_add(more);
    }
    report(rt, columns, rank_of(&system), nanos)?;
    Ok(nanos)
}

pub fn measure(rt: &HostRuntime, columns: u16) -> io::Result<()> {
    let gf = Gf::new(rt.alloc())?;
    let half = solve(rt, &gf, columns / 2)?;
    let whole = solve(rt, &gf, columns)?;
    println!(rt;
        "growth: {} hundredths",
        whole.saturating_mul(100) / half.max(1)
    )
}
