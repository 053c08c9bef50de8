//! The field's arithmetic.

use crate::clock::{nanos_since, start};
use crate::random::random_bytes;
use crate::sums::add_products;
use par2_gf16::Gf;
use std::io;

// The bytes of a buffer: few enough to stay in the cache.
const BYTES: usize = 65536;

// All bytes in one number, so that no work can be optimized away.
fn weight(bytes: &[u8]) -> u32 {
    let mut weight = 0u32;
    for byte in bytes {
        weight = weight.wrapping_mul(31).wrapping_add(u32::from(*byte));
    }
    weight
}

// Writes another first byte in each round.
fn change(src: &mut [u8], round: u32) {
    if let Some(first) = src.first_mut() {
        *first = (round % 256) as u8;
    }
}

// Copies a buffer over one of its length.
fn copy(src: &[u8], dst: &mut [u8]) {
    if src.len() == dst.len() {
        dst.copy_from_slice(src);
    }
}

// Each copy changes with its round.
fn copy_often(rounds: u32, src: &mut [u8], dst: &mut [u8]) {
    for round in 0..rounds {
        change(src, round);
        copy(src, dst);
    }
}

// Thousandths of a GB/s.
fn rate(rounds: u32, nanos: u128) -> u128 {
    u128::from(rounds) * BYTES as u128 * 1000 / nanos.max(1)
}

fn report(rt: &HostRuntime, what: &str, rounds: u32, nanos: u128, copies: u128) -> io::Result<()> {
    println!(rt;
        "{what}: {} MB/s, {} times as long as a plain copy",
        rate(rounds, nanos),
        nanos / copies.max(1)
    )
}

fn measure_tables(rt: &HostRuntime) -> io::Result<Gf> {
    let start = start(rt)?;
    let gf = Gf::new(rt.alloc())?;
    println!(rt; "tables: {} microseconds", nanos_since(rt, start)? / 1000)?;
    Ok(gf)
}

// The nanoseconds of plain copies.
fn measure_copies(
    rt: &HostRuntime,
    rounds: u32,
    src: &mut [u8],
    dst: &mut [u8],
) -> io::Result<u128> {
    let start = start(rt)?;
    copy_often(rounds, src, dst);
    let nanos = nanos_since(rt, start)?;
    println!(rt; "plain copies: {} MB/s", rate(rounds, nanos))?;
    Ok(nanos)
}

fn sums_nanos(
    rt: &HostRuntime,
    gf: &Gf,
    rounds: u32,
    src: &[u8],
    dst: &mut [u8],
) -> io::Result<u128> {
    let start = start(rt)?;
    add_products(gf, u64::from(rounds), src, dst);
    nanos_since(rt, start)
}

// Prints the speed of sums, and returns the weight of their result.
fn measure_sums(
    rt: &HostRuntime,
    gf: &Gf,
    rounds: u32,
    src: &[u8],
    dst: &mut [u8],
    copies: u128,
) -> io::Result<u32> {
    let nanos = sums_nanos(rt, gf, rounds, src, dst)?;
    report(rt, "products by a factor", rounds, nanos, copies)?;
    Ok(weight(dst))
}

pub fn measure(rt: &HostRuntime, rounds: u32) -> io::Result<()> {
    let gf = measure_tables(rt)?;
    let mut src = random_bytes(rt.alloc(), BYTES, 1)?;
    let mut dst = random_bytes(rt.alloc(), BYTES, 2)?;
    let copies = measure_copies(rt, rounds, &mut src, &mut dst)?;
    let weight = measure_sums(rt, &gf, rounds, &src, &mut dst, copies)?;
    println!(rt; "weight: {weight}")
}
