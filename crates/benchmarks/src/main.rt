//! Benchmarks of the kernels, each beside a plain copy, MD5 or the field's sums in the same run. Without words it
//! prints only its usage, so that its output is fixed.
#![tactic(auto)]

mod clock;
mod digest;
mod field;
mod folder;
mod matrix;
mod packets;
mod random;
mod recovery;
mod slices;
mod sums;

use anyhow::Result;
use std::env;

fn usage(rt: &HostRuntime) -> Result<()> {
    println!(rt;
        "usage: benchmarks field ROUNDS | matrix COLUMNS | slices | packets | recovery | folder | read NAME"
    )?;
    Ok(())
}

fn measure_field(rt: &HostRuntime, rounds: &str) -> Result<()> {
    match rounds.parse::<u32>() {
        Ok(rounds) => Ok(field::measure(rt, rounds)?),
        Err(_) => usage(rt),
    }
}

fn measure_matrix(rt: &HostRuntime, columns: &str) -> Result<()> {
    match columns.parse::<u16>() {
        Ok(columns) => Ok(matrix::measure(rt, columns)?),
        Err(_) => usage(rt),
    }
}

fn measure(rt: &HostRuntime, word: &str, next: &str) -> Result<()> {
    match word {
        "field" => measure_field(rt, next),
        "matrix" => measure_matrix(rt, next),
        "slices" => Ok(slices::measure(rt)?),
        "packets" => packets::measure(rt),
        "recovery" => recovery::measure(rt),
        "folder" => folder::measure(rt),
        "read" => folder::read_file(rt, next),
        _ => usage(rt),
    }
}

fn main(rt: HostRuntime) -> Result<()> {
    let mut words = env::args(&rt)?.skip(1);
    let word = words.next();
    let next = words.next();
    measure(
        &rt,
        word.as_deref().unwrap_or(""),
        next.as_deref().unwrap_or(""),
    )
}
