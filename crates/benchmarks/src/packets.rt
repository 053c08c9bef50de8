//! The packet scanner, over a volume and over random bytes of 64 MiB each, and MD5 alone.

use crate::clock::{megabytes_a_second, nanos_since, start};
use crate::digest;
use crate::random::random_bytes;
use anyhow::Result;
use par2_packets::{Packets, append_recovery};
use std::alloc::{AllocError, Global};
use std::io;

const MEBIBYTE: usize = 1 << 20;

const SIZE: usize = 64 * MEBIBYTE;

const SLICE: usize = 65536;

// Adds the recovery slice of an exponent.
fn append_slice(
    alloc: Global,
    packed: &mut Vec<u8>,
    exponent: u16,
    slice: &[u8],
) -> Result<(), AllocError> {
    let words = &slice[..slice.len() / 4 * 4];
    append_recovery(alloc, packed, &[7; 16], u32::from(exponent), words)
}

// A volume of recovery slices.
fn volume(alloc: Global) -> Result<Vec<u8>, AllocError> {
    let slice = random_bytes(alloc, SLICE, 1)?;
    let mut packed = Vec::with_capacity(alloc, SIZE + MEBIBYTE)?;
    for exponent in 0..1024 {
        append_slice(alloc, &mut packed, exponent, &slice)?;
    }
    Ok(packed)
}

// The number of packets in these bytes, and the size of their bodies.
fn scanned(packed: &[u8]) -> (u64, u64) {
    let mut packets = 0u64;
    let mut bytes = 0u64;
    for packet in Packets::new(packed) {
        packets = packets.saturating_add(1);
        bytes = bytes.saturating_add(packet.body.len() as u64);
    }
    (packets, bytes)
}

fn measure_volume(rt: &HostRuntime, packed: &[u8]) -> io::Result<()> {
    let start = start(rt)?;
    let (packets, bytes) = scanned(packed);
    let rate = megabytes_a_second(packed.len(), nanos_since(rt, start)?);
    println!(rt; "volume: {rate} MB/s ({packets} packets, {bytes} bytes)")
}

fn measure_random_bytes(rt: &HostRuntime, packed: &[u8]) -> io::Result<()> {
    let start = start(rt)?;
    let (packets, _) = scanned(packed);
    let rate = megabytes_a_second(packed.len(), nanos_since(rt, start)?);
    println!(rt; "random bytes: {rate} MB/s ({packets} packets)")
}

pub fn measure(rt: &HostRuntime) -> Result<()> {
    let packed = volume(rt.alloc())?;
    digest::measure(rt, &packed)?;
    measure_volume(rt, &packed)?;
    let packed = random_bytes(rt.alloc(), SIZE, 2)?;
    Ok(measure_random_bytes(rt, &packed)?)
}
