//! MD5 alone.

use crate::clock::{megabytes_a_second, nanos_since, start};
use md5::{Digest, Md5};
use std::io;

fn first_byte(bytes: &[u8]) -> u8 {
    Md5::digest(bytes)[0]
}

/// Prints the speed of MD5 over these bytes.
pub fn measure(rt: &HostRuntime, bytes: &[u8]) -> io::Result<()> {
    let start = start(rt)?;
    let first = first_byte(bytes);
    let rate = megabytes_a_second(bytes.len(), nanos_since(rt, start)?);
    println!(rt; "MD5 alone: {rate} MB/s (first byte {first})")
}
