//! How long some work takes.

use std::io;
use std::time::Instant;

/// The moment at which some work begins.
pub fn start(rt: &HostRuntime) -> io::Result<Instant> {
    Instant::now(rt)
}

/// The nanoseconds since that moment.
pub fn nanos_since(rt: &HostRuntime, start: Instant) -> io::Result<u128> {
    Ok(start.elapsed(rt)?.as_nanos())
}

/// The seconds since that moment.
pub fn seconds_since(rt: &HostRuntime, start: Instant) -> io::Result<f64> {
    Ok(start.elapsed(rt)?.as_secs_f64())
}

/// The speed at which this many bytes were processed.
pub fn megabytes_a_second(bytes: usize, nanos: u128) -> u128 {
    bytes as u128 * 1000 / nanos.max(1)
}
