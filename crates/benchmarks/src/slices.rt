//! The checksums and the search, beside a plain copy and MD5 in the same run. Each figure is the best of some rounds,
//! because other programs disturb a round.

use crate::clock::{seconds_since, start};
use crate::random::random_bytes;
use md5::{Digest, Md5};
use par2_slices::{Pair, Position, Wanted, crc32, find_among, pair_of, slice_bytes, slice_count};
use std::alloc::{AllocError, Global};
use std::io;

const SLICE: u64 = 65536;

const LEN: usize = 16 << 20;

const PAIRS: usize = 10_000;

const ROUNDS: u32 = 12;

// The pairs of all slices of a file.
fn pairs_of(alloc: Global, bytes: &[u8]) -> Result<Vec<Pair>, AllocError> {
    let mut pairs = Vec::new(alloc);
    for j in 0..slice_count(bytes.len() as u64, SLICE) {
        pairs.push(pair_of(slice_bytes(bytes, SLICE, j), SLICE))?;
    }
    Ok(pairs)
}

// Pairs of slices that are nowhere.
fn strangers(alloc: Global, count: usize) -> Result<Vec<Pair>, AllocError> {
    let noise = random_bytes(alloc, count, 7)?;
    let mut pairs = Vec::new(alloc);
    for part in noise.chunks(1) {
        let number = pairs.len() as u64;
        let (md5, crc) = pair_of(&number.to_le_bytes(), 8);
        pairs.push((md5, crc ^ crc32(part)))?;
    }
    Ok(pairs)
}

// The time of a round, and a part of its result, so that it isn't optimized away.
#[derive(Clone, Copy, Drop)]
struct Round {
    seconds: f64,
    made: usize,
}

impl Round {
    fn better(self, other: Round) -> Round {
        if other.seconds < self.seconds {
            other
        } else {
            self
        }
    }
}

fn copy_round(rt: &HostRuntime, bytes: &[u8], copy: &mut Vec<u8>) -> io::Result<Round> {
    let start = start(rt)?;
    copy.clear();
    copy.extend_from_slice(bytes)?;
    let seconds = seconds_since(rt, start)?;
    Ok(Round {
        seconds,
        made: copy.len(),
    })
}

// What is done with the bytes, without a search.
#[derive(Clone, Copy)]
enum Kernel {
    Md5,
    Crc32,
    Pairs,
}

fn made_by(alloc: Global, kernel: Kernel, bytes: &[u8]) -> Result<usize, AllocError> {
    match kernel {
        Kernel::Md5 => Ok(usize::from(Md5::digest(bytes)[15])),
        Kernel::Crc32 => Ok(crc32(bytes) as usize),
        Kernel::Pairs => Ok(pairs_of(alloc, bytes)?.len()),
    }
}

fn kernel_round(rt: &HostRuntime, kernel: Kernel, bytes: &[u8]) -> io::Result<Round> {
    let start = start(rt)?;
    let made = made_by(rt.alloc(), kernel, bytes)?;
    let seconds = seconds_since(rt, start)?;
    Ok(Round { seconds, made })
}

fn positions_of(
    alloc: Global,
    bytes: &[u8],
    wanted: &Wanted,
) -> Result<Vec<Option<Position>>, AllocError> {
    find_among(alloc, &[bytes], SLICE, wanted)
}

fn search_round(rt: &HostRuntime, bytes: &[u8], wanted: &Wanted) -> io::Result<Round> {
    let start = start(rt)?;
    let positions = positions_of(rt.alloc(), bytes, wanted)?;
    let seconds = seconds_since(rt, start)?;
    let made = positions
        .iter()
        .filter(|position| position.is_some())
        .count();
    Ok(Round { seconds, made })
}

fn best_search(rt: &HostRuntime, bytes: &[u8], wanted: &Wanted) -> io::Result<Round> {
    let mut best = search_round(rt, bytes, wanted)?;
    for _ in 1..ROUNDS {
        best = best.better(search_round(rt, bytes, wanted)?);
    }
    Ok(best)
}

// The time of a plain copy of the file and of its MD5 in the same run.
#[derive(Clone, Copy, Drop)]
struct Yardstick {
    copy: Round,
    md5: Round,
}

fn report(rt: &HostRuntime, what: &str, round: &Round, beside: &Yardstick) -> io::Result<()> {
    let speed = LEN as f64 / round.seconds / 1e9;
    let copy = beside.copy.seconds / round.seconds;
    let md5 = round.seconds / beside.md5.seconds;
    let made = round.made;
    println!(rt;
        "{what}: {speed:.3} GB/s, {copy:.3} of a copy's speed, {md5:.2} times the time of MD5 alone ({made})"
    )
}

// The best round of each kernel.
#[derive(Clone, Copy, Drop)]
struct Rounds {
    beside: Yardstick,
    crc: Round,
    pairs: Round,
}

fn rounds_of(rt: &HostRuntime, bytes: &[u8], copy: &mut Vec<u8>) -> io::Result<Rounds> {
    let md5 = kernel_round(rt, Kernel::Md5, bytes)?;
    let copy = copy_round(rt, bytes, copy)?;
    Ok(Rounds {
        beside: Yardstick { copy, md5 },
        crc: kernel_round(rt, Kernel::Crc32, bytes)?,
        pairs: kernel_round(rt, Kernel::Pairs, bytes)?,
    })
}

impl Rounds {
    fn better(self, other: Rounds) -> Rounds {
        Rounds {
            beside: Yardstick {
                copy: self.beside.copy.better(other.beside.copy),
                md5: self.beside.md5.better(other.beside.md5),
            },
            crc: self.crc.better(other.crc),
            pairs: self.pairs.better(other.pairs),
        }
    }
}

fn best_rounds(rt: &HostRuntime, bytes: &[u8], copy: &mut Vec<u8>) -> io::Result<Rounds> {
    let mut best = rounds_of(rt, bytes, copy)?;
    for _ in 1..ROUNDS {
        best = best.better(rounds_of(rt, bytes, copy)?);
    }
    Ok(best)
}

fn measure_kernels(rt: &HostRuntime, bytes: &[u8], copy: &mut Vec<u8>) -> io::Result<Yardstick> {
    let best = best_rounds(rt, bytes, copy)?;
    let beside = best.beside;
    report(rt, "a plain copy of the file", &beside.copy, &beside)?;
    report(rt, "MD5 of the file alone", &beside.md5, &beside)?;
    report(rt, "CRC-32 of the file", &best.crc, &beside)?;
    report(rt, "MD5 and CRC-32 of each slice", &best.pairs, &beside)?;
    Ok(beside)
}

fn measure_search(
    rt: &HostRuntime,
    what: &str,
    bytes: &[u8],
    pairs: &[Pair],
    beside: &Yardstick,
) -> io::Result<()> {
    let wanted = Wanted::new(rt.alloc(), pairs)?;
    report(rt, what, &best_search(rt, bytes, &wanted)?, beside)
}

fn measure_strangers(rt: &HostRuntime, bytes: &[u8], beside: &Yardstick) -> io::Result<()> {
    let pairs = strangers(rt.alloc(), PAIRS)?;
    let what = "search for 10,000 pairs, none is there";
    measure_search(rt, what, bytes, &pairs, beside)
}

fn measure_own(rt: &HostRuntime, bytes: &[u8], beside: &Yardstick) -> io::Result<()> {
    let pairs = pairs_of(rt.alloc(), bytes)?;
    let what = "search of the file for its own slices, all found";
    measure_search(rt, what, bytes, &pairs, beside)
}

fn measure_zeros(rt: &HostRuntime, bytes: &mut [u8], beside: &Yardstick) -> io::Result<()> {
    bytes.fill(0);
    let stranger = ([7; 16], crc32(b"stranger"));
    let pairs = [pair_of(b"\0", SLICE), stranger];
    let what = "search of zeros for a slice of zeros and another";
    measure_search(rt, what, bytes, &pairs, beside)
}

pub fn measure(rt: &HostRuntime) -> io::Result<()> {
    let bytes = random_bytes(rt.alloc(), LEN, 1)?;
    let mut copy = random_bytes(rt.alloc(), LEN, 2)?;
    println!(rt; "a file of {LEN} bytes, slices of {SLICE}; best of {ROUNDS} rounds")?;
    let beside = measure_kernels(rt, &bytes, &mut copy)?;
    measure_strangers(rt, &bytes, &beside)?;
    measure_own(rt, &bytes, &beside)?;
    measure_zeros(rt, &mut copy, &beside)
}
