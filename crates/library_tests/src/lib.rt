//! Tests of the library crates below par2_verify and par2_create, through their public calls: digests, the field,
//! elimination, the transform, slices and their search, packets, sets, recovery slices and rebuilding, folders and
//! stores. Nothing depends on this crate. It must not use what those crates keep private.
//!
//! A file is named after the crate that it tests, without `par2_`; a further word says which part. `calls`, `pairs`,
//! `plain_elimination`, `plain_field` and `set_packets` are for several of them.
#![tactic(auto)]

#[cfg(test)]
mod calls;
#[cfg(test)]
mod disk_reading;
#[cfg(test)]
mod files;
#[cfg(test)]
mod gf16;
#[cfg(test)]
mod matrix;
#[cfg(test)]
mod matrix_ranks;
#[cfg(test)]
mod md5_lanes;
#[cfg(test)]
mod md5_lanes_midstates;
#[cfg(test)]
mod packets;
#[cfg(test)]
mod pairs;
#[cfg(test)]
mod plain_elimination;
#[cfg(test)]
mod plain_field;
#[cfg(test)]
mod recovery;
#[cfg(test)]
mod recovery_choices;
#[cfg(test)]
mod recovery_records;
#[cfg(test)]
mod set_packets;
#[cfg(test)]
mod sets;
#[cfg(test)]
mod sets_asides;
#[cfg(test)]
mod slices;
#[cfg(test)]
mod slices_intact;
#[cfg(test)]
mod slices_matching;
#[cfg(test)]
mod slices_windows;
#[cfg(test)]
mod solve_many_lost;
#[cfg(test)]
mod solve_rebuilds;
#[cfg(test)]
mod stores;
#[cfg(test)]
mod transform;
