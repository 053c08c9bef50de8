//! Cuts files into slices, computes the checksums of slices, and searches files for slices by these checksums.
//! Creating, verifying and repairing sets build on it. It works on bytes in memory and doesn't know names, packets or
//! stores. `pairs_of` creates checksums, `matched` and `is_intact` verify files, and `found_windows` finds the slices
//! in damaged ones.
#![tactic(auto)]

mod checksum;
mod matching;
mod search;
mod wanted;

pub use checksum::{
    MOST_SLICES, Pair, Rolling, crc32, is_slice_size, padded_crc32, padded_md5, pair_of, pairs_of,
    slice_bytes, slice_count, slice_into, window_bytes,
};
pub use matching::{Target, is_intact, matched, matches_by_number_are_by_name};
pub use search::{Position, find, find_among, found_windows};
pub use wanted::Wanted;
