ghost use Rattle.std.specs.Prelude.{◌≤◌};

use par2_slices::{Pair, pair_of, slice_bytes, slice_count};
use std::process::Abort;

// The checksum pairs of the slices of these bytes.
pub(crate) fn pairs_of(rt: &(impl Abort + AllocGlobal), bytes: &[u8], s: u64) -> Vec<Pair>
    requires { 1 ≤ s }
{
    let mut pairs = Vec::new(rt.alloc());
    for j in 0..slice_count(bytes.len() as u64, s) {
        pairs
            .push(pair_of(slice_bytes(bytes, s, j), s))
            .expect(rt, "memory");
    }
    pairs
}
