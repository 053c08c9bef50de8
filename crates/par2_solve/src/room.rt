//! How much memory may be taken beside the slices: for columns of recovery slices, and for the transform's rows, by
//! which they are computed. Creating takes all of it for rows (`whole_room`); a repair also keeps columns
//! (`columns_at_once`).

ghost use Rattle.std.specs.Prelude.{◌≡◌, ◌%◌, ◌<◌, ◌≤◌};

// The memory that columns and rows may take together, beside a part of the slices, in bytes. A quarter is for columns.
const ROOM: usize = 1024 * 1024;

// The memory of a recovery slice's columns beside their bytes: their `Vec` and the allocator's overhead.
const OVERHEAD: usize = 40;

// The number of columns in a block is a multiple of this: the bytes of 32 words, the unit of the transform's rows.
const STEP: usize = 64;

// The most steps of a row.
const WIDEST: usize = 32;

// The number of outputs, rounded up to a power of 2. The transform has three rows for each.
fn rounded(count: usize) -> usize
    ensures some { 1 ≤ result }
    ensures few { result < 131072 }
{
    count.clamp(1, 65536).next_power_of_two()
}

// A quarter of the memory that computing `count` recovery slices may take, in bytes: that of a 64th of the slices, or of
// up to a 16th until rows are as wide as they get, because narrow rows are slow.
fn quarter(slices: &[&[u8]], count: usize) -> usize {
    let lens = slices.iter().map(|slice| slice.len());
    let total = lens.fold(0usize, |total, len| total.saturating_add(len));
    let widest = rounded(count) * WIDEST * STEP;
    (total / 64).min(widest).max(total / 256) + ROOM / 4
}

/// The memory that computing `count` recovery slices may take, in bytes, if there are no columns beside it, as when a set
/// is created.
pub(crate) fn whole_room(slices: &[&[u8]], count: usize) -> usize {
    quarter(slices, count).saturating_mul(4)
}

/// The memory that the transform's rows may take in a repair, in bytes: three quarters of the memory allowed.
pub(crate) fn rows_room(slices: &[&[u8]], count: usize) -> usize {
    quarter(slices, count).saturating_mul(3)
}

/// How many columns, in bytes, of `count` recovery slices over slices of `size` bytes are computed at a time. Blocks
/// are about equal and at most a whole number of the transform's rows. For each block, these columns of all slices are
/// read.
pub(crate) fn columns_at_once(slices: &[&[u8]], count: usize, size: usize) -> usize
    ensures some { 1 ≤ result }
    ensures even { result % 2 ≡ 0 }
{
    let each = (quarter(slices, count) / count.max(1)).saturating_sub(OVERHEAD);
    let steps = (each / STEP).max(1);
    let rows = 3 * rounded(count);
    let row = (rows_room(slices, count) / rows / STEP).clamp(1, WIDEST);
    let rest = steps % row;
    let most = if steps > row { steps - rest } else { steps };
    let all = size.div_ceil(STEP);
    let blocks = all.div_ceil(most).max(1);
    all.div_ceil(blocks).clamp(1, most) * STEP
}
