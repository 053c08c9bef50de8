//! Sums of products, of buffers whose lengths are tested first.

ghost use Rattle.std.specs.Prelude.{◌≡◌, ◌%◌, length, IsTrue};

use par2_gf16::Gf;

fn are_alike(src: &[u8], dst: &[u8]) -> bool
    ensures same { IsTrue result → length src.now ≡ length dst.now }
    ensures even { IsTrue result → length dst.now % 2 ≡ 0 }
{
    src.len() == dst.len() && dst.len() % 2 == 0
}

fn add(gf: &Gf, factor: u16, src: &[u8], dst: &mut [u8]) {
    if are_alike(src, dst) {
        gf.mul_add(factor, src, dst);
    }
}

/// Adds the products by one factor after the other.
pub fn add_products(gf: &Gf, rounds: u64, src: &[u8], dst: &mut [u8]) {
    let mut factor = 3u16;
    for _ in 0..rounds {
        add(gf, factor, src, dst);
        factor = factor.wrapping_mul(5).wrapping_add(7);
    }
}
