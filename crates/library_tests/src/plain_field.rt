//! Products, bit by bit, and powers, which share no code with what they are compared with.

ghost use Rattle.std.specs.Prelude.{◌≡◌, ◌<◌};

// The product of two polynomials over GF(2), reduced by the generator.
pub(super) fn product(a: u16, b: u16) -> u16 {
    let mut sum = 0;
    let mut shifted = a;
    for bit in 0..16u32 {
        if (b >> bit) & 1 == 1 {
            sum ^= shifted;
        }
        shifted = if shifted < 0x8000 {
            shifted << 1
        } else {
            (shifted << 1) ^ 0x100b
        };
    }
    sum
}

pub(super) fn power(a: u16, e: u32) -> u16 {
    let mut outcome = 1;
    let mut square = a;
    for bit in 0..32u32 {
        if (e >> bit) & 1 == 1 {
            outcome = product(outcome, square);
        }
        square = product(square, square);
    }
    outcome
}
