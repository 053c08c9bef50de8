//! Recovery slices with their exponents: those to be computed, with the places where they go, and those that survive.

ghost use Rattle.std.specs.Prelude.{◌≡◌, length};

use par2_transform::Places;

/// Outputs, and the exponent of each, whose recovery slice is added to it.
#[derive(Clone, Copy)]
pub(crate) struct Targets<'a, 'b> {
    pub(crate) exponents: &'a [u32],
    pub(crate) outputs: Places<'b>,
    ghost count: { length exponents.now ≡ length outputs.places.now },
}

/// Recovery slices, and the exponent of each.
#[derive(Clone, Copy)]
pub(crate) struct Recovered<'a> {
    pub(crate) exponents: &'a [u32],
    pub(crate) slices: &'a [&'a [u8]],
    ghost count: { length exponents.now ≡ length slices.now },
}
