//! Products of thirty-two words at a time. A word is the sum of its four nibbles, each in its place, so its product is
//! the sum of four products, which are looked up.

ghost use Rattle.std.specs.Prelude.{◌≡◌, ℕ, ◌*◌, ◌/◌, ◌%◌, ◌^◌, ◌<◌, slice_index};
ghost use Rattle.par2_spec.specs.Prelude.{mul};
ghost use Rattle.par2_gf16.specs.Words.{IsTable, lane_of, word_in, word_of};
ghost use Rattle.par2_gf16.specs.Tables.{AddsTo};

use crate::lanes;
use crate::tables::doubled;
use crate::vectors::WordVector;
use std::marker::Model;
use std::simd::prelude::*;

const NIBBLES: [u16; 16] = [0, 1, 2, 3, 4, 5, 6, 7, 8, 9, 10, 11, 12, 13, 14, 15];

// The products of one element and each nibble: their lower and their higher bytes.
#[derive(Drop)]
struct NibbleProducts {
    element: u16,
    low: u8x32,
    high: u8x32,
    ghost fits: { element < 2 ^ 16 },
    ghost lows: { IsTable (λ n. mul element n % 256) low },
    ghost highs: { IsTable (λ n. mul element n / 256) high },
}

impl NibbleProducts {
    // Computes the element's products with the sixteen nibbles.
    #[inline(always)]
    fn new(element: u16) -> NibbleProducts
        ensures { result.element ≡ element }
    {
        let products = lanes::product_lanes(element, u16x16::from_array(NIBBLES), 4);
        // A look-up indexes each half of a vector by itself, so the table is there twice.
        let products = lanes::twice(products);
        let low = lanes::lower_bytes(products);
        let high = lanes::higher_bytes(products);
        NibbleProducts { element, low, high }
    }

    // The products of the element and each of these nibbles.
    #[inline(always)]
    fn times(&self, nibbles: u8x32) -> WordVector
        requires { (i : ℕ) → slice_index nibbles i < 16 }
        ensures { (j : ℕ) → j < 32
            → word_in result j ≡ mul self.now.element (slice_index nibbles (lane_of j)) }
    {
        WordVector {
            low: lanes::looked_up(self.low, nibbles),
            high: lanes::looked_up(self.high, nibbles),
        }
    }
}

/// An element prepared for many bytes: its products with the nibbles at each of the four places of a word.
#[derive(Drop)]
pub struct Factor {
    first: NibbleProducts,
    second: NibbleProducts,
    third: NibbleProducts,
    fourth: NibbleProducts,
}

impl Model for Factor {
    ghost Value = { ℕ };

    ghost view = { λ f. f.first.element };

    ghost invariant = { λ f. (f.second.element ≡ mul f.first.element 16)
        × (f.third.element ≡ mul f.first.element 256)
        × (f.fourth.element ≡ mul f.first.element 4096) };
}

impl Factor {
    /// Prepares the element: computes its products with the nibbles at each place of a word.
    #[inline(always)]
    pub fn new(element: u16) -> Factor
        ensures { result ≡ element }
    {
        let second = sixteen_times(element);
        let third = sixteen_times(second);
        let fourth = sixteen_times(third);
        Factor {
            first: NibbleProducts::new(element),
            second: NibbleProducts::new(second),
            third: NibbleProducts::new(third),
            fourth: NibbleProducts::new(fourth),
        }
    }

    /// The products of the element and each of the words.
    #[inline(always)]
    pub fn times(&self, words: WordVector) -> WordVector
        ensures { (j : ℕ) → j < 32 → word_in result j ≡ mul self.now (word_in words j) }
    {
        let first = self.first.times(lanes::low_nibbles(words.low));
        let second = self.second.times(lanes::high_nibbles(words.low));
        let third = self.third.times(lanes::low_nibbles(words.high));
        let fourth = self.fourth.times(lanes::high_nibbles(words.high));
        first.plus(second).plus(third.plus(fourth))
    }

    /// Adds the product of the element and each word of the vectors to the little-endian word of `dst` at the same
    /// position, for as many words as `dst` has. Words past the end of the vectors are zero. The last byte of a `dst` of
    /// odd length isn't part of a word, and may change.
    pub fn add_products(&self, vectors: &[WordVector], dst: &mut [u8])
        ensures { AddsTo (λ p. mul self.now (word_of vectors.now p)) dst.old dst.new }
    {
        for k in 0..dst.len().div_ceil(64).min(vectors.len()) {
            self.times(vectors[k]).add_to(dst, 32 * k);
        }
    }
}

// The product of 16 and the element x: a nibble at the next place is 16 times as much.
#[inline(always)]
fn sixteen_times(x: u16) -> u16
    ensures { result ≡ mul x 16 }
{
    doubled(doubled(doubled(doubled(x))))
}
