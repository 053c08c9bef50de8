//! The field by tables of logarithms and powers. The powers of 2 come by `doubled`: a shift, reduced by the polynomial
//! 0x1100B (PAR2 2.0).

ghost use Rattle.std.specs.Prelude.{◌≡◌, ◌<◌, ◌≤◌, ◌↔◌, ◌+◌, ◌*◌, ◌/◌, ◌%◌, length, slice_index, IfOk, IfSome, IsNone};
ghost use Rattle.par2_spec.specs.Prelude.{mul, pow, constant, is_coprime};
ghost use Rattle.par2_gf16.specs.Tables.{IsInverse, AddsProducts, AreTables};

use crate::factor::Factor;
use crate::vectors::WordVector;
use par2_spec::Result;
use std::alloc::Global;

// The order of 2, whose powers are all elements but zero.
const ORDER: u16 = 65535;

// The number of slice constants: this many exponents below 65,535 are coprime to it (PAR2 2.0).
const CONSTANTS: u32 = 32768;

// `n` zeros. For the prover: the length is a variable, so that no search computes a list of that length.
fn blank(alloc: Global, n: usize) -> Result<Vec<u16>>
    ensures { IfOk result (λ v. length v.items ≡ n) }
{
    vec![in alloc; 0u16; n]
}

// Whether 2 ^ n is a slice constant, which means that `n` is coprime to 65,535 (PAR2 2.0).
fn is_constant_power(n: u16) -> bool
    ensures { result ≡ is_coprime n }
{
    n % 3 != 0 && n % 5 != 0 && n % 17 != 0 && n % 257 != 0
}

/// The field, with tables of the powers of 2, their logarithms and the constants of input slices. The tables take about
/// 450 KB.
#[derive(Drop)]
pub struct Gf {
    logs: Vec<u16>,
    powers: Vec<u16>,
    constants: Vec<u16>,
    ghost tables: { AreTables logs.items powers.items constants.items },
}

impl Gf {
    /// Fills the tables. Fails only when memory runs out.
    pub fn new(alloc: Global) -> Result<Gf> {
        let mut logs = blank(alloc, 65536)?;
        let mut powers = Vec::new(alloc);
        let mut constants = Vec::new(alloc);
        let mut x = 1u16;
        for i in 0..ORDER {
            powers.push(x)?;
            logs[x as usize] = i;
            if is_constant_power(i) {
                constants.push(x)?;
            }
            x = doubled(x);
        }
        for j in 0..ORDER {
            powers.push(x)?;
            x = doubled(x);
        }
        Ok(Gf {
            logs,
            powers,
            constants,
        })
    }

    /// The product of two elements.
    pub fn mul(&self, a: u16, b: u16) -> u16
        ensures { result ≡ mul a b }
    {
        if a == 0 || b == 0 {
            return 0;
        }
        self.power(self.log(a) as usize + self.log(b) as usize)
    }

    /// `a` to the power `e`, which is 1 if `e` is 0, even for zero.
    pub fn pow(&self, a: u16, e: u32) -> u16
        ensures { result ≡ pow a e }
    {
        if e == 0 {
            return 1;
        }
        if a == 0 {
            return 0;
        }
        let exponent = self.log(a) as u64 * e as u64 % ORDER as u64;
        self.power(exponent as usize)
    }

    /// The multiplicative inverse of `a`; None for zero, which has none.
    pub fn inv(&self, a: u16) -> Option<u16>
        ensures none { IsNone result ↔ (a ≡ 0) }
        ensures inverse { IfSome result (IsInverse a) }
    {
        if a == 0 {
            None
        } else {
            Some(self.power((ORDER - self.log(a)) as usize))
        }
    }

    /// The constant of input slice `k`, counted from 0: its factor in the recovery slice of exponent 1. There are
    /// 32,768 constants.
    pub fn constant(&self, k: u32) -> Option<u16>
        ensures none { IsNone result ↔ (32768 ≤ k) }
        ensures value { IfSome result (λ c. c ≡ constant k) }
    {
        if k < CONSTANTS {
            Some(self.constants[k as usize])
        } else {
            None
        }
    }

    /// Adds to each little-endian word of `dst` the product of `c` and the word of `src`. It computes a factor for
    /// these bytes alone. Only tests and benchmarks call it.
    pub fn mul_add(&self, c: u16, src: &[u8], dst: &mut [u8])
        requires same { length src.now ≡ length dst.old }
        requires even { length dst.old % 2 ≡ 0 }
        ensures { AddsProducts c src.now dst.old dst.new }
    {
        self.mul_add_by(&Factor::new(c), src, dst);
    }

    /// Adds to each little-endian word of `dst` the product of the factor and the word of `src`, where words past its end
    /// are zero. The last byte of a `dst` of odd length isn't part of a word, and may change. Use it for one factor over
    /// many buffers: a factor takes some tens of nanoseconds to compute.
    pub fn mul_add_by(&self, factor: &Factor, src: &[u8], dst: &mut [u8])
        ensures { AddsProducts factor.now src.now dst.old dst.new }
    {
        for k in 0..dst.len().min(src.len()).div_ceil(64) {
            let words = WordVector::padded(src, 32 * k);
            factor.times(words).add_to(dst, 32 * k);
        }
    }

    // The logarithm of `a`: the exponent, below 65,535, of the power of 2 that is `a`.
    #[inline(always)]
    fn log(&self, a: u16) -> u16
        requires { 0 < a }
        ensures below { result < 65535 }
        ensures value { pow 2 result ≡ a }
    {
        self.logs[a as usize]
    }

    // 2 to the power `n`, from the table, which reaches as far as the sum of two logarithms.
    #[inline(always)]
    fn power(&self, n: usize) -> u16
        requires { n < 131070 }
        ensures { result ≡ pow 2 n }
    {
        self.powers[n]
    }
}

/// The product of 2 and the element x.
#[inline(always)]
pub(crate) fn doubled(x: u16) -> u16
    ensures { result ≡ mul 2 x }
{
    if x & 0x8000 == 0 {
        x << 1
    } else {
        (x << 1) ^ 0x100B
    }
}
