//! The law of inverses in the field GF(2^16), whose elements are the numbers below 2^16. It is the contract of an empty
//! function, which nothing calls.

ghost use Rattle.par2_spec.specs.Laws.{HaveOneInverse};

/// Each nonzero element has exactly one inverse, by which elimination divides.
pub fn inverses()
    ensures { HaveOneInverse }
{}
