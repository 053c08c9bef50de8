//! Laws of rank and of rebuilt slices: when the surviving recovery slices determine the lost slices, and which lists of
//! slices agree with what survives. A kept exponent is one whose row is linearly independent of those of smaller ones.
//! Each law is the contract of an empty function.

ghost use Rattle.par2_spec.specs.Laws.{AnotherListAgrees, RebuiltSlicesAgree, TestsSayTheWords, TwoListsAgree};

/// The Boolean tests are equivalent to the definitions in words: `is_repairable` to `IsRepairable`, `kept` to `IsKept`,
/// `agrees` to `Agrees`. `restored_files` of `par2_repair` needs it.
pub fn tests_say_the_words()
    ensures { TestsSayTheWords }
{}

/// The rebuilt slices agree with the known slices and the recovery slices of the kept exponents if any list does. If
/// only one list agrees, the rebuilt slices are that list. `restored_files` of `par2_repair` needs it.
pub fn rebuilt_slices_agree()
    ensures { RebuiltSlicesAgree }
{}

/// If the lost slices are not determined, a list that agrees with everything that survives is not the only one, so a
/// repair can't tell which is the original one. `rebuild` of `par2_solve` needs it.
pub fn another_list_agrees()
    ensures { AnotherListAgrees }
{}

/// If the lost slices are not determined and slices have at least two bytes, at least two lists agree with the known
/// slices and the recovery slices of the kept exponents. `rebuild` of `par2_solve` needs it.
pub fn two_lists_agree()
    ensures { TwoListsAgree }
{}
