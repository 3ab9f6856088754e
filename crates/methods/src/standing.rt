// Theorems on divisors and their sums, over every lawful field. These functions compute nothing: the theorems are what they
// ensure.
ghost use Rattle.std.specs.Prelude.{◌≡◌, true};
ghost use Rattle.fields.specs.Arithmetic.{Arithmetic};
ghost use Rattle.methods.specs.Theorems.{RootPart, CompositionWellDefined, CompositesFair, StepsValid, SumsValid, DoublesValid, NegativesValid};
ghost use Rattle.methods.specs.Worked.{all_right, cases};

use crate::curve::Curve;

// Sums are well defined: V is the polynomial part of the square root of f, a composite does not depend on the choice of its
// cofactors, and what a step makes of one is valid, and so are sums, doubles and negatives.
pub fn sums_stand()
    ensures root { (K : Arithmetic) (C : Curve) → RootPart K C }
    ensures composition { (K : Arithmetic) (C : Curve) → CompositionWellDefined K C }
    ensures composites { (K : Arithmetic) (C : Curve) → CompositesFair K C }
    ensures steps { (K : Arithmetic) (C : Curve) → StepsValid K C }
    ensures sums { (K : Arithmetic) (C : Curve) → SumsValid K C }
    ensures doubles { (K : Arithmetic) (C : Curve) → DoublesValid K C }
    ensures negatives { (K : Arithmetic) (C : Curve) → NegativesValid K C }
{}

// The sums that are worked by hand are those of the definitions.
pub fn worked_sums_stand()
    ensures { all_right cases ≡ true }
{}
