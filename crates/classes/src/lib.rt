// Functions on a curve, their growth at infinity, and accounts: the theorems on divisor classes. No code: each function stands
// for the theorems on its contract, so that the crate is refused without their proofs.
#![tactic(auto)]

ghost use Rattle.classes.specs.Theorems.{NeutralSettles, AloneSettles, SumSettles, BuiltSettles, StepsSettle, FunctionsClosed, GrowthAdds, GrowthConjugate, MembersIdeal};

// The neutral divisor settles the empty account, a valid divisor the account of itself alone, and the sum of two valid divisors
// the account of the two.
pub fn sums_settle()
    ensures neutral { NeutralSettles }
    ensures alone { AloneSettles }
    ensures sum { SumSettles }
{}

// Whatever is built by sums, doubles and negatives is valid and settles its account.
pub fn built_settles()
    ensures built { BuiltSettles }
    ensures steps { StepsSettle }
{}

// Sums and products of functions are functions, nonzero functions have nonzero products and norms, and growth adds up as the
// order at a point does.
pub fn growth_adds()
    ensures functions { FunctionsClosed }
    ensures product { GrowthAdds }
    ensures conjugate { GrowthConjugate }
{}

// The members of a valid divisor are an ideal.
pub fn members_are_ideals()
    ensures { MembersIdeal }
{}
