// Commutative algebra for proofs: rings, the ring solver, polynomials. No code: what it holds stands in specs/ and proofs/.
#![tactic(auto)]
