// Divisor classes on y² = f(x) in Mumford representation, over any ring of polynomials. No code: what it holds stands in
// specs/ and proofs/.
#![tactic(auto)]
