// Two calculators that are sent the same calls.
ghost use Rattle.std.specs.Prelude.{◌≡◌};
ghost use Rattle.methods.specs.Methods.{LawfulMethod, the_law};
ghost use Rattle.closed_formulas.specs.Formulas.{closed as closed_law};
ghost use Rattle.calculator.specs.Calculators.{compared_calls, first_answers, second_answers, Fresh, Sound, LeftAll, SameModel, Agree};

use crate::calculator::Calculator;
use crate::call::{Answer, Call};
use closed_formulas::Closed;
use fields::Field;
use methods::{ByPolynomials, Method};

// A call with the places for the answers of two calculators. An `Exchange` with a pair would number what has names here.
#[derive(Clone, Copy, Debug, PartialEq, Eq, Hash)]
pub struct Comparison {
    pub call: Call,
    pub first: Answer,
    pub second: Answer,
}

// Sends each call to both calculators. Over fields of one meaning and on the same curve, fresh calculators with any two lawful
// methods agree.
#[tactic(auto, using(crate::proofs::Loops::all_done, crate::proofs::Agreeing::agreement))]
pub fn compare<F: Field, G: Field, M: Method<F>, N: Method<G>>(
    one: &mut Calculator<F, M>,
    other: &mut Calculator<G, N>,
    comparisons: &mut [Comparison],
)
    ensures calls { compared_calls comparisons.new ≡ compared_calls comparisons.old }
    ensures first { LeftAll F.Field M.Method.answers (compared_calls comparisons.old) one.old one.new (first_answers comparisons.new) }
    ensures second { LeftAll G.Field N.Method.answers (compared_calls comparisons.old) other.old other.new (second_answers comparisons.new) }
    ensures agree { SameModel F.Field G.Field one.old other.old → Sound F.Field M.Method.answers one.old → LawfulMethod N.Method.answers → Fresh one.old → Fresh other.old → Agree (first_answers comparisons.new) (second_answers comparisons.new) one.new other.new }
{
    for comparison in comparisons.iter_mut() {
        comparison.first = one.send(comparison.call);
        comparison.second = other.send(comparison.call);
    }
}

// Sends each call to a calculator with closed formulas over any method and to one with the polynomial method. Over fields of one
// meaning and on the same curve, fresh ones agree, whatever the method underneath, if it is lawful. It is `compare` at these
// methods, but promises more: that either is lawful is proved here, where `compare` leaves it to the caller.
#[tactic(auto, using(closed_formulas::proofs::Lawful::closed_lawful))]
pub fn agree<F: Field, G: Field, M: Method<F>>(
    closed: &mut Calculator<F, Closed<M>>,
    plain: &mut Calculator<G, ByPolynomials>,
    comparisons: &mut [Comparison],
)
    ensures calls { compared_calls comparisons.new ≡ compared_calls comparisons.old }
    ensures first { LeftAll F.Field (closed_law M.Method.answers) (compared_calls comparisons.old) closed.old closed.new (first_answers comparisons.new) }
    ensures second { LeftAll G.Field the_law (compared_calls comparisons.old) plain.old plain.new (second_answers comparisons.new) }
    ensures agree { SameModel F.Field G.Field closed.old plain.old → Sound F.Field M.Method.answers closed.old → Fresh closed.old → Fresh plain.old → Agree (first_answers comparisons.new) (second_answers comparisons.new) closed.new plain.new }
{
    compare(closed, plain, comparisons);
}
