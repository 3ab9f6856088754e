// Drafts of curves, which can be changed, and models, which the check has accepted.
ghost use Rattle.std.specs.Prelude.{◌≡◌, Ok, Err, MatchResult};
ghost use Rattle.fields.specs.Lawful.{Lawful};
ghost use Rattle.methods.specs.Curves.{coefficients_are_codes, smooth, curve_answer};
ghost use Rattle.methods.specs.Drafts.{drafted, changed};

use crate::codes::are_codes;
use crate::curve::{Curve, CurveRefusal, sextic};
use fields::Field;
use polynomials::{degree, derivative, gcd};

// One of the five coefficients of a curve.
#[derive(Clone, Copy, Debug, PartialEq, Eq, Hash)]
pub enum Coefficient {
    F4,
    F3,
    F2,
    F1,
    F0,
}

// A curve in the making: five numbers, at first 0. It is no curve yet, and nothing that adds divisors takes a draft: the build
// refuses to add on one. The check moves it away: the build refuses to change or to look at a draft that the check took, so
// begin a new one, or go on with the one that comes back with a refusal.
#[derive(Debug, Drop)]
pub struct Draft {
    curve: Curve,
}

// A field and a curve that the check has accepted. Its parts are private, and nothing but the check makes one.
#[derive(Debug, Drop)]
pub struct Model<F> {
    field: F,
    curve: Curve,
}

impl Draft {
    // A new draft, of five zeros.
    pub fn new() -> Draft
        ensures { drafted result ≡ record { f4 = 0; f3 = 0; f2 = 0; f1 = 0; f0 = 0 } }
    {
        Draft {
            curve: Curve {
                f4: 0,
                f3: 0,
                f2: 0,
                f1: 0,
                f0: 0,
            },
        }
    }

    // Sets one of the five coefficients to any number. A draft has one change, told which coefficient it sets, as the rules of
    // the calculator have it; so there are no five calls here.
    pub fn change(&mut self, which: Coefficient, value: u32)
        ensures { drafted self.new ≡ changed (drafted self.old) which value }
    {
        match which {
            Coefficient::F4 => self.curve.f4 = value,
            Coefficient::F3 => self.curve.f3 = value,
            Coefficient::F2 => self.curve.f2 = value,
            Coefficient::F1 => self.curve.f1 = value,
            Coefficient::F0 => self.curve.f0 = value,
        }
    }
}

// Written out and not derived: that would need a default curve, and five zeros are none, since no check accepts y² = x⁶.
impl Default for Draft {
    ghost is_default = { λ draft. drafted draft ≡ record { f4 = 0; f3 = 0; f2 = 0; f1 = 0; f0 = 0 } };

    fn default() -> Draft {
        Draft::new()
    }
}

// The draft that holds the coefficients of a curve, in place of five changes.
impl From<Curve> for Draft {
    ghost from_gives = { λ curve draft. drafted draft ≡ curve };

    fn from(curve: Curve) -> Draft {
        Draft { curve }
    }
}

impl<F: Field> Model<F> {
    // Takes a field and a draft: a model of them, or both back unaltered with the refusal, 5 before 8.
    pub fn check(field: F, draft: Draft) -> Result<Model<F>, (F, Draft, CurveRefusal)>
        ensures answer { Lawful (F.Field.meaning field) → MatchResult result (λ _. curve_answer (F.Field.meaning field) (drafted draft) ≡ Ok tt) (λ e. curve_answer (F.Field.meaning field) (drafted draft) ≡ Err e.2) }
        ensures holds { MatchResult result (λ m. (m.field ≡ field) × (m.curve ≡ drafted draft)) (λ e. (e.0 ≡ field) × (e.1 ≡ draft)) }
    {
        let curve = draft.curve;
        if !has_codes(&field, curve) {
            return Err((field, draft, CurveRefusal::NotACode));
        }
        if !is_smooth(&field, curve) {
            return Err((field, draft, CurveRefusal::Singular));
        }
        Ok(Model { field, curve })
    }

    // The field of the model.
    pub fn field(&self) -> &F
        ensures { result.now ≡ self.now.field }
    {
        &self.field
    }

    // The curve of the model.
    pub fn curve(&self) -> Curve
        ensures { result ≡ self.now.curve }
    {
        self.curve
    }
}

// Whether the five coefficients are codes.
fn has_codes<F: Field>(field: &F, curve: Curve) -> bool
    ensures { result ≡ coefficients_are_codes (F.Field.meaning field.now) curve }
{
    let Curve { f4, f3, f2, f1, f0 } = curve;
    are_codes(field, &[f4, f3, f2, f1, f0])
}

// Whether f and its derivative have no common factor.
#[tactic(auto, unfolding(crate::specs::Curves::smooth))]
fn is_smooth<F: Field>(field: &F, curve: Curve) -> bool
    ensures { Lawful (F.Field.meaning field.now) → result ≡ smooth (F.Field.meaning field.now) curve }
{
    let f = sextic(field, curve);
    let shared = gcd(field, f, derivative(field, f));
    degree(field, shared.divisor) == Some(0)
}
