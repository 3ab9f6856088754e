// Pairs over a field: the field below with a square root of one of its elements adjoined.
ghost use Rattle.std.specs.Prelude.{◌≡◌, ◌*◌, ◌/◌, ◌%◌, ◌<◌, ◌≤◌, IfOk, Ok, Err, Some, None, MatchResult};
ghost use Rattle.fields.specs.Lawful.{Lawful};
ghost use Rattle.fields.specs.Pairs.{join, pairs, square_below, pairs_answer, RootTold};

use crate::field::Field;
use crate::refusal::FieldRefusal;

// Code a + q·b stands for a + b·t, where q is the size of the field below, t² = r, and r is no square below.
#[derive(Debug, Drop, PartialEq, Eq, Hash)]
pub struct Pairs<F: Field> {
    below: F,
    q: u8,
    r: u32,
}

impl<F: Field> Pairs<F> {
    // The pairs with t² = r over a field of at most 255 elements; or the field below unaltered, with the refusal.
    #[tactic(auto, using(crate::proofs::LawfulPairs::root_told))]
    pub fn over(below: F, r: u32) -> Result<Pairs<F>, (F, FieldRefusal)>
        ensures answer { MatchResult result (λ _. pairs_answer (F.Field.meaning below) r ≡ Ok tt) (λ e. pairs_answer (F.Field.meaning below) r ≡ Err e.1) }
        ensures holds { MatchResult result (λ p. (p.below ≡ below) × (p.q ≡ (F.Field.meaning below).size) × (p.r ≡ r)) (λ e. e.0 ≡ below) }
        ensures told { RootTold (F.Field.meaning below) r (pairs_answer (F.Field.meaning below) r) }
        ensures lawful { Lawful (F.Field.meaning below) → IfOk result (λ p. Lawful (pairs (F.Field.meaning p.below) p.q p.r)) }
    {
        let size = below.size();
        let Ok(q) = u8::try_from(size) else {
            return Err((below, FieldRefusal::TooManyElements));
        };
        if r >= size {
            return Err((below, FieldRefusal::NotACode));
        }
        if is_square(&below, r, size) {
            return Err((below, FieldRefusal::Square));
        }
        Ok(Pairs { below, q, r })
    }

    // x and y of the element x + y·t that a code stands for.
    fn parts(&self, a: u32) -> Option<(u32, u32)>
        ensures code { a < self.now.q * self.now.q → result ≡ Some (a % self.now.q, a / self.now.q) }
        ensures outside { self.now.q * self.now.q ≤ a → result ≡ None }
    {
        let q = u32::from(self.q);
        (a < q * q).then(|| (a % q, a / q))
    }

    // The code of x + y·t.
    fn joined(&self, x: u32, y: u32) -> u32
        ensures { result ≡ join self.now.q x y }
    {
        let q = u32::from(self.q);
        if x < q && y < q { x + q * y } else { 0 }
    }
}

impl<F: Field> Field for Pairs<F> {
    ghost meaning = { λ p. pairs (F.Field.meaning p.below) p.q p.r };

    fn size(&self) -> u32 {
        u32::from(self.q) * u32::from(self.q)
    }

    fn sum(&self, a: u32, b: u32) -> u32 {
        let (Some((x, y)), Some((u, v))) = (self.parts(a), self.parts(b)) else {
            return 0;
        };
        self.joined(self.below.sum(x, u), self.below.sum(y, v))
    }

    // (x + y·t)·(u + v·t) = x·u + y·v·r + (x·v + y·u)·t
    fn product(&self, a: u32, b: u32) -> u32 {
        let (Some((x, y)), Some((u, v))) = (self.parts(a), self.parts(b)) else {
            return 0;
        };
        let below = &self.below;
        let first = below.sum(
            below.product(x, u),
            below.product(below.product(y, v), self.r),
        );
        let second = below.sum(below.product(x, v), below.product(y, u));
        self.joined(first, second)
    }

    fn negative(&self, a: u32) -> u32 {
        let Some((x, y)) = self.parts(a) else {
            return 0;
        };
        self.joined(self.below.negative(x), self.below.negative(y))
    }

    // The inverse of x + y·t is (x − y·t)/(x² − y²·r).
    fn inverse(&self, a: u32) -> u32 {
        let Some((x, y)) = self.parts(a) else {
            return 0;
        };
        let below = &self.below;
        let square = below.product(y, y);
        let norm = below.sum(
            below.product(x, x),
            below.negative(below.product(square, self.r)),
        );
        let over = below.inverse(norm);
        self.joined(
            below.product(x, over),
            below.product(below.negative(y), over),
        )
    }
}

// Whether r is the square of a code below n.
fn is_square<F: Field>(field: &F, r: u32, n: u32) -> bool
    ensures { result ≡ square_below (F.Field.meaning field.now) r n }
{
    (0..n).any(|x| field.product(x, x) == r)
}
