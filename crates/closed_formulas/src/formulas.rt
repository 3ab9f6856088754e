// The closed formulas for divisors [x² + a·x + b; c·x + e; 0], in straight-line field operations. Capital letters in comments are
// those of the second divisor.
ghost use Rattle.std.specs.Prelude.{◌≡◌, if◌then◌else◌};
ghost use Rattle.fields.specs.Arithmetic.{Arithmetic};
ghost use Rattle.mumford.specs.ClosedForms.{quotient as quotient_of, second as second_of, remaining as remaining_of, sum_fractions, sum_by, double_fractions, double_by};
ghost use Rattle.closed_formulas.specs.Formulas.{operations, sextic_letters, applicable as applies, slope as slope_of, lead_inverse};
ghost use Rattle.closed_formulas.specs.Letters.{quadratic_of, fractions_of, line_of, division_of, second_division_of};

use fields::Field;
use methods::Curve;

// u = x² + a·x + b and v = c·x + e
#[derive(Clone, Copy, Debug, PartialEq, Eq)]
pub struct Quadratic {
    pub a: u32,
    pub b: u32,
    pub c: u32,
    pub e: u32,
}

// s1 = p/r and s0 = o/r
#[derive(Clone, Copy, Debug, PartialEq, Eq)]
pub struct Fractions {
    pub r: u32,
    pub p: u32,
    pub o: u32,
}

// s = s1·x + s0, with s·(x² + A·x + B) = s1·x³ + L2·x² + L1·x + s0·B
#[derive(Clone, Copy, Debug, PartialEq, Eq)]
pub struct Line {
    pub s1: u32,
    pub s0: u32,
    pub l2: u32,
    pub l1: u32,
}

// f − v² = (x⁴ − a·x³ + k·x² + h·x + j)·u + m·x + l
#[derive(Clone, Copy, Debug, PartialEq, Eq)]
pub struct Quotient {
    pub k: u32,
    pub h: u32,
    pub j: u32,
    pub m: u32,
    pub l: u32,
}

// x⁴ − a·x³ + k·x² + h·x + j = (x² − 2·a·x + g)·u + K1·x + K0
#[derive(Clone, Copy, Debug, PartialEq, Eq)]
pub struct Second {
    pub g: u32,
    pub k1: u32,
    pub k0: u32,
}

fn difference<F: Field>(field: &F, x: u32, y: u32) -> u32
    ensures { (let K : Arithmetic = F.Field.meaning field.now in result ≡ K.plus x (K.minus y)) }
{
    field.sum(x, field.negative(y))
}

fn two<F: Field>(field: &F, x: u32) -> u32
    ensures { result ≡ (F.Field.meaning field.now).plus x x }
{
    field.sum(x, x)
}

// r = b·z1² − z0·z2, p = (e − E)·z1 − (c − C)·z0 and o = (e − E)·z2 − (c − C)·z1·b, with z0 = b − B, z1 = a − A and
// z2 = a·z1 − z0.
pub fn sum_fractions<F: Field>(field: &F, d1: Quadratic, d2: Quadratic) -> Fractions
    ensures { fractions_of result ≡ sum_fractions (operations (F.Field.meaning field.now)) (quadratic_of d1) (quadratic_of d2) }
{
    let z0 = difference(field, d1.b, d2.b);
    let z1 = difference(field, d1.a, d2.a);
    let z2 = difference(field, field.product(d1.a, z1), z0);
    let y1 = difference(field, d1.c, d2.c);
    let y0 = difference(field, d1.e, d2.e);
    let r = field.product(d1.b, field.product(z1, z1));
    let p = field.product(y0, z1);
    let o = field.product(y0, z2);
    Fractions {
        r: difference(field, r, field.product(z0, z2)),
        p: difference(field, p, field.product(y1, z0)),
        o: difference(field, o, field.product(field.product(y1, z1), d1.b)),
    }
}

// s1 = p/r and s0 = o/r, L2 = s0 + s1·A and L1 = s0·A + s1·B
pub fn slope<F: Field>(field: &F, d2: Quadratic, n: Fractions) -> Line
    ensures { line_of result ≡ slope_of (F.Field.meaning field.now) (quadratic_of d2) (fractions_of n) }
{
    let i = field.inverse(n.r);
    let s1 = field.product(n.p, i);
    let s0 = field.product(n.o, i);
    Line {
        s1,
        s0,
        l2: field.sum(s0, field.product(s1, d2.a)),
        l1: field.sum(field.product(s0, d2.a), field.product(s1, d2.b)),
    }
}

// 1/M, with M = 1 − s1²
pub fn lead_inverse<F: Field>(field: &F, s: Line) -> u32
    ensures { result ≡ lead_inverse (F.Field.meaning field.now) (line_of s) }
{
    field.inverse(difference(field, 1, field.product(s.s1, s.s1)))
}

// c' = −C − L1 + s1·b' − t·a' and e' = −E − s0·B − t·b', with t = s1·a' − L2
pub fn remaining<F: Field>(field: &F, d2: Quadratic, s: Line, a: u32, b: u32) -> Quadratic
    ensures { quadratic_of result ≡ remaining_of (operations (F.Field.meaning field.now)) (quadratic_of d2) (line_of s) a b }
{
    let t = difference(field, field.product(s.s1, a), s.l2);
    let c = difference(field, field.negative(d2.c), s.l1);
    let c = field.sum(c, field.product(s.s1, b));
    let e = difference(field, field.negative(d2.e), field.product(s.s0, d2.b));
    Quadratic {
        a,
        b,
        c: difference(field, c, field.product(t, a)),
        e: difference(field, e, field.product(t, b)),
    }
}

// The sum, where i = 1/M: a' = (−A − s1·(s0 + L2))/M − a, b' = (f4 − B + A² − s1·(L1 + 2C) − s0·L2)/M − b − a·a'.
pub fn sum_by<F: Field>(
    field: &F,
    curve: Curve,
    d1: Quadratic,
    d2: Quadratic,
    s: Line,
    i: u32,
) -> Quadratic
    ensures { quadratic_of result ≡ sum_by (operations (F.Field.meaning field.now)) (sextic_letters curve) (quadratic_of d1) (quadratic_of d2) (line_of s) i }
{
    let y = field.product(s.s1, field.sum(s.s0, s.l2));
    let a = field.product(difference(field, field.negative(d2.a), y), i);
    let a = difference(field, a, d1.a);
    let z = field.product(s.s1, field.sum(s.l1, two(field, d2.c)));
    let b = field.sum(difference(field, curve.f4, d2.b), field.product(d2.a, d2.a));
    let b = difference(field, difference(field, b, z), field.product(s.s0, s.l2));
    let b = difference(field, field.product(b, i), d1.b);
    let b = difference(field, b, field.product(d1.a, a));
    remaining(field, d2, s, a, b)
}

// f − v² divided by u: k = f4 + a² − b, h = f3 − k·a + a·b, j = f2 − c² − h·a − k·b, m = f1 − 2·c·e − j·a − h·b and
// l = f0 − e² − j·b.
pub fn divide<F: Field>(field: &F, curve: Curve, d: Quadratic) -> Quotient
    ensures { division_of result ≡ quotient_of (operations (F.Field.meaning field.now)) (sextic_letters curve) (quadratic_of d) }
{
    let k = difference(field, field.sum(curve.f4, field.product(d.a, d.a)), d.b);
    let h = difference(field, curve.f3, field.product(k, d.a));
    let h = field.sum(h, field.product(d.a, d.b));
    let j = difference(field, curve.f2, field.product(d.c, d.c));
    let j = difference(field, j, field.product(h, d.a));
    let j = difference(field, j, field.product(k, d.b));
    let m = difference(field, curve.f1, two(field, field.product(d.c, d.e)));
    let m = difference(field, m, field.product(j, d.a));
    let l = difference(field, curve.f0, field.product(d.e, d.e));
    Quotient {
        k,
        h,
        j,
        m: difference(field, m, field.product(h, d.b)),
        l: difference(field, l, field.product(j, d.b)),
    }
}

// The quotient divided by u: g = k + 2·a² − b, K1 = h − g·a + 2·a·b and K0 = j − g·b.
pub fn divide_again<F: Field>(field: &F, d: Quadratic, q: Quotient) -> Second
    ensures { second_division_of result ≡ second_of (operations (F.Field.meaning field.now)) (quadratic_of d) (division_of q) }
{
    let g = field.sum(q.k, two(field, field.product(d.a, d.a)));
    let g = difference(field, g, d.b);
    let k1 = difference(field, q.h, field.product(g, d.a));
    Second {
        g,
        k1: field.sum(k1, two(field, field.product(d.a, d.b))),
        k0: difference(field, q.j, field.product(g, d.b)),
    }
}

// r = 4·(a·c·e − e² − b·c²), p = 2·(c·K0 − e·K1) and o = 2·((a·c − e)·K0 − b·c·K1)
pub fn double_fractions<F: Field>(field: &F, d: Quadratic, t: Second) -> Fractions
    ensures { fractions_of result ≡ double_fractions (operations (F.Field.meaning field.now)) (quadratic_of d) (second_division_of t) }
{
    let ac = field.product(d.a, d.c);
    let r = difference(field, field.product(ac, d.e), field.product(d.e, d.e));
    let r = difference(field, r, field.product(d.b, field.product(d.c, d.c)));
    let p = difference(field, field.product(d.c, t.k0), field.product(d.e, t.k1));
    let o = field.product(difference(field, ac, d.e), t.k0);
    let o = difference(field, o, field.product(field.product(d.b, d.c), t.k1));
    Fractions {
        r: two(field, two(field, r)),
        p: two(field, p),
        o: two(field, o),
    }
}

// The double, where i = 1/M: a' = −2·(a + s0·s1)/M and b' = (g − 2·c·s1 − s0²)/M.
pub fn double_by<F: Field>(field: &F, d: Quadratic, t: Second, s: Line, i: u32) -> Quadratic
    ensures { quadratic_of result ≡ double_by (operations (F.Field.meaning field.now)) (quadratic_of d) (second_division_of t) (line_of s) i }
{
    let a = two(field, field.sum(d.a, field.product(s.s0, s.s1)));
    let a = field.product(field.negative(a), i);
    let b = difference(field, t.g, field.product(two(field, d.c), s.s1));
    let b = field.product(difference(field, b, field.product(s.s0, s.s0)), i);
    remaining(field, d, s, a, b)
}

// The fractions, where r ≠ 0 and p² ≠ r².
pub fn applicable<F: Field>(field: &F, n: Fractions) -> Option<Fractions>
    ensures { result ≡ (if applies (F.Field.meaning field.now) (fractions_of n) then Some n else None) }
{
    let applies = n.r != 0 && field.product(n.p, n.p) != field.product(n.r, n.r);
    applies.then_some(n)
}
