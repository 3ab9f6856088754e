// Tests of the closed formulas. That their answers are sums is proved; which divisors they answer themselves is seen over a
// method that refuses everything.
#![tactic(auto)]

mod refusing;

#[cfg(test)]
mod tests {
    use crate::refusing::Refusing;
    use closed_formulas::Closed;
    use fields::Residues;
    use methods::{Curve, Divisor, DivisorRefusal, Linear, Method};

    // y² = x⁶ + 1
    const CURVE: Curve = Curve {
        f4: 0,
        f3: 0,
        f2: 0,
        f1: 0,
        f0: 1,
    };

    // the inverses modulo 7
    const TABLE: [u16; 7] = [0, 1, 4, 5, 2, 3, 6];

    // [x² + a·x + b; c·x + e; 0]
    fn quadratic(a: u32, b: u32, c: u32, e: u32) -> Divisor {
        Divisor::of_degree_2(Linear { x1: a, x0: b }, Linear { x1: c, x0: e })
    }

    // What the method underneath answers: refusal 4.
    const UNDERNEATH: Result<Divisor, DivisorRefusal> = Err(DivisorRefusal::Shape);

    // By the formulas alone: over a method that refuses everything with 4.
    fn sum(d: Divisor, e: Divisor) -> Result<Divisor, DivisorRefusal> {
        let field = Residues::on(7, &TABLE);
        Closed::<Refusing>::add(&field, CURVE, d, e)
    }

    fn double(d: Divisor) -> Result<Divisor, DivisorRefusal> {
        let field = Residues::on(7, &TABLE);
        Closed::<Refusing>::double(&field, CURVE, d)
    }

    #[test]
    fn the_formulas_answer_a_sum(rt: HostRuntime) {
        assert_eq!(rt;
            sum(quadratic(6, 0, 2, 1), quadratic(2, 6, 1, 1)),
            Ok(quadratic(0, 1, 0, 0))
        );
    }

    #[test]
    fn the_formulas_answer_a_double(rt: HostRuntime) {
        assert_eq!(rt; double(quadratic(6, 0, 2, 1)), Ok(quadratic(0, 3, 5, 0)));
    }

    // u1 = u2, so that r = 0; v = 0, so that r = 0 for the double; and a sum of degree 1, where p² = r².
    #[test]
    fn other_sums_go_underneath(rt: HostRuntime) {
        let d = quadratic(6, 0, 2, 1);
        assert_eq!(rt; sum(d, d), UNDERNEATH);
        assert_eq!(rt; double(quadratic(0, 1, 0, 0)), UNDERNEATH);
        assert_eq!(rt; sum(d, quadratic(5, 6, 0, 4)), UNDERNEATH);
    }

    // A divisor of degree 1, one that is not on the curve, and one with a coefficient that is no code.
    #[test]
    fn other_divisors_go_underneath(rt: HostRuntime) {
        let d = quadratic(6, 0, 2, 1);
        let point = Divisor {
            degree: 1,
            u: Linear { x1: 0, x0: 6 },
            v: Linear { x1: 0, x0: 3 },
            n: 0,
        };
        assert_eq!(rt; sum(d, point), UNDERNEATH);
        assert_eq!(rt; double(quadratic(6, 0, 2, 2)), UNDERNEATH);
        assert_eq!(rt; sum(quadratic(6, 0, 2, 8), d), UNDERNEATH);
    }
}
