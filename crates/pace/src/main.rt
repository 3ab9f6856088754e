// Measures sums: a sequence in which each divisor is the sum of the two before it, by closed formulas over the polynomial method and by
// the polynomial method alone, over the residues modulo 8,191 and over pairs on the residues modulo 251.
//
// Without an argument the sequences are short and their last divisors are printed. With a number N the sequences have N sums, and
// the sums per second are printed as well.
#![tactic(auto)]

use methods::{Curve, Divisor, Linear};
use notation::{Named, over};
use sequence::Sequence;
use std::{env, io};

mod sequence;

fn main(rt: HostRuntime) -> io::Result<()> {
    let asked = env::args(&rt)?
        .nth(1)
        .and_then(|word| word.parse::<u32>().ok());
    measure(&rt, Named::Residues(8191), on_residues(asked))?;
    measure(&rt, Named::Pairs(251, 6), on_pairs(asked))
}

// A sequence over the residues modulo 8,191.
fn on_residues(asked: Option<u32>) -> Sequence {
    Sequence {
        curve: Curve {
            f4: 423,
            f3: 6114,
            f2: 4985,
            f1: 5802,
            f0: 2724,
        },
        first: Divisor::of_degree_2(Linear { x1: 4805, x0: 3862 }, Linear { x1: 8090, x0: 5285 }),
        second: Divisor::of_degree_2(Linear { x1: 5074, x0: 5504 }, Linear { x1: 945, x0: 1758 }),
        asked,
    }
}

// A sequence over the pairs with t² = 6 on the residues modulo 251.
fn on_pairs(asked: Option<u32>) -> Sequence {
    Sequence {
        curve: Curve {
            f4: 43373,
            f3: 20865,
            f2: 27900,
            f1: 21633,
            f0: 41421,
        },
        first: Divisor::of_degree_2(
            Linear {
                x1: 9196,
                x0: 61853,
            },
            Linear {
                x1: 29814,
                x0: 35410,
            },
        ),
        second: Divisor::of_degree_2(
            Linear {
                x1: 59518,
                x0: 54966,
            },
            Linear {
                x1: 28395,
                x0: 2687,
            },
        ),
        asked,
    }
}

fn measure(rt: &HostRuntime, field: Named, sequence: Sequence) -> io::Result<()> {
    println!(rt; "{field}")?;
    over(rt, field, sequence)
}
