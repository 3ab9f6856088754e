// The sequence over a field, by either method.
use closed_formulas::Closed;
use fields::Field;
use methods::{ByPolynomials, Curve, Divisor, DivisorRefusal, Method, Model};
use notation::{FieldTask, model};
use std::io;
use std::time::{Duration, Instant};

// How many sums a sequence has where no number is asked for.
const SHORT: u32 = 1000;

// A curve, the two divisors that a sequence begins with, and how many sums are asked for. Their pace is told then; where no
// number is asked for, the sequence is short, and no pace is told.
#[derive(Clone, Copy, Debug, PartialEq, Eq)]
pub struct Sequence {
    pub curve: Curve,
    pub first: Divisor,
    pub second: Divisor,
    pub asked: Option<u32>,
}

impl FieldTask for Sequence {
    fn run<F: Field + Drop>(self, rt: &HostRuntime, field: F) -> io::Result<()> {
        let Some(model) = model(rt, field, self.curve)? else {
            return Ok(());
        };
        one_method::<F, Closed<ByPolynomials>>(rt, "closed formulas", &model, self)?;
        one_method::<F, ByPolynomials>(rt, "polynomials", &model, self)
    }
}

// The sequence by one method: its last divisor, and how fast it came.
fn one_method<F: Field, M: Method<F>>(
    rt: &HostRuntime,
    name: &str,
    model: &Model<F>,
    sequence: Sequence,
) -> io::Result<()> {
    let start = Instant::now(rt)?;
    let last = fibonacci::<F, M>(model.field(), model.curve(), sequence);
    let took = start.elapsed(rt)?;
    match last {
        Ok(divisor) => println!(rt; "{name}: {divisor}")?,
        Err(refusal) => println!(rt; "{name}: refused {}", refusal.number())?,
    }
    if let Some(sums) = sequence.asked {
        println!(rt; "{} sums per second", per_second(sums, took))?;
    }
    Ok(())
}

// 0 where no time passed, or more than 10⁶ seconds.
fn per_second(sums: u32, took: Duration) -> u64 {
    let micros = took.as_micros();
    if micros == 0 || micros > 1_000_000_000_000 {
        return 0;
    }
    u64::from(sums) * 1_000_000 / (micros as u64)
}

// Each divisor is the sum of the two before it.
fn fibonacci<F: Field, M: Method<F>>(
    field: &F,
    curve: Curve,
    sequence: Sequence,
) -> Result<Divisor, DivisorRefusal> {
    let (mut before, mut last) = (sequence.first, sequence.second);
    for _ in 0..sequence.asked.unwrap_or(SHORT) {
        (before, last) = (last, M::add(field, curve, before, last)?);
    }
    Ok(last)
}
