// What comes of the run of a sheet.
use crate::case::Case;
use methods::ByPolynomials;
use run::{run_by, zafindoro_run};
use std::alloc::{AllocError, Global};

// The number answered, as a C host has it, which has no Result, and the whole output as the run left it.
#[derive(Debug, PartialEq, Eq, Drop)]
pub struct Outcome {
    answer: u32,
    output: Vec<u8>,
}

// The run as a host program has it, with closed formulas over the polynomial method. It has a name of this crate, since the check
// finds no contract for a function of another crate that is passed by its name.
pub fn by_closed_formulas(sheet: &[u8], output: &mut [u8]) -> u32 {
    zafindoro_run(sheet, output)
}

// The run with the polynomial method alone: the number that a host program would be answered.
pub fn by_polynomials(sheet: &[u8], output: &mut [u8]) -> u32 {
    let mut entries = [0; 8191];
    match run_by::<ByPolynomials>(&mut entries, sheet, output) {
        Ok(count) => count as u32,
        Err(refusal) => refusal.host_answer(),
    }
}

impl Outcome {
    // What comes of a case by a run, which takes the sheet and the output.
    pub fn of<R: FnOnce(&[u8], &mut [u8]) -> u32>(
        heap: Global,
        case: &Case,
        run: R,
    ) -> Result<Outcome, AllocError>
        requires { R.IsAlwaysCallable run }
    {
        let mut output: Vec<u8> = (0..case.room).map(before).collect(heap)?;
        let answer = run(case.sheet.as_slice(), output.as_mut_slice());
        Ok(Outcome { answer, output })
    }

    // The number answered and the bytes written.
    pub fn show(&self, heap: Global) -> Result<String, AllocError> {
        let written = self.written();
        if written.is_empty() {
            return format!(in heap; "{}", self.answer);
        }
        let bytes = hex::encode(heap, written)?;
        format!(in heap; "{} {bytes}", self.answer)
    }

    // Whether a byte after the written ones is not as it was before the run.
    pub fn touched(&self) -> bool {
        let written = self.written().len();
        self.output
            .iter()
            .enumerate()
            .skip(written)
            .any(|(place, byte)| *byte != before(place))
    }

    // The bytes written: none on a refusal, whose number is above the length of every output.
    fn written(&self) -> &[u8] {
        self.output.get(..self.answer as usize).unwrap_or(&[])
    }
}

// The byte at this place before a run. No two neighbours are equal, and no byte is a mark of a reply.
fn before(place: usize) -> u8 {
    (place % 223) as u8 + 32
}
