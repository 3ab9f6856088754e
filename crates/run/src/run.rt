// The run of a sheet. A sheet and its output are two slices, as the C interface hands them over.
ghost use Rattle.std.specs.Prelude.{◌≡◌, ◌*◌, ◌≤◌, IfOk, length};
ghost use Rattle.methods.specs.Methods.{LawfulMethod};
ghost use Rattle.run.specs.Run.{run_bytes, run_answer, run_result, run_output, program_bytes};
ghost use Rattle.run.specs.Refusals.{host_answer};
ghost use Rattle.run.specs.Buffers.{overwritten};
ghost use Rattle.run.specs.Laws.{Laws};

use crate::field::Chosen;
use crate::output::Output;
use crate::record::Records;
use crate::refusal::SheetRefusal;
use crate::reply::Reply;
use crate::stage::Stage;
use crate::table::{Ground, Table};
use closed_formulas::Closed;
use fields::{Field, Residues};
use methods::{ByPolynomials, Method};

// The call of a host program: runs a sheet with closed formulas over the polynomial method. It answers a number, since the C interface
// has no Result.
pub fn zafindoro_run(sheet: &[u8], output: &mut [u8]) -> u32
    ensures answer { result ≡ run_answer sheet.now output.old }
    ensures output { output.new ≡ run_output sheet.now output.old }
    ensures laws { Laws sheet.now }
{
    match run_closed(sheet, output) {
        Ok(n) => n as u32,
        Err(why) => why.host_answer(),
    }
}

// What the program writes for a sheet: the bytes of the run, or those for a sheet that is too long. Answers their number.
pub fn answer(sheet: &[u8], output: &mut [u8; 24576]) -> usize
    ensures count { result ≡ length (program_bytes sheet.now) }
    ensures bytes { output.new ≡ overwritten output.old 0 (program_bytes sheet.now) }
    ensures room { result ≤ 24576 }
{
    // Ahead of the run, which makes its table before it looks at the sizes.
    if sheet.len() > 4096 {
        let mut out = Output::new(output);
        out.write(Reply::Refused(0, SheetRefusal::SheetLength.into()));
        return out.written;
    }
    zafindoro_run(sheet, output) as usize
}

// The run with closed formulas over the polynomial method.
fn run_closed(sheet: &[u8], output: &mut [u8]) -> Result<usize, SheetRefusal>
    ensures answer { result ≡ run_result sheet.now output.old }
    ensures output { output.new ≡ run_output sheet.now output.old }
    ensures room { IfOk result (λ n. n ≤ 24576) }
{
    let mut entries = [0u16; 8191];
    run_by::<Closed<ByPolynomials>>(&mut entries, sheet, output)
}

// The run with any method: the number of bytes written, or why nothing is. If the method is lawful, it makes no difference which
// one it is. `LawfulMethod` is a premise here and below, since a run takes every method, lawful or not.
pub fn run_by<'t, M: Method<Chosen<Residues<'t>>> + Drop>(
    entries: &'t mut [u16; 8191],
    sheet: &[u8],
    output: &mut [u8],
) -> Result<usize, SheetRefusal>
    ensures answer { LawfulMethod M.Method.answers → host_answer result ≡ run_answer sheet.now output.old }
    ensures outcome { LawfulMethod M.Method.answers → result ≡ run_result sheet.now output.old }
    ensures output { LawfulMethod M.Method.answers → output.new ≡ run_output sheet.now output.old }
    ensures room { IfOk result (λ n. n ≤ 24576) }
{
    if output.len() != 24576 {
        return Err(SheetRefusal::OutputLength);
    }
    if sheet.len() > 4096 {
        return Err(SheetRefusal::SheetLength);
    }
    Ok(obey_all::<Table, Residues, M>(Table { entries }, sheet, output))
}

// Obeys the records of a sheet one after another, and writes what they answer from the start of the output on; answers the number
// of bytes written.
fn obey_all<T: Ground<R> + Drop, R: Field + Drop, M: Method<Chosen<R>> + Drop>(
    ground: T,
    sheet: &[u8],
    output: &mut [u8],
) -> usize
    requires { 6 * length sheet.now ≤ length output.old }
    ensures room { result ≤ length output.old }
    ensures count { LawfulMethod M.Method.answers → result ≡ length (run_bytes sheet.now) }
    ensures bytes { LawfulMethod M.Method.answers → output.new ≡ overwritten output.old 0 (run_bytes sheet.now) }
{
    let mut stage: Stage<T, R, M> = Stage::Start(ground);
    let mut out = Output::new(output);
    for record in (Records { rest: sheet }) {
        let (next, reply) = match record {
            Ok(record) => stage.obey(record),
            Err(why) => (stage, why.into()),
        };
        stage = next;
        out.write(reply);
    }
    out.written
}
