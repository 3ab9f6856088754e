// The run of a sheet for C: the static library that host programs link.
#![tactic(auto)]

ghost use Rattle.std.specs.Prelude.{◌≡◌};
ghost use Rattle.run.specs.Run.{run_answer, run_output};
ghost use Rattle.run.specs.Laws.{Laws};

// The call of a host program: runs a sheet with closed formulas over the polynomial method. It stands here once more for the C interface,
// since a crate is a library or a static library.
#[unsafe(no_mangle)]
pub extern "C" fn zafindoro_run(sheet: &[u8], output: &mut [u8]) -> u32
    ensures answer { result ≡ run_answer sheet.now output.old }
    ensures output { output.new ≡ run_output sheet.now output.old }
    ensures laws { Laws sheet.now }
{
    run::zafindoro_run(sheet, output)
}
