// The three functions of `historian` for C, as include/elhavir.h declares them: a slice is a pointer and a length. Nothing else is here, and each promises what
// the function does that it calls.
#![tactic(auto)]

ghost use Rattle.historian.specs.Entries.{EntryRuns, EntryAsks};
ghost use Rattle.historian.specs.ReplayEntry.{EntryReplays};

// A run: three values of four bytes each for a cut and for a row. The answer is one number.
#[unsafe(no_mangle)]
pub extern "C" fn elhavir_run(sheet: &[u8], room: u32, cuts: &mut [u8], rows: &mut [u8]) -> u64
    ensures { EntryRuns sheet.now room cuts.old rows.old result cuts.new rows.new }
{
    historian::elhavir_run(sheet, room, cuts, rows)
}

// A question: four bytes for each estimate. It returns 0, or the refusal number.
#[unsafe(no_mangle)]
pub extern "C" fn elhavir_question(
    model: &[u8],
    sheet: &[u8],
    states: &[u8],
    estimates: &mut [u8],
) -> u32
    ensures { EntryAsks model.now sheet.now states.now estimates.old result estimates.new }
{
    historian::elhavir_question(model, sheet, states, estimates)
}

// A replay: four bytes for each step of the log, three values of four bytes each for a row. The answer is one number.
#[unsafe(no_mangle)]
pub extern "C" fn elhavir_replay(model: &[u8], sheet: &[u8], log: &[u8], rows: &mut [u8]) -> u64
    ensures { EntryReplays model.now sheet.now log.now rows.old result rows.new }
{
    historian::elhavir_replay(model, sheet, log, rows)
}
