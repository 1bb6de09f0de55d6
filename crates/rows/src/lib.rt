// The rows of the change sheet in a lent list of rows: one thin function puts them there from plain numbers, and a run goes through it.
#![tactic(auto)]

ghost use Rattle.std.specs.Prelude.{◌≡◌, ◌+◌, ◌*◌, ◌≤◌, ◌<◌, List, length, get_or};
ghost use Rattle.task.specs.Sizes.{limits};
ghost use Rattle.fields.specs.Refusals.{told};
ghost use Rattle.run.specs.declared.Row.{Row};
ghost use Rattle.running.specs.Counts.{row_count};
ghost use Rattle.rows.specs.Rows.{row_in, steps_named, fitting, filling, PutsRows, RowRuns};

use planner::{Answer, Refusal};
pub use run::Row;
use task::{Model, Step};
use values::PlaceValues;

// Whether the first n rows' values each name a step. It is a loop by index, since only each third value is one.
#[tactic(auto, unfolding(crate::specs::Rows::steps_named, task::specs::Loops::all))]
fn steps_named(values: &[u32], n: usize) -> bool
    requires { n * 3 ≤ length values.now }
    ensures { result ≡ steps_named values.now n }
{
    for i in 0..n {
        if Model::STEPS as u32 <= values[i * 3] {
            return false;
        }
    }
    true
}

// How many rows are put: n, or none where they have no place, no values or a step that there is not.
#[tactic(auto, unfolding(crate::specs::Rows::fitting))]
fn rows_fit(places: usize, values: &[u32], n: usize) -> usize
    ensures { result ≡ fitting places values.now n }
{
    if places < n || values.len() / 3 < n || !steps_named(values, n) {
        return 0;
    }
    n
}

// The row of values 3 i, 3 i + 1 and 3 i + 2.
#[tactic(auto, unfolding(crate::specs::Rows::row_in))]
fn row_at(values: &[u32], i: usize) -> Row
    requires { (i * 3 + 2 < length values.now) × (get_or values.now (i * 3) 0 < limits.steps) }
    ensures { result ≡ row_in values.now i }
{
    let at = i * 3;
    Row {
        step: Step(values[at] as u8),
        tenths: values[at + 1],
        left: values[at + 2],
    }
}

// Puts n rows over the front of the list, or none, and says how many.
pub fn put_rows(rows: &mut [Row], values: &[u32], n: usize) -> usize
    ensures { PutsRows rows.old values.now n result rows.new }
{
    let m = rows_fit(rows.len(), values, n);
    for (i, row) in rows[..m].iter_mut().enumerate() {
        *row = row_at(values, i);
    }
    m
}

// A run for so many places of rows, with a list for their values: whoever puts the rows from it has the run. It is apart from `run`, so that the list's places
// stay out of its proof.
fn run_for(
    sheet: &[u8],
    room: u32,
    places: usize,
    cuts: &mut [u32],
    values: &mut PlaceValues,
) -> Result<Answer, Refusal>
    ensures { (rows : List Row) → length rows ≡ places
        → RowRuns sheet.now room cuts.old rows (told result) cuts.new (filling rows values.new (row_count (told result))).rows }
{
    let n = places.min(Model::BLOCKS - 1) * 3;
    planner::run(sheet, room, cuts, &mut values[..n])
}

// A run whose rows are lent as structs.
pub fn run(sheet: &[u8], room: u32, cuts: &mut [u32], rows: &mut [Row]) -> Result<Answer, Refusal>
    ensures { RowRuns sheet.now room cuts.old rows.old (told result) cuts.new rows.new }
{
    let mut values: PlaceValues = [0; (Model::BLOCKS - 1) * 3];
    let answer = run_for(sheet, room, rows.len(), cuts, &mut values)?;
    put_rows(rows, &values, answer.row_count());
    Ok(answer)
}
