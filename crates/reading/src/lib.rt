// Reading a model sheet into lent tables of plain numbers.
#![tactic(auto)]

ghost use Rattle.std.specs.Prelude.{◌≡◌, ◌+◌, ◌*◌, ◌≤◌, ◌<◌, length};
ghost use Rattle.task.specs.Sizes.{limits};
ghost use Rattle.fields.specs.Judging.{refusal, each};
ghost use Rattle.fields.specs.Places.{puts};
ghost use Rattle.fields.specs.Refusals.{refusal_number};
ghost use Rattle.sheets.specs.ModelSheet.{column_on, cost_on, marks_on};
ghost use Rattle.sheets.specs.LentTables.{column_values, cost_value, mark_values, step_values, table_checks};
ghost use Rattle.reading.specs.Reading.{ReadsModel, told_counts};

use fields::field::field;
use fields::refusal::Refusal;
use sheets::source::SheetFields;
use sheets::{column_bits, judge_sheet, model_bits};
use task::Shape;

// Whether each table has enough places.
fn judge_places(frame: &[u8], costs: &[u16], marks: &[u8], shape: Shape) -> Result<(), Refusal>
    ensures { refusal_number result ≡ refusal (table_checks shape.columns shape.steps frame.now costs.now marks.now) }
{
    if frame.len() < shape.columns * 3
        || costs.len() < shape.steps
        || marks.len() < shape.steps * (shape.columns * 2)
    {
        return Err(Refusal::Places);
    }
    Ok(())
}

// A field of 5 or 6 bits fits a byte, and a cost of 16 bits its place: no cast below loses anything. The sheet was judged, so a field is read as it stands;
// the methods of SheetFields first say whether it is there.
fn fill_column(s: &[u8], i: usize, frame: &mut [u8])
    requires { (i < limits.columns) × (i * 3 + 3 ≤ length frame.old) }
    ensures { frame.new ≡ puts (i * 3) (column_values (column_on s.now) i) frame.old }
{
    let at = column_bits(i);
    let place = i * 3;
    frame[place] = field(s, at, 6) as u8;
    frame[place + 1] = field(s, at + 6, 5) as u8;
    frame[place + 2] = field(s, at + 6 + 5, 6) as u8;
}

fn fill_frame(sheet: &SheetFields, frame: &mut [u8])
    requires { sheet.now.shape.columns * 3 ≤ length frame.old }
    ensures { frame.new ≡ puts 0 (each sheet.now.shape.columns (column_values (column_on sheet.now.bytes.now))) frame.old }
{
    for i in 0..sheet.shape.columns {
        fill_column(sheet.bytes, i, frame);
    }
}

fn fill_costs(sheet: &SheetFields, costs: &mut [u16])
    requires { sheet.now.shape.steps ≤ length costs.old }
    ensures { costs.new ≡ puts 0 (each sheet.now.shape.steps (cost_value (cost_on sheet.now.bytes.now sheet.now.shape.columns))) costs.old }
{
    for j in 0..sheet.shape.steps {
        costs[j] = field(sheet.bytes, model_bits(sheet.shape.columns, j), 16) as u16;
    }
}

// The marks of step j at column i, from a place on.
fn fill_pair(sheet: &SheetFields, j: usize, i: usize, place: usize, marks: &mut [u8])
    requires { (j < limits.steps) × (i < limits.columns) × (place + 2 ≤ length marks.old) }
    ensures { marks.new ≡ puts place (mark_values (marks_on sheet.now.bytes.now sheet.now.shape.columns) j i) marks.old }
{
    let need = sheet.marks_at(j, i);
    let effect = need + 6;
    marks[place] = field(sheet.bytes, need, 6) as u8;
    marks[place + 1] = field(sheet.bytes, effect, 6) as u8;
}

fn fill_step(sheet: &SheetFields, j: usize, marks: &mut [u8])
    requires { (j < limits.steps) × (j * (sheet.now.shape.columns * 2) + sheet.now.shape.columns * 2 ≤ length marks.old) }
    ensures { marks.new
        ≡ puts (j * (sheet.now.shape.columns * 2)) (step_values (marks_on sheet.now.bytes.now sheet.now.shape.columns) sheet.now.shape.columns j) marks.old }
{
    let row = j * (sheet.shape.columns * 2);
    for i in 0..sheet.shape.columns {
        fill_pair(sheet, j, i, row + i * 2, marks);
    }
}

fn fill_marks(sheet: &SheetFields, marks: &mut [u8])
    requires { sheet.now.shape.steps * (sheet.now.shape.columns * 2) ≤ length marks.old }
    ensures { marks.new
        ≡ puts 0 (each sheet.now.shape.steps (step_values (marks_on sheet.now.bytes.now sheet.now.shape.columns) sheet.now.shape.columns)) marks.old }
{
    for j in 0..sheet.shape.steps {
        fill_step(sheet, j, marks);
    }
}

// Reads a model sheet into tables: `frame` takes size, start and goal mark for each column, `costs` the cost of each step, `marks` the need
// mark and the effect mark for each column of each step. What is read is the numbers of columns and steps.
pub fn read_model(
    sheet: &[u8],
    frame: &mut [u8],
    costs: &mut [u16],
    marks: &mut [u8],
) -> Result<Shape, Refusal>
    ensures { ReadsModel sheet.now frame.old costs.old marks.old (told_counts result) frame.new costs.new marks.new }
{
    let shape = judge_sheet(sheet)?;
    judge_places(frame, costs, marks, shape)?;
    let fields = SheetFields {
        bytes: sheet,
        shape,
    };
    fill_frame(&fields, frame);
    fill_costs(&fields, costs);
    fill_marks(&fields, marks);
    Ok(shape)
}
