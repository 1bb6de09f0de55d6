// Putting the fields of lent tables into lent bytes, in sheet order. A place that is not there would be put as 0, as a field's definition has it.
ghost use Rattle.std.specs.Prelude.{◌≡◌, ◌+◌, ◌*◌, ◌<◌};
ghost use Rattle.task.specs.Sizes.{limits};
ghost use Rattle.fields.specs.Judging.{given};
ghost use Rattle.fields.specs.Packing.{packed};
ghost use Rattle.sheets.specs.ModelSheet.{column_bits, model_bits, header_part, column_part, marks_part, columns_part, step_in, steps_part, entries};
ghost use Rattle.sheets.specs.LentTables.{column_in};
ghost use Rattle.writing.specs.Writing.{lent};

use fields::place::place;
use fields::put::put_field;
use sheets::source::ModelTables;
use sheets::{column_bits, fill_bits, model_bits};
use task::Shape;

// Both counts are within the limits, so that the casts lose nothing.
fn put_header(shape: Shape, out: &mut [u8])
    ensures { out.new ≡ packed 0 (header_part (given 1) (given shape.columns) (given shape.steps)) out.old }
{
    put_field(out, 0, 4, 1);
    put_field(out, 4, 5, shape.columns as u32);
    put_field(out, 9, 8, shape.steps as u32);
}

// Where a field stands is said in bits, since it is put there: SheetFields only reads.
fn put_column(frame: &[u8], i: usize, out: &mut [u8])
    requires { i < limits.columns }
    ensures { out.new ≡ packed (column_bits i) (column_part (column_in frame.now) i) out.old }
{
    let at = column_bits(i);
    put_field(out, at, 6, place(frame, i * 3).unwrap_or(0));
    put_field(out, at + 6, 5, place(frame, i * 3 + 1).unwrap_or(0));
    put_field(out, at + 6 + 5, 6, place(frame, i * 3 + 2).unwrap_or(0));
}

fn put_columns(tables: &ModelTables, out: &mut [u8])
    ensures { out.new ≡ packed 17 (columns_part (lent tables.now) tables.now.shape.columns) out.old }
{
    for i in 0..tables.shape.columns {
        put_column(tables.frame, i, out);
    }
}

// The marks of step j at column i.
fn put_marks(tables: &ModelTables, j: usize, i: usize, out: &mut [u8])
    requires { (j < limits.steps) × (i < limits.columns) }
    ensures { out.new
        ≡ packed (model_bits tables.now.shape.columns j + 16 + i * 12) (marks_part (lent tables.now).column (lent tables.now).marks j i) out.old }
{
    let need = model_bits(tables.shape.columns, j) + 16 + i * 12;
    let effect = need + 6;
    let row = tables.marks_at(j, i);
    put_field(out, need, 6, place(tables.marks, row).unwrap_or(0));
    put_field(out, effect, 6, place(tables.marks, row + 1).unwrap_or(0));
}

fn put_step(tables: &ModelTables, j: usize, out: &mut [u8])
    requires { j < limits.steps }
    ensures { out.new ≡ packed (model_bits tables.now.shape.columns j) (step_in (lent tables.now) tables.now.shape.columns j) out.old }
{
    let at = model_bits(tables.shape.columns, j);
    put_field(out, at, 16, place(tables.costs, j).unwrap_or(0));
    for i in 0..tables.shape.columns {
        put_marks(tables, j, i, out);
    }
}

fn put_steps(tables: &ModelTables, out: &mut [u8])
    ensures { out.new
        ≡ packed (column_bits tables.now.shape.columns) (steps_part (lent tables.now) tables.now.shape.columns tables.now.shape.steps) out.old }
{
    for j in 0..tables.shape.steps {
        put_step(tables, j, out);
    }
}

pub fn put_sheet(tables: &ModelTables, out: &mut [u8])
    ensures { out.new ≡ packed 0 (entries (lent tables.now)) out.old }
{
    put_header(tables.shape, out);
    put_columns(tables, out);
    put_steps(tables, out);
    let bits = model_bits(tables.shape.columns, tables.shape.steps);
    put_field(out, bits, fill_bits(bits), 0);
}
