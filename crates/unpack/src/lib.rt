// The model that a sheet holds, in the task's own tables.
#![tactic(auto)]

ghost use Rattle.std.specs.Prelude.{◌≡◌, ℕ, ◌*◌, ◌/◌, ◌%◌, ◌≤◌, ◌<◌, length, Option, None};
ghost use Rattle.task.specs.Sizes.{limits};
ghost use Rattle.task.specs.Loops.{tab, over};
ghost use Rattle.task.specs.Tables.{mark};
ghost use Rattle.fields.specs.Bits.{field_at, farthest_bit};
ghost use Rattle.fields.specs.Refusals.{told};
ghost use Rattle.sheets.specs.ModelSheet.{columns_of, steps_of, of_sheet, judge_sheet};
ghost use Rattle.sheets.specs.Holding.{mark_place, model_of};
ghost use Rattle.unpack.specs.Unpacking.{Empty, size_on, start_on, goal_on, tenths_on, unpacked};

use fields::field::field;
use fields::refusal::Refusal;
use sheets::source::SheetFields;
use sheets::{column_bits, judge_sheet, model_bits};
use task::{Model, Position, Shape};

// Reads a table's first places, each by its number. The others stay as they are.
fn fill<T: Copy, F: Fn(usize) -> T>(count: usize, read: F, table: &mut [T])
    requires room { count ≤ length table.old }
    requires can { (i : ℕ) → i < count → F.pre read i }
    ensures { (f : ℕ → T) → ((i : ℕ) (v : T) → i < count → F.post read i v → v ≡ f i) → table.new ≡ over (tab count f) table.old }
{
    for i in 0..count {
        table[i] = read(i);
    }
}

// The same of marks: each step has a place for every column that a model can have, with no mark past the model's own columns.
fn fill_marks<F: Fn(usize, usize) -> Option<Position>>(
    shape: Shape,
    read: F,
    marks: &mut [Option<Position>],
)
    requires room { shape.steps * limits.columns ≤ length marks.old }
    requires can { (j i : ℕ) → j < shape.steps → i < shape.columns → F.pre read j i }
    ensures { (f : ℕ → ℕ → ℕ)
        → ((j i : ℕ) (v : Option Position) → j < shape.steps → i < shape.columns → F.post read j i v → v ≡ mark (f j i))
        → marks.new ≡ over (tab (shape.steps * limits.columns) (mark_place f shape.columns)) marks.old }
{
    fill(
        shape.steps * Model::COLUMNS,
        |k|
            requires { k % limits.columns < shape.columns → F.pre read (k / limits.columns) (k % limits.columns) }
            ensures mark { k % limits.columns < shape.columns → F.post read (k / limits.columns) (k % limits.columns) result }
            ensures none { shape.columns ≤ k % limits.columns → result ≡ None }
        {
            if k % Model::COLUMNS < shape.columns {
                read(k / Model::COLUMNS, k % Model::COLUMNS)
            } else {
                None
            }
        },
        marks,
    );
}

// Here and below a cast: a field of so many bits fits, and std has no From for it.
fn size(s: &[u8], i: usize) -> u8
    requires { i < limits.columns }
    ensures { result ≡ size_on s.now i }
{
    field(s, column_bits(i), 6) as u8
}

fn start(s: &[u8], i: usize) -> Position
    requires { i < limits.columns }
    ensures { result ≡ start_on s.now i }
{
    Position(field(s, column_bits(i) + 6, 5) as u8)
}

fn goal(s: &[u8], i: usize) -> Option<Position>
    requires { i < limits.columns }
    ensures { result ≡ goal_on s.now i }
{
    mark(s, column_bits(i) + 6 + 5)
}

fn cost(sheet: &SheetFields, j: usize) -> u16
    requires { j < limits.steps }
    ensures { result ≡ tenths_on sheet.now.bytes.now sheet.now.shape.columns j }
{
    field(sheet.bytes, model_bits(sheet.shape.columns, j), 16) as u16
}

// The mark whose 6 bits begin at a position.
fn mark(s: &[u8], at: usize) -> Option<Position>
    requires { at ≤ farthest_bit }
    ensures { result ≡ mark (field_at s.now at 6) }
{
    Position::of_mark(field(s, at, 6) as u8)
}

// No model yet, for one to be read into.
pub fn empty() -> Model
    ensures { Empty result }
{
    Model {
        columns: 0,
        steps: 0,
        size: [0; Model::COLUMNS],
        start: [Position(0); Model::COLUMNS],
        goal: [None; Model::COLUMNS],
        cost: [0; Model::STEPS],
        need: [None; Model::STEPS * Model::COLUMNS],
        effect: [None; Model::STEPS * Model::COLUMNS],
    }
}

// The model of a sheet with its own counts, in its caller's place: it is too large to stand on the stack twice.
fn read_model(sheet: &SheetFields, model: &mut Model)
    requires counts { (sheet.now.shape.columns ≡ columns_of sheet.now.bytes.now) × (sheet.now.shape.steps ≡ steps_of sheet.now.bytes.now) }
    requires empty { Empty model.old }
    ensures { model.new ≡ model_of (of_sheet sheet.now.bytes.now) }
{
    let s = sheet.bytes;
    let Shape { columns, steps } = sheet.shape;
    model.columns = columns;
    model.steps = steps;
    fill(columns, |i| size(s, i), &mut model.size);
    fill(columns, |i| start(s, i), &mut model.start);
    fill(columns, |i| goal(s, i), &mut model.goal);
    fill(steps, |j| cost(sheet, j), &mut model.cost);
    fill_marks(
        sheet.shape,
        |j, i| mark(s, sheet.marks_at(j, i)),
        &mut model.need,
    );
    fill_marks(
        sheet.shape,
        |j, i| mark(s, sheet.marks_at(j, i) + 6),
        &mut model.effect,
    );
}

// Reads the model of an accepted sheet.
pub fn read_accepted(sheet: &[u8], model: &mut Model)
    requires accepted { judge_sheet sheet.now ≡ 0 }
    requires empty { Empty model.old }
    ensures { model.new ≡ model_of (of_sheet sheet.now) }
{
    let columns = field(sheet, 4, 5) as usize;
    let steps = field(sheet, 9, 8) as usize;
    let fields = SheetFields {
        bytes: sheet,
        shape: Shape { columns, steps },
    };
    read_model(&fields, model);
}

// The model of an accepted sheet.
pub fn unpack_accepted(sheet: &[u8]) -> Model
    requires { judge_sheet sheet.now ≡ 0 }
    ensures { result ≡ model_of (of_sheet sheet.now) }
{
    let mut model = empty();
    read_accepted(sheet, &mut model);
    model
}

// Reads a model sheet: its model, or its refusal.
pub fn unpack_model(sheet: &[u8]) -> Result<Model, Refusal>
    ensures { told result ≡ unpacked sheet.now }
{
    let shape = judge_sheet(sheet)?;
    let mut model = empty();
    read_model(
        &SheetFields {
            bytes: sheet,
            shape,
        },
        &mut model,
    );
    Ok(model)
}
