// Which refusal a model gets, wherever its fields come from. One pass over its fields, in sheet order, with no stores.
ghost use Rattle.std.specs.Prelude.{◌≡◌, ℕ, ◌<◌, ◌≤◌, IfOk, Some};
ghost use Rattle.task.specs.Sizes.{limits};
ghost use Rattle.fields.specs.Judging.{Field, read, judged};
ghost use Rattle.fields.specs.Refusals.{refusal_number};
ghost use Rattle.sheets.specs.ModelSheet.{header_part, column_part, marks_part, columns_part, step_in, steps_part, body_part};

use crate::source::ModelSource;
use fields::judge::{judge_below, judge_free, judge_within};
use fields::refusal::Refusal;
use task::{Model, Shape};

// The counts that a header's three fields say.
pub fn judge_header(
    form: Option<usize>,
    columns: Option<usize>,
    steps: Option<usize>,
) -> Result<Shape, Refusal>
    ensures judged { (f c m : Field) → form ≡ read f → columns ≡ read c → steps ≡ read m
        → refusal_number result ≡ judged (header_part f c m) }
    ensures counts { IfOk result (λ shape. (columns ≡ Some shape.columns) × (steps ≡ Some shape.steps)) }
{
    judge_within(form, 1, 1, Refusal::Form)?;
    let columns = judge_within(columns, 1, Model::COLUMNS, Refusal::Counts)?;
    let steps = judge_within(steps, 0, Model::STEPS, Refusal::Counts)?;
    Ok(Shape { columns, steps })
}

fn judge_column<S: ModelSource>(source: &S, i: usize) -> Result<(), Refusal>
    requires { i < limits.columns }
    ensures { refusal_number result ≡ judged (column_part (S.fields source.now).column i) }
{
    let size = judge_within(source.size(i), 1, Model::POSITIONS, Refusal::Size)?;
    judge_below(source.start(i), size, Refusal::Position)?;
    judge_within(source.goal(i), 0, size, Refusal::Position)?;
    Ok(())
}

fn judge_columns<S: ModelSource>(source: &S) -> Result<(), Refusal>
    ensures { refusal_number result ≡ judged (columns_part (S.fields source.now) (S.shape source.now).columns) }
{
    for i in 0..source.shape().columns {
        judge_column(source, i)?;
    }
    Ok(())
}

// The marks of step j at column i, whose size was judged with the columns and is there.
fn judge_marks<S: ModelSource>(source: &S, j: usize, i: usize) -> Result<(), Refusal>
    requires { (j < limits.steps) × (i < limits.columns) × (judged (column_part (S.fields source.now).column i) ≡ 0) }
    ensures { refusal_number result ≡ judged (marks_part (S.fields source.now).column (S.fields source.now).marks j i) }
{
    let size = source.size(i).unwrap();
    judge_within(source.need(j, i), 0, size, Refusal::Position)?;
    judge_within(source.effect(j, i), 0, size, Refusal::Position)?;
    Ok(())
}

fn judge_step<S: ModelSource>(source: &S, j: usize) -> Result<(), Refusal>
    requires { (j < limits.steps) × (judged (columns_part (S.fields source.now) (S.shape source.now).columns) ≡ 0) }
    ensures { refusal_number result ≡ judged (step_in (S.fields source.now) (S.shape source.now).columns j) }
{
    judge_free(source.cost(j))?;
    for i in 0..source.shape().columns {
        judge_marks(source, j, i)?;
    }
    Ok(())
}

fn judge_steps<S: ModelSource>(source: &S) -> Result<(), Refusal>
    requires { judged (columns_part (S.fields source.now) (S.shape source.now).columns) ≡ 0 }
    ensures { refusal_number result ≡ judged (steps_part (S.fields source.now) (S.shape source.now).columns (S.shape source.now).steps) }
{
    for j in 0..source.shape().steps {
        judge_step(source, j)?;
    }
    Ok(())
}

// What follows the header: the columns, the steps and the fill.
pub fn judge_body<S: ModelSource>(source: &S) -> Result<(), Refusal>
    ensures { refusal_number result ≡ judged (body_part (S.fields source.now) (S.shape source.now).columns (S.shape source.now).steps) }
{
    judge_columns(source)?;
    judge_steps(source)?;
    judge_within(source.fill(), 0, 0, Refusal::Rest)?;
    Ok(())
}
