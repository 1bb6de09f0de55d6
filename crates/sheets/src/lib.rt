// The model sheet: where its fields stand and which refusal it gets.
#![tactic(auto)]

ghost use Rattle.std.specs.Prelude.{◌≡◌, ◌≤◌, IfOk};
ghost use Rattle.task.specs.Sizes.{limits};
ghost use Rattle.fields.specs.Refusals.{refusal_number};
ghost use Rattle.sheets.specs.ModelSheet.{column_bits, model_bits, most_bits, fill_bits, model_bytes, columns_of, steps_of, judge_part, judge_sheet};

pub mod judge;
pub mod source;

use fields::field::whole_field;
use fields::judge::judge_end;
use fields::refusal::Refusal;
use judge::{judge_body, judge_header};
use source::SheetFields;
use task::Shape;

// Where column i begins: how many bits the header and so many columns take.
pub fn column_bits(i: usize) -> usize
    requires { i ≤ limits.columns }
    ensures { (result ≡ column_bits i) × (result ≤ most_bits) }
{
    17 + i * 17
}

// How many bits the fields of so many columns and steps take. The next step would begin there.
pub fn model_bits(columns: usize, steps: usize) -> usize
    requires { (columns ≤ limits.columns) × (steps ≤ limits.steps) }
    ensures { (result ≡ model_bits columns steps) × (result ≤ most_bits) }
{
    column_bits(columns) + steps * (16 + columns * 12)
}

// How many zero bits fill the last byte behind so many bits.
pub fn fill_bits(bits: usize) -> usize
    ensures { result ≡ fill_bits bits }
{
    (8 - bits % 8) % 8
}

// How many bytes the sheet of a model has.
pub fn model_bytes(shape: Shape) -> usize
    ensures { result ≡ model_bytes shape.columns shape.steps }
{
    model_bits(shape.columns, shape.steps).div_ceil(8)
}

// The counts of the sheet at the front of s, whatever follows.
pub fn judge_part(s: &[u8]) -> Result<Shape, Refusal>
    ensures judged { refusal_number result ≡ judge_part s.now }
    ensures counts { IfOk result (λ shape. (shape.columns ≡ columns_of s.now) × (shape.steps ≡ steps_of s.now)) }
{
    let shape = judge_header(
        whole_field(s, 0, 4),
        whole_field(s, 4, 5),
        whole_field(s, 9, 8),
    )?;
    judge_body(&SheetFields { bytes: s, shape })?;
    Ok(shape)
}

// The counts of a model sheet that nothing follows.
pub fn judge_sheet(s: &[u8]) -> Result<Shape, Refusal>
    ensures judged { refusal_number result ≡ judge_sheet s.now }
    ensures counts { IfOk result (λ shape. (shape.columns ≡ columns_of s.now) × (shape.steps ≡ steps_of s.now)) }
{
    let shape = judge_part(s)?;
    judge_end(s, model_bytes(shape))?;
    Ok(shape)
}
