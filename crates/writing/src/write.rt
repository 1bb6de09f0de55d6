// Writes a model from lent tables as a sheet.
ghost use Rattle.fields.specs.Refusals.{told};
ghost use Rattle.writing.specs.Writing.{WritesModel};

use crate::put::put_sheet;
use fields::refusal::Refusal;
use sheets::judge::{judge_body, judge_header};
use sheets::model_bytes;
use sheets::source::ModelTables;

// Writes the sheet of a model of so many columns and steps, from tables as `read_model` fills them. What is written is so many bytes.
pub fn write_model(
    columns: usize,
    steps: usize,
    frame: &[u8],
    costs: &[u16],
    marks: &[u8],
    sheet: &mut [u8],
) -> Result<usize, Refusal>
    ensures { WritesModel columns steps frame.now costs.now marks.now sheet.old (told result) sheet.new }
{
    let shape = judge_header(Some(1), Some(columns), Some(steps))?;
    let tables = ModelTables {
        shape,
        frame,
        costs,
        marks,
    };
    judge_body(&tables)?;
    let bytes = model_bytes(shape);
    if sheet.len() < bytes {
        return Err(Refusal::Places);
    }
    put_sheet(&tables, sheet);
    Ok(bytes)
}
