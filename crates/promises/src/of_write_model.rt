ghost use Rattle.fields.specs.Refusals.{told};
ghost use Rattle.writing.specs.Writing.{WritesModel};

use planner::Refusal;

pub fn write_model(
    columns: usize,
    steps: usize,
    frame: &[u8],
    costs: &[u16],
    marks: &[u8],
    sheet: &mut [u8],
) -> Result<usize, Refusal>
    ensures { WritesModel columns steps frame.now costs.now marks.now sheet.old (told result)
        sheet.new }
{
    planner::write_model(columns, steps, frame, costs, marks, sheet)
}
