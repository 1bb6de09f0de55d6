ghost use Rattle.reading.specs.Reading.{ReadsModel, told_counts};

use planner::{Refusal, Shape};

pub fn read_model(
    sheet: &[u8],
    frame: &mut [u8],
    costs: &mut [u16],
    marks: &mut [u8],
) -> Result<Shape, Refusal>
    ensures { ReadsModel sheet.now frame.old costs.old marks.old (told_counts result)
        frame.new costs.new marks.new }
{
    planner::read_model(sheet, frame, costs, marks)
}
