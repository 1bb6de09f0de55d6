ghost use Rattle.fields.specs.Refusals.{told};
ghost use Rattle.asking.specs.Question.{Asks};

use planner::Refusal;

pub fn question(
    model: &[u8],
    sheet: &[u8],
    states: &[u8],
    estimates: &mut [u32],
) -> Result<usize, Refusal>
    ensures { Asks model.now sheet.now states.now estimates.old (told result) estimates.new }
{
    planner::question(model, sheet, states, estimates)
}
