ghost use Rattle.fields.specs.Refusals.{told};
ghost use Rattle.cut_reading.specs.Rebuilding.{Rebuilds};

use planner::Refusal;

pub fn rebuild(model: &[u8], sheet: &[u8], cuts: &mut [u32]) -> Result<usize, Refusal>
    ensures { Rebuilds model.now sheet.now cuts.old (told result) cuts.new }
{
    planner::rebuild(model, sheet, cuts)
}
