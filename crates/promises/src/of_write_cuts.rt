ghost use Rattle.fields.specs.Refusals.{told};
ghost use Rattle.cut_writing.specs.CutWriting.{WritesCuts};

use planner::Refusal;

pub fn write_cuts(
    model: &[u8],
    count: usize,
    cuts: &[u32],
    sheet: &mut [u8],
) -> Result<usize, Refusal>
    ensures { WritesCuts model.now count cuts.now sheet.old (told result) sheet.new }
{
    planner::write_cuts(model, count, cuts, sheet)
}
