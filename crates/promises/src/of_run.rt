ghost use Rattle.fields.specs.Refusals.{told};
ghost use Rattle.running.specs.Running.{Runs};

use planner::{Answer, Refusal};

pub fn run(sheet: &[u8], room: u32, cuts: &mut [u32], rows: &mut [u32]) -> Result<Answer, Refusal>
    ensures { Runs sheet.now room cuts.old rows.old (told result) cuts.new rows.new }
{
    planner::run(sheet, room, cuts, rows)
}
