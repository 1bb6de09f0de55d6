ghost use Rattle.replay.specs.Replay.{Replays, told_replay};

use planner::ReplayRefusal;

pub fn replay(
    model: &[u8],
    sheet: &[u8],
    log: &[u32],
    rows: &mut [i32],
) -> Result<usize, ReplayRefusal>
    ensures { Replays model.now sheet.now log.now rows.old (told_replay result) rows.new }
{
    planner::replay(model, sheet, log, rows)
}
