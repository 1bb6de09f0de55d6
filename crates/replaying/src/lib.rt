// The replay of a shift's steps: sheets and log judged, and a row written for each step.
#![tactic(auto)]

ghost use Rattle.std.specs.Prelude.{◌≡◌, ◌≤◌, length};
ghost use Rattle.task.specs.Sizes.{limits};
ghost use Rattle.sheets.specs.Holding.{task_on};
ghost use Rattle.cut_sheets.specs.CutPart.{cuts_named, cut_on, count_of};
ghost use Rattle.replay.specs.Replay.{replay_outcome, told_replay, Replays};
ghost use Rattle.replaying.specs.Replaying.{Sheets, replayed_on};

use along::{fill_along, judge_log};
use asking::measure;
use cut_reading::judge_cut_sheet;
use cutting::Blocks;
use fields::refusal::Refusal;
use figures::put_rows;
use masks::Tables;
use preparing::prepare;
use replay::ReplayRefusal;
use standing::Standing;
use task::Model;

// A replay of an accepted model after the cuts of an accepted part, whose blocks are given.
fn replay_on(
    model: &[u8],
    part: &[u8],
    blocks: &Blocks,
    log: &[u32],
    rows: &mut [i32],
) -> Result<usize, ReplayRefusal>
    requires accepted { Sheets model.now part.now blocks.now }
    requires short { length log.now ≤ limits.log }
    ensures { replay_outcome (told_replay result) rows.new
        ≡ replayed_on (task_on model.now) (cuts_named (cut_on part.now) (count_of part.now)) log.now rows.old }
{
    let mut tables = Tables::new();
    prepare(model, &mut tables);
    let mut here = Standing::at_start(&tables);
    // the log is gone along twice: judged first, so that what is refused leaves the rows as they are
    let mut goes = here;
    if let Some(row) = judge_log(&tables, log, &mut goes) {
        return Err(ReplayRefusal::Step { row });
    }
    if rows.len() < log.len() * 3 {
        return Err(ReplayRefusal::Judged(Refusal::Places));
    }
    let mut cuts = [0u32; (Model::BLOCKS - 1) * 3];
    let mut dist = [0u64; Model::BLOCKS];
    let count = measure(part, &tables, blocks, &mut cuts, &mut dist);
    let mut estimates = [0u32; Model::LOG + 1];
    fill_along(&tables, count, &cuts, &dist, log, &mut here, &mut estimates);
    put_rows(&tables.costs, log, &estimates, rows);
    Ok(log.len())
}

// Judges a model sheet, a cut sheet and a log of steps taken from the start, and writes for each row the tenths paid, the ground won and the detour.
// Returns how many rows there are.
pub fn replay(
    model: &[u8],
    sheet: &[u8],
    log: &[u32],
    rows: &mut [i32],
) -> Result<usize, ReplayRefusal>
    ensures { Replays model.now sheet.now log.now rows.old (told_replay result) rows.new }
{
    let mut blocks = Blocks::new();
    judge_cut_sheet(model, sheet, &mut blocks)?;
    if Model::LOG < log.len() {
        return Err(ReplayRefusal::Judged(Refusal::Log));
    }
    replay_on(model, &sheet[model.len()..], &blocks, log, rows)
}
