// Reading a cut sheet against a given model sheet, and rebuilding its cuts.
#![tactic(auto)]

ghost use Rattle.std.specs.Prelude.{◌≡◌, ◌*◌, ◌≤◌, ◌<◌, length};
ghost use Rattle.task.specs.Sizes.{limits};
ghost use Rattle.fields.specs.Judging.{each};
ghost use Rattle.fields.specs.Places.{puts};
ghost use Rattle.fields.specs.Refusals.{told, refusal_number};
ghost use Rattle.cut_sheets.specs.CutPart.{cut_on};
ghost use Rattle.cut_sheets.specs.CutSheet.{cut_values};
ghost use Rattle.cut_reading.specs.Rebuilding.{SheetJudged, Rebuilds};

use cut_sheets::{cut_count, judge_cut_tail, read_cut};
use cutting::{Blocks, put_cut};
use fields::refusal::Refusal;
use preparing::fill_whole;
use sheets::{judge_part, judge_sheet};

// The refusal of both sheets: the given model, the inner one, 10, the cut part. Where there is none, the blocks are those of the cuts.
pub fn judge_cut_sheet(model: &[u8], sheet: &[u8], blocks: &mut Blocks) -> Result<(), Refusal>
    ensures { SheetJudged model.now sheet.now (refusal_number result) blocks.new }
{
    let shape = judge_sheet(model)?;
    judge_part(sheet)?;
    if !sheet.starts_with(model) {
        return Err(Refusal::Model);
    }
    fill_whole(model, shape.columns, blocks);
    let start = model.len();
    judge_cut_tail(&sheet[start..], shape.columns, blocks)
}

// The cuts of a part, three values for each.
pub fn fill_cuts(part: &[u8], count: usize, cuts: &mut [u32])
    requires few { count < limits.blocks }
    requires room { count * 3 ≤ length cuts.old }
    ensures { cuts.new ≡ puts 0 (each count (cut_values (cut_on part.now))) cuts.old }
{
    for i in 0..count {
        put_cut(i, read_cut(part, i), cuts);
    }
}

// Judges a model sheet and a cut sheet, and fills the list with the cuts: block, column and wanted set for each. Answers how many they are.
pub fn rebuild(model: &[u8], sheet: &[u8], cuts: &mut [u32]) -> Result<usize, Refusal>
    ensures { Rebuilds model.now sheet.now cuts.old (told result) cuts.new }
{
    let mut blocks = Blocks::new();
    judge_cut_sheet(model, sheet, &mut blocks)?;
    let start = model.len();
    let part = &sheet[start..];
    let count = cut_count(part);
    if cuts.len() < count * 3 {
        return Err(Refusal::Places);
    }
    fill_cuts(part, count, cuts);
    Ok(count)
}
