// Writing a cut sheet: the given model sheet, and from the next byte the cut part.
#![tactic(auto)]

ghost use Rattle.std.specs.Prelude.{◌≡◌, ◌+◌, ◌*◌, ◌≤◌, ◌<◌, length};
ghost use Rattle.task.specs.Sizes.{limits, most_steps};
ghost use Rattle.task.specs.Task.{Task};
ghost use Rattle.fields.specs.Judging.{refusal, each};
ghost use Rattle.fields.specs.Packing.{packed};
ghost use Rattle.fields.specs.Refusals.{told, refusal_number};
ghost use Rattle.cut_sheets.specs.CutPart.{cut_part, cut_bits, cut_entries};
ghost use Rattle.cut_sheets.specs.CutSheet.{cut_lent, of_cuts, given_checks};
ghost use Rattle.cut_writing.specs.CutWriting.{WritesCuts};

use cut_sheets::{CutList, cut_bits, cut_bytes, judge_cuts};
use cutting::Blocks;
use fields::put::put_field;
use fields::refusal::Refusal;
use preparing::fill_whole;
use sheets::{fill_bits, judge_sheet};
use task::Model;

fn put_cut(out: &mut [u8], cuts: &[u32], i: usize)
    requires few { i < most_steps }
    requires place { i * 3 + 3 ≤ length cuts.now }
    ensures { (t : Task) → out.new ≡ packed (cut_bits i) (cut_part t (cut_lent cuts.now) i) out.old }
{
    let at = cut_bits(i);
    put_field(out, at, 8, cuts[i * 3]);
    put_field(out, at + 8, 4, cuts[i * 3 + 1]);
    put_field(out, at + 8 + 4, 32, cuts[i * 3 + 2]);
}

fn put_cuts(out: &mut [u8], cuts: &[u32], count: usize)
    requires few { count < limits.blocks }
    requires places { count * 3 ≤ length cuts.now }
    ensures { (t : Task) → out.new ≡ packed 12 (each count (cut_part t (cut_lent cuts.now))) out.old }
{
    for i in 0..count {
        put_cut(out, cuts, i);
    }
}

fn put_cut_part(out: &mut [u8], cuts: &[u32], count: usize)
    requires few { count < limits.blocks }
    requires places { count * 3 ≤ length cuts.now }
    ensures { (t : Task) → out.new ≡ packed 0 (cut_entries t (of_cuts count cuts.now)) out.old }
{
    put_field(out, 0, 4, 2);
    // A cast, since std has no From for it; nothing is lost.
    put_field(out, 4, 8, count as u32);
    put_cuts(out, cuts, count);
    let bits = cut_bits(count);
    put_field(out, bits, fill_bits(bits), 0);
}

// The refusal of what a writer is given: the model sheet, the count, the cuts.
fn judge_given(model: &[u8], count: usize, cuts: &[u32]) -> Result<(), Refusal>
    ensures { refusal_number result ≡ refusal (given_checks model.now count cuts.now) }
{
    let shape = judge_sheet(model)?;
    // Only a writer can be given more cuts than a sheet's count can say.
    if Model::BLOCKS <= count {
        return Err(Refusal::Cut);
    }
    let mut blocks = Blocks::new();
    fill_whole(model, shape.columns, &mut blocks);
    judge_cuts(&CutList(cuts), count, shape.columns, &mut blocks)
}

// Writes the cut sheet of a model sheet and of so many cuts of a list: block, column and wanted set for each. Answers how many bytes it has.
pub fn write_cuts(
    model: &[u8],
    count: usize,
    cuts: &[u32],
    sheet: &mut [u8],
) -> Result<usize, Refusal>
    ensures { WritesCuts model.now count cuts.now sheet.old (told result) sheet.new }
{
    judge_given(model, count, cuts)?;
    let start = model.len();
    let end = start + cut_bytes(count);
    if sheet.len() < end {
        return Err(Refusal::Places);
    }
    sheet[..start].copy_from_slice(model);
    put_cut_part(&mut sheet[start..], cuts, count);
    Ok(end)
}
