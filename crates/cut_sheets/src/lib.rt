// The cut sheet: a whole model sheet, and from the next byte the cut part. It is judged in one pass, in sheet order; the cuts are made in a
// scratch array as they are judged, since each is judged by the blocks that those before it made.
#![tactic(auto)]

ghost use Rattle.std.specs.Prelude.{◌≡◌, ℕ, ◌+◌, ◌≤◌, ◌<◌};
ghost use Rattle.task.specs.Sizes.{limits, most_steps};
ghost use Rattle.task.specs.Task.{Task, column_count};
ghost use Rattle.fields.specs.Refusals.{told, refusal_number};
ghost use Rattle.cut_sheets.specs.CutPart.{CutFields, cut_named, cut_read, cut_bits, most_cut_bits, cut_bytes, count_of, cut_on, cut_end};
ghost use Rattle.cut_sheets.specs.CutPart.{judge_cut_part, judge_cuts};
ghost use Rattle.cut_sheets.specs.CutSheet.{cut_lent};
ghost use Rattle.cut_sheets.specs.Judged.{Made, CutsJudged, PartJudged};

use blocks::Cut;
use cutting::Blocks;
use fields::field::{field, whole_field};
use fields::judge::{judge_end, judge_within};
use fields::refusal::Refusal;
use sheets::fill_bits;
use task::{Block, Column, Model};

// Where cut i of a part begins: how many bits the header and so many cuts take.
#[tactic(auto, unfolding(crate::specs::CutPart::cut_bits))]
pub fn cut_bits(i: usize) -> usize
    requires { i < limits.blocks }
    ensures place { result ≡ cut_bits i }
    ensures within { result ≤ most_cut_bits }
{
    12 + i * 44
}

// How many bytes a part of so many cuts has.
#[tactic(auto, unfolding(fields::specs::Packing::bytes_for))]
pub fn cut_bytes(count: usize) -> usize
    requires { count < limits.blocks }
    ensures { result ≡ cut_bytes count }
{
    cut_bits(count).div_ceil(8)
}

// How many cuts the part at the front of s says that it has.
pub fn cut_count(s: &[u8]) -> usize
    ensures count { result ≡ count_of s.now }
    ensures few { result < limits.blocks }
{
    // A cast, since std has no From for it; nothing is lost.
    field(s, 4, 8) as usize
}

// Where the part at the front of s ends.
pub fn cut_end(s: &[u8]) -> usize
    ensures { result ≡ cut_end s.now }
{
    cut_bytes(cut_count(s))
}

// Cut i of a cut part.
pub fn read_cut(s: &[u8], i: usize) -> Cut
    requires { i < most_steps }
    ensures { result ≡ cut_named (cut_on s.now i) }
{
    let at = cut_bits(i);
    let block = field(s, at, 8);
    let column = field(s, at + 8, 4);
    let wanted = field(s, at + 8 + 4, 32);
    Cut {
        // Fields of 8 and of 4 bits fit these numbers; std has no From for it.
        block: Block(block as u16),
        column: Column(column as u8),
        wanted,
    }
}

// Where cuts come from, three fields for each: the cut part of a sheet, or a list that a writer is lent.
pub trait Cuts {
    ghost fields: { Self → ℕ → CutFields };

    // Cut i, or why there is none: 1 where its fields are not there, 9 where a number has no room in its field and names nothing.
    fn cut(&self, i: usize) -> Result<Cut, Refusal>
        requires { i < most_steps }
        ensures { told result ≡ cut_read (fields self.now i) };
}

// The cuts of a cut part.
#[derive(Clone, Copy)]
pub struct CutPart<'a>(pub &'a [u8]);

// The cuts of a lent list.
#[derive(Clone, Copy)]
pub struct CutList<'a>(pub &'a [u32]);

impl Cuts for CutPart<'_> {
    ghost fields = { λ part. cut_on part.0.now };

    fn cut(&self, i: usize) -> Result<Cut, Refusal> {
        if self.0.len() < cut_bits(i + 1).div_ceil(8) {
            return Err(Refusal::Incomplete);
        }
        Ok(read_cut(self.0, i))
    }
}

impl Cuts for CutList<'_> {
    ghost fields = { λ list. cut_lent list.0.now };

    fn cut(&self, i: usize) -> Result<Cut, Refusal> {
        let cuts = self.0;
        if cuts.len() < i * 3 + 3 {
            return Err(Refusal::Incomplete);
        }
        let block = cuts[i * 3] as usize;
        let column = cuts[i * 3 + 1] as usize;
        if Model::BLOCKS <= block || Model::COLUMNS <= column {
            return Err(Refusal::Cut);
        }
        Ok(Cut {
            // Casts, since std has no From for them; both were judged.
            block: Block(block as u16),
            column: Column(column as u8),
            wanted: cuts[i * 3 + 2],
        })
    }
}

// The cuts one after the other, each judged by the blocks that those before it made, and made in turn. At first there is block 0 alone.
pub fn judge_cuts<C: Cuts>(
    cuts: &C,
    count: usize,
    columns: usize,
    blocks: &mut Blocks,
) -> Result<(), Refusal>
    requires few { count < limits.blocks }
    requires wide { columns ≤ limits.columns }
    ensures { (t : Task) → column_count t ≡ columns → Made t (C.fields cuts.now) columns 0 blocks.old
        → CutsJudged t (C.fields cuts.now) columns count (refusal_number result) blocks.new }
{
    blocks.count = 1;
    for i in 0..count {
        let cut = cuts.cut(i)?;
        if !blocks.takes_cut(columns, cut) {
            return Err(Refusal::Cut);
        }
        blocks.make_cut(columns, cut);
    }
    Ok(())
}

// The refusal of the cut part at the front of s, whatever follows. Where there is none, the blocks are those of its cuts.
pub fn judge_cut_part(s: &[u8], columns: usize, blocks: &mut Blocks) -> Result<(), Refusal>
    requires { columns ≤ limits.columns }
    ensures { (t : Task) → column_count t ≡ columns → Made t (cut_on s.now) columns 0 blocks.old
        → PartJudged judge_cut_part t s.now columns (refusal_number result) blocks.new }
{
    judge_within(whole_field(s, 0, 4), 2, 2, Refusal::Form)?;
    let count = judge_within(whole_field(s, 4, 8), 0, Model::BLOCKS - 1, Refusal::Cut)?;
    judge_cuts(&CutPart(s), count, columns, blocks)?;
    let bits = cut_bits(count);
    judge_within(whole_field(s, bits, fill_bits(bits)), 0, 0, Refusal::Rest)?;
    Ok(())
}

// The refusal of a cut part that nothing follows, as it stands at a cut sheet's end.
pub fn judge_cut_tail(s: &[u8], columns: usize, blocks: &mut Blocks) -> Result<(), Refusal>
    requires { columns ≤ limits.columns }
    ensures { (t : Task) → column_count t ≡ columns → Made t (cut_on s.now) columns 0 blocks.old
        → PartJudged judge_cuts t s.now columns (refusal_number result) blocks.new }
{
    judge_cut_part(s, columns, blocks)?;
    judge_end(s, cut_end(s))
}
