// What a run, a question and a replay begin with: the model of an accepted sheet in tables, and block 0.
#![tactic(auto)]

ghost use Rattle.std.specs.Prelude.{◌≡◌};
ghost use Rattle.task.specs.Loops.{over};
ghost use Rattle.blocks.specs.Blocks.{whole};
ghost use Rattle.sheets.specs.ModelSheet.{columns_of, judge_sheet};
ghost use Rattle.sheets.specs.Holding.{task_on};
ghost use Rattle.preparing.specs.Preparing.{Prepared};

use cutting::{Blocks, every_position};
use fields::field::field;
use masks::Tables;
use sheets::column_bits;
use unpack::{empty, read_accepted};

// Fills the tables from an accepted sheet, in the caller's place: there is no heap, and they do not stand on the stack a second time.
// The model itself is done with when this returns: what follows needs the stack.
pub fn prepare(sheet: &[u8], tables: &mut Tables)
    requires { judge_sheet sheet.now ≡ 0 }
    ensures { Prepared (task_on sheet.now) tables.new }
{
    let mut model = empty();
    read_accepted(sheet, &mut model);
    tables.fill(&model);
}

// Block 0 alone, with every state of the model on an accepted sheet. The sizes are read where they stand, with no model on the stack.
pub fn fill_whole(model: &[u8], columns: usize, blocks: &mut Blocks)
    requires { (judge_sheet model.now ≡ 0) × (columns ≡ columns_of model.now) }
    ensures alone { blocks.new.count ≡ 1 }
    ensures every { blocks.new.sets ≡ over (whole (task_on model.now)) blocks.old.sets }
{
    for j in 0..columns {
        // A cast: a field of 6 bits fits, and std has no From for it.
        let size = field(model, column_bits(j), 6) as u8;
        blocks.sets[j] = every_position(size);
    }
    blocks.count = 1;
}
