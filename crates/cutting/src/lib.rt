// Blocks in one flat array of sets: block 0, the cuts that part blocks, and the block of a state.
#![tactic(auto)]

ghost use Rattle.std.specs.Prelude.{◌≡◌, Bool, true, not, ℕ, ◌+◌, ◌*◌, ◌<◌, ◌≤◌, length, get_or, take, replicate};
ghost use Rattle.std.proofs.Math.Option.{some};
ghost use Rattle.task.specs.Loops.{over};
ghost use Rattle.task.specs.Sizes.{limits, block_places};
ghost use Rattle.task.specs.Task.{Task, Accepted, position, column, at, column_count, is_state};
ghost use Rattle.task.specs.Tables.{task_of};
ghost use Rattle.fields.specs.Places.{puts};
ghost use Rattle.blocks.specs.Blocks.{every, whole, holds, common, is_empty, cut_ok, cut_block, accepted, blocks_of, block_of};
ghost use Rattle.blocks.specs.Flat.{past, laid, cut_place, cut_in, blocks_in, Cuttable, cuts_in, Followable, Placed, followed, followed_by};
ghost use Rattle.blocks.specs.Masks.{parts};

use blocks::Cut;
use task::{Block, BlockSets, ColumnSets, Model, State};

// Blocks, of which there are so many. A row of sets stands for each, and for each that a cut may still make.
#[derive(Drop)]
pub struct Blocks {
    pub count: usize,
    pub sets: BlockSets,
    pub ghost counted: { count ≤ limits.blocks },
}

impl Blocks {
    // None yet.
    pub fn new() -> Blocks
        ensures none { result.count ≡ 0 }
        ensures zeros { result.sets ≡ replicate block_places 0 }
    {
        Blocks {
            count: 0,
            sets: [0; Model::BLOCKS * Model::COLUMNS],
        }
    }

    // Block 0 alone, with every state of a model at hand. `preparing::fill_whole` stays beside it: it reads a sheet, with no model on the stack.
    pub fn fill_first(&mut self, model: &Model)
        requires { Accepted (task_of model.now) }
        ensures alone { self.new.count ≡ 1 }
        ensures every { self.new.sets ≡ over (whole (task_of model.now)) self.old.sets }
    {
        for j in 0..model.columns {
            self.sets[j] = every_position(model.size[j]);
        }
        self.count = 1;
    }

    // Makes a cut: the wanted part goes under the next number, the rest stays under the old.
    pub fn make_cut(&mut self, columns: usize, cut: Cut)
        requires { Cuttable columns self.old.count cut }
        ensures one_more { self.new.count ≡ self.old.count + 1 }
        ensures parted { self.new.sets ≡ cut_in columns self.old.count cut self.old.sets }
        ensures made { blocks_in columns self.new.count self.new.sets ≡ cut_block (blocks_in columns self.old.count self.old.sets) cut }
    {
        let here = usize::from(cut.block.0) * Model::COLUMNS;
        let there = self.count * Model::COLUMNS;
        let at = usize::from(cut.column.0);
        let old = self.sets[here + at];
        let wanted = old & cut.wanted;
        self.sets.copy_within(here..here + columns, there);
        self.sets[there + at] = wanted;
        self.sets[here + at] = old ^ wanted;
        self.count += 1;
    }

    // Whether a cut may be made: refusal 9's test of one cut.
    pub fn takes_cut(&self, columns: usize, cut: Cut) -> bool
        requires { columns ≤ limits.columns }
        ensures { (t : Task) → column_count t ≡ columns → result ≡ cut_ok t (blocks_in columns self.now.count self.now.sets) cut }
    {
        let a = usize::from(cut.block.0);
        let j = usize::from(cut.column.0);
        if self.count <= a || columns <= j {
            return false;
        }
        may_part(cut.wanted, self.sets[a * Model::COLUMNS + j])
    }
}

// Every position of a column of that size.
pub fn every_position(size: u8) -> u32
    requires { size ≤ limits.positions }
    ensures { result ≡ every size }
{
    // a column of 32 positions takes one bit more than the result has
    // A cast, since std has no From for it; nothing is lost.
    ((1u64 << size) - 1) as u32
}

// Whether a cut may take the wanted positions off a set.
#[tactic(auto, unfolding(blocks::specs::Masks::parts, blocks::specs::Blocks::without, blocks::specs::Blocks::is_empty))]
fn may_part(wanted: u32, old: u32) -> bool
    ensures { result ≡ parts wanted old }
{
    wanted != 0 && wanted ^ (wanted & old) == 0 && old ^ (old & wanted) != 0
}

// Puts cut i into a list of cuts, as three plain numbers: the form in which callers of the planner lend such a list.
pub fn put_cut(i: usize, cut: Cut, cuts: &mut [u32])
    requires { (i < limits.blocks) × (i * 3 + 3 ≤ length cuts.old) }
    ensures { cuts.new ≡ puts (i * 3) (cut_place cut) cuts.old }
{
    let place = i * 3;
    cuts[place] = u32::from(cut.block.0);
    cuts[place + 1] = u32::from(cut.column.0);
    cuts[place + 2] = cut.wanted;
}

// A state that is followed through cuts, however it stands.
pub trait Followed {
    // that the column's position is one that a column can have
    ghost placed: { Self → ℕ → Type 0 };

    // whether one of the wanted positions is the column's
    ghost has_of: { Self → ℕ → ℕ → Bool };

    // Whether the state has a wanted position in a column.
    fn has(&self, column: usize, wanted: u32) -> bool
        requires { (column < limits.columns) × placed self.now column }
        ensures { result ≡ has_of self.now column wanted };
}

impl Followed for State {
    ghost placed = { λ x j. (get_or x j (position 0)).0 < limits.positions };

    ghost has_of = { λ x j w. holds w (at x (column j)) };

    #[tactic(auto, unfolding(blocks::specs::Blocks::holds, task::specs::Task::at))]
    fn has(&self, column: usize, wanted: u32) -> bool {
        (wanted >> self[column].0) % 2 == 1
    }
}

// As a row of sets with one position each.
impl Followed for ColumnSets {
    ghost placed = { λ x j. Unit {0} };

    ghost has_of = { λ x j w. not (is_empty (common (get_or x j 0) w)) };

    #[tactic(auto, unfolding(blocks::specs::Blocks::common, blocks::specs::Blocks::is_empty))]
    fn has(&self, column: usize, wanted: u32) -> bool {
        self[column] & wanted != 0
    }
}

// The block of a state, by following the cuts of a list that `put_cut` filled.
pub fn follow<S: Followed>(count: usize, cuts: &[u32], state: &S) -> Block
    requires { Followable count cuts.now × ((i : ℕ) → i < count → S.placed state.now (get_or cuts.now (i * 3 + 1) 0)) }
    ensures followed { result.0 ≡ followed_by (S.has_of state.now) cuts.now count }
    ensures made { result.0 ≤ count }
{
    let mut a: u16 = 0;
    for i in 0..count {
        if cuts[i * 3] == u32::from(a) && state.has(cuts[i * 3 + 1] as usize, cuts[i * 3 + 2]) {
            // A cast, since std has no From for it; nothing is lost.
            a = i as u16 + 1;
        }
    }
    Block(a)
}

// The same of a state as the task has it.
pub fn block_of(count: usize, cuts: &[u32], state: &State) -> Block
    requires { Followable count cuts.now × Placed count cuts.now state.now }
    ensures followed { result.0 ≡ followed cuts.now state.now count }
    ensures found { ((t : Task) → Accepted t → accepted t (cuts_in count cuts.now) ≡ true → is_state t (take (column_count t) state.now) ≡ true
        → some result ≡ block_of t (blocks_of t (cuts_in count cuts.now)) (take (column_count t) state.now)) }
{
    follow(count, cuts, state)
}
