// A state of the walk as it stands: in each column the weight of its one position, so that every test is a test of masks. Whether a step can be
// taken and where it lands, and the cut of a flaw.
#![tactic(auto)]

ghost use Rattle.std.specs.Prelude.{◌≡◌, not, ◌<◌, ◌≤◌, length, IfSome};
ghost use Rattle.task.specs.Loops.{first};
ghost use Rattle.task.specs.Sizes.{limits, goal_row};
ghost use Rattle.blocks.specs.Blocks.{common, is_empty};
ghost use Rattle.blocks.specs.Masks.{rows_from, lands_in, goals_in};
ghost use Rattle.standing.specs.Standing.{at_start, landed, back_set, is_off, takes_by, goal_at_end, lands_by, taken_by, back_row, found, off_at, cut_by};

use blocks::Cut;
use cutting::Blocks;
use masks::{Tables, all_lie};
use task::{Block, Column, ColumnSets, Model, Step};

// A set of one position for each column.
#[derive(Clone, Copy)]
pub struct Standing {
    pub sets: ColumnSets,
}

impl Standing {
    // The start as it stands in the tables.
    pub fn at_start(tables: &Tables) -> Standing
        ensures { result.sets ≡ at_start tables.now.rows }
    {
        let row = Model::START * Model::COLUMNS;
        let mut sets = [0u32; Model::COLUMNS];
        sets.copy_from_slice(&tables.rows[row..row + Model::COLUMNS]);
        Standing { sets }
    }

    // Whether the step can be taken in the state.
    #[tactic(auto, unfolding(crate::specs::Standing::takes_by))]
    pub fn can_take(&self, tables: &Tables, s: Step) -> bool
        requires { s.0 < limits.steps }
        ensures { result ≡ takes_by tables.now.shape.columns tables.now.rows self.now.sets s.0 }
    {
        let rs = usize::from(s.0) * Model::COLUMNS;
        all_lie(tables.shape.columns, rs, 0, &tables.rows, &self.sets)
    }

    // Whether the step, taken in the state, lands in block b.
    pub fn lands_in(&self, tables: &Tables, blocks: &Blocks, s: Step, b: Block) -> bool
        requires { (s.0 < limits.steps) × (b.0 < limits.blocks) }
        ensures { result ≡ lands_by tables.now.shape.columns (lands_in tables.now.rows) blocks.now.sets self.now.sets s.0 b.0 }
    {
        let rs = (Model::LANDS + usize::from(s.0)) * Model::COLUMNS;
        let rb = usize::from(b.0) * Model::COLUMNS;
        (0..tables.shape.columns).all(|j| lands_on(
            tables.rows[rs + j],
            self.sets[j],
            blocks.sets[rb + j],
        ))
    }

    // Takes the step. Places past the columns stay as they are.
    pub fn take(&mut self, tables: &Tables, s: Step)
        requires { s.0 < limits.steps }
        ensures { self.new.sets ≡ taken_by tables.now.shape.columns (lands_in tables.now.rows) self.old.sets s.0 }
    {
        let rs = (Model::LANDS + usize::from(s.0)) * Model::COLUMNS;
        for (j, set) in self.sets[..tables.shape.columns].iter_mut().enumerate() {
            *set = landed(tables.rows[rs + j], *set);
        }
    }

    // Whether the state is a goal state.
    pub fn is_goal(&self, tables: &Tables) -> bool
        ensures { result ≡ goal_at_end tables.now.shape.columns (goals_in tables.now.rows) self.now.sets }
    {
        let row = Model::GOAL * Model::COLUMNS;
        all_lie(tables.shape.columns, row, 0, &tables.rows, &self.sets)
    }

    // The lowest column whose present position isn't wanted.
    fn lowest_off(&self, columns: usize, wanted: &[u32]) -> Option<Column>
        requires { (columns ≤ limits.columns) × (limits.columns ≤ length wanted.now) }
        ensures lowest { found result ≡ first columns (off_at wanted.now self.now.sets) }
        ensures there { IfSome result (λ j. j.0 < columns) }
    {
        // A cast, since std has no From for it; nothing is lost.
        (0..columns)
            .find(|&j| is_off(wanted[j], self.sets[j]))
            .map(|j| Column(j as u8))
    }

    // The cut of a flaw in block a: the wanted positions of the block go to a new one.
    fn cut_for(&self, columns: usize, blocks: &Blocks, a: Block, wanted: &[u32]) -> Cut
        requires { (columns ≤ limits.columns) × (a.0 < limits.blocks) × (limits.columns ≤ length wanted.now) }
        ensures { result ≡ cut_by columns blocks.now.sets self.now.sets a wanted.now }
    {
        // A flaw has such a column. The definition is total, and has 0 where there is none.
        let column = self.lowest_off(columns, wanted).unwrap_or(Column(0));
        let ra = usize::from(a.0) * Model::COLUMNS;
        let j = usize::from(column.0);
        Cut {
            block: a,
            column,
            wanted: blocks.sets[ra + j] & wanted[j],
        }
    }

    // The cut of a need flaw or of a goal flaw: what is wanted is a row of the tables.
    pub fn row_cut(&self, tables: &Tables, blocks: &Blocks, a: Block, row: usize) -> Cut
        requires { (a.0 < limits.blocks) × (row ≤ goal_row) }
        ensures { result ≡ cut_by tables.now.shape.columns blocks.now.sets self.now.sets a (rows_from row tables.now.rows) }
    {
        let place = row * Model::COLUMNS;
        self.cut_for(tables.shape.columns, blocks, a, &tables.rows[place..])
    }

    // The cut of a step that lands outside the trace's next block.
    pub fn back_cut(&self, tables: &Tables, blocks: &Blocks, a: Block, s: Step, b: Block) -> Cut
        requires { (a.0 < limits.blocks) × (s.0 < limits.steps) × (b.0 < limits.blocks) }
        ensures { result ≡ cut_by tables.now.shape.columns blocks.now.sets self.now.sets a
            (back_row tables.now.rows (lands_in tables.now.rows) blocks.now.sets s.0 b.0) }
    {
        let wanted = back_wanted(tables, blocks, s, b);
        self.cut_for(tables.shape.columns, blocks, a, &wanted)
    }
}

// Where a column stands after a step. 0 means that the step keeps the column.
#[tactic(auto, unfolding(crate::specs::Standing::landed, blocks::specs::Blocks::is_empty))]
fn landed(land: u32, here: u32) -> u32
    ensures { result ≡ landed land here }
{
    if land != 0 { land } else { here }
}

// Whether a column stands on one of a set's positions after a step.
#[tactic(auto, unfolding(blocks::specs::Blocks::common, blocks::specs::Blocks::is_empty))]
fn lands_on(land: u32, here: u32, set: u32) -> bool
    ensures { result ≡ not (is_empty (common (landed land here) set)) }
{
    landed(land, here) & set != 0
}

// The next block's set taken back over a step. A column that lands where it needs nothing has an effect, and there every position is wanted: 0.
#[tactic(auto, unfolding(crate::specs::Standing::back_set, blocks::specs::Blocks::is_empty))]
fn back_set(need: u32, land: u32, next: u32) -> u32
    ensures { result ≡ back_set need land next }
{
    if need != 0 {
        need
    } else if land != 0 {
        0
    } else {
        next
    }
}

// The wanted sets of a divergence flaw: the next block taken back over the step.
fn back_wanted(tables: &Tables, blocks: &Blocks, s: Step, b: Block) -> ColumnSets
    requires { (s.0 < limits.steps) × (b.0 < limits.blocks) }
    ensures { result ≡ back_row tables.now.rows (lands_in tables.now.rows) blocks.now.sets s.0 b.0 }
{
    let step = usize::from(s.0);
    let need = step * Model::COLUMNS;
    let land = (Model::LANDS + step) * Model::COLUMNS;
    let rb = usize::from(b.0) * Model::COLUMNS;
    let mut wanted = [0u32; Model::COLUMNS];
    for (j, want) in wanted.iter_mut().enumerate() {
        *want = back_set(
            tables.rows[need + j],
            tables.rows[land + j],
            blocks.sets[rb + j],
        );
    }
    wanted
}

// Whether the present position isn't wanted. 0 wants every position.
#[tactic(auto, unfolding(crate::specs::Standing::is_off, blocks::specs::Blocks::common, blocks::specs::Blocks::is_empty))]
fn is_off(wanted: u32, here: u32) -> bool
    ensures { result ≡ is_off wanted here }
{
    wanted != 0 && here & wanted == 0
}
