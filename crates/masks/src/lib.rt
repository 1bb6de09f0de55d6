// Sets of positions as masks: the tables of a model, and the tests of a step and of the goal on the sets of blocks.
#![tactic(auto)]

ghost use Rattle.std.specs.Prelude.{◌≡◌, ℕ, Option, ◌+◌, ◌*◌, ◌<◌, ◌≤◌, length, get_or};
ghost use Rattle.task.specs.Sizes.{limits, step_places, table_places, lands_row, start_row};
ghost use Rattle.task.specs.declared.Position.{Position};
ghost use Rattle.task.specs.Task.{Accepted};
ghost use Rattle.task.specs.Tables.{task_of};
ghost use Rattle.blocks.specs.Blocks.{only};
ghost use Rattle.blocks.specs.Flat.{row_of, laid};
ghost use Rattle.blocks.specs.Masks.{lies, all_lie, passes, set_of, want_set, land_set, lands_set, start_set};
ghost use Rattle.blocks.specs.Masks.{lands_in, goals_in, tables_of, leads_by, goal_by};
ghost use Rattle.masks.specs.Tables.{Tabled, Unfilled, Filled};

use task::{Block, BlockSets, Costs, Model, Position, Shape, Step, TaskSets};

// A task as code works on it: how many columns and steps it has, its sets row by row, what each step costs, and how many positions each column has.
#[derive(Clone, Copy)]
pub struct Tables {
    pub shape: Shape,
    pub rows: TaskSets,
    pub costs: Costs,
    pub sizes: [u8; Model::COLUMNS],
}

impl Tables {
    // Of no task yet: nothing but zeros.
    pub fn new() -> Tables
        ensures { Unfilled result }
    {
        Tables {
            shape: Shape {
                columns: 0,
                steps: 0,
            },
            rows: [0; (2 * Model::STEPS + 2) * Model::COLUMNS],
            costs: [0; Model::STEPS],
            sizes: [0; Model::COLUMNS],
        }
    }

    // The tables of a model, in place of what stood there.
    pub fn fill(&mut self, model: &Model)
        requires { Accepted (task_of model.now) }
        ensures filled { Filled model.now self.old.rows self.new }
        ensures tabled { Tabled (task_of model.now) self.new }
    {
        fill_rows(model, &mut self.rows);
        self.shape = Shape {
            columns: model.columns,
            steps: model.steps,
        };
        self.costs = model.cost;
        self.sizes = model.size;
    }

    // Whether the step leads from block a to block b. It is called in the program too, and not copied into its caller: the search for the next hop asks it of
    // few blocks, and passes over the others faster where its loop holds nothing of this one.
    #[inline(never)]
    pub fn leads(&self, step: Step, a: Block, b: Block, sets: &BlockSets) -> bool
        requires { (step.0 < limits.steps) × (a.0 < limits.blocks) × (b.0 < limits.blocks) }
        ensures { result ≡ leads_by self.now.shape.columns self.now.rows (lands_in self.now.rows) sets.now step.0 a.0 b.0 }
    {
        let need = usize::from(step.0) * Model::COLUMNS;
        let land = (Model::LANDS + usize::from(step.0)) * Model::COLUMNS;
        let ra = usize::from(a.0) * Model::COLUMNS;
        let rb = usize::from(b.0) * Model::COLUMNS;
        (0..self.shape.columns).all(|j| {
            passes(
                self.rows[need + j],
                self.rows[land + j],
                sets[ra + j],
                sets[rb + j],
            )
        })
    }

    // Whether block a is a goal block.
    pub fn is_goal_block(&self, a: Block, sets: &BlockSets) -> bool
        requires { a.0 < limits.blocks }
        ensures { result ≡ goal_by self.now.shape.columns (goals_in self.now.rows) sets.now a.0 }
    {
        let ra = usize::from(a.0) * Model::COLUMNS;
        all_lie(
            self.shape.columns,
            Model::GOAL * Model::COLUMNS,
            ra,
            &self.rows,
            sets,
        )
    }
}

// What each step needs, where each lands, the goal, and the start as it stands.
fn fill_rows(model: &Model, rows: &mut TaskSets)
    requires { Accepted (task_of model.now) }
    ensures { rows.new ≡ tables_of model.now rows.old }
{
    fill_wants(&model.need, 0, rows);
    fill_lands(model, rows);
    fill_wants(&model.goal, Model::GOAL, rows);
    fill_start(model, rows);
}

// A need or a goal as a set: nothing where there is none.
#[tactic(auto, unfolding(blocks::specs::Masks::set_of, blocks::specs::Blocks::only))]
fn set_of(wanted: Option<Position>) -> u32
    ensures { result ≡ set_of wanted }
{
    match wanted {
        Some(p) if usize::from(p.0) < Model::POSITIONS => alone(p),
        _ => 0,
    }
}

// The set of one position.
fn alone(position: Position) -> u32
    requires { position.0 < limits.positions }
    ensures { result ≡ only position }
{
    let p = position.0;
    1 << p
}

// What needs or a goal want, as sets, from a row on.
fn fill_wants(wanted: &[Option<Position>], row: usize, rows: &mut TaskSets)
    requires { row_of row + length wanted.now ≤ table_places }
    ensures { rows.new ≡ laid (length wanted.now) (want_set wanted.now) (row_of row) rows.old }
{
    for (i, w) in wanted.iter().enumerate() {
        rows[row * Model::COLUMNS + i] = set_of(*w);
    }
}

// Where a step lands: at its effect, else at its need, whose set is given.
fn land_set(effect: Option<Position>, need: u32) -> u32
    ensures { (n : Option Position) → need ≡ set_of n → result ≡ land_set n effect }
{
    match effect {
        Some(_) => set_of(effect),
        None => need,
    }
}

// Where every step lands, as sets. By index, since two tables are read at each place. The need's set is read where it was laid: to make it anew from the
// model's needs took a small run a sixth of its time.
fn fill_lands(model: &Model, rows: &mut TaskSets)
    requires { (i : ℕ) → i < step_places → get_or rows.old i 0 ≡ want_set model.now.need i }
    ensures { rows.new ≡ laid step_places (lands_set model.now) (row_of lands_row) rows.old }
{
    for i in 0..Model::STEPS * Model::COLUMNS {
        rows[Model::LANDS * Model::COLUMNS + i] = land_set(model.effect[i], rows[i]);
    }
}

// The start as it stands: sets of one position each.
fn fill_start(model: &Model, rows: &mut TaskSets)
    requires { Accepted (task_of model.now) }
    ensures { rows.new ≡ laid model.now.columns (start_set model.now) (row_of start_row) rows.old }
{
    for j in 0..model.columns {
        rows[Model::START * Model::COLUMNS + j] = alone(model.start[j]);
    }
}

// Whether a step leads from one set to another, by its need and its landing there.
#[tactic(auto, unfolding(blocks::specs::Masks::passes, blocks::specs::Masks::lies, blocks::specs::Blocks::common, blocks::specs::Blocks::is_empty))]
fn passes(need: u32, land: u32, a: u32, b: u32) -> bool
    ensures { result ≡ passes need land a b }
{
    lies(need, a) && lies(land, b) && (land != 0 || a & b != 0)
}

// Whether every wanted position lies in a set.
pub fn lies(wanted: u32, a: u32) -> bool
    ensures { result ≡ lies wanted a }
{
    a & wanted == wanted
}

// Whether n sets from place i on lie in those from place k on, each in its own. The places where they begin are given, as the definition has them, so that a
// caller's proof is this clause.
pub fn all_lie(n: usize, i: usize, k: usize, wants: &[u32], sets: &[u32]) -> bool
    requires { (i + n ≤ length wants.now) × (k + n ≤ length sets.now) }
    ensures { result ≡ all_lie n i k wants.now sets.now }
{
    (0..n).all(|j| lies(wants[i + j], sets[k + j]))
}
