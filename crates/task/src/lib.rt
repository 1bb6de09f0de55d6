// The task of 01: its four kinds of number, the model, and what a step does to a state.
#![tactic(auto)]

ghost use Rattle.std.specs.Prelude.{◌≡◌, ℕ, ◌≤◌, ◌<◌, get_or, take};
ghost use Rattle.task.specs.Loops.{over};
ghost use Rattle.task.specs.Sizes.{limits, most_cost};
ghost use Rattle.task.specs.Task.{step, meets, changed, can_take, taken, is_goal, costs};
ghost use Rattle.task.specs.Tables.{mark, marked, task_of, WithinLimits};

// A column, by its number.
#[derive(Clone, Copy, PartialEq, Eq)]
pub struct Column(pub u8);

// A position of a column, by its number.
#[derive(Clone, Copy, PartialEq, Eq)]
pub struct Position(pub u8);

// A step, by its number.
#[derive(Clone, Copy, PartialEq, Eq)]
pub struct Step(pub u8);

// A block, by its number.
#[derive(Clone, Copy, PartialEq, Eq)]
pub struct Block(pub u16);

// The limits of 01 as one value.
#[derive(Clone, Copy)]
pub struct Limits {
    pub columns: usize,
    pub positions: usize,
    pub steps: usize,
    pub blocks: usize,
    pub states: usize,
    pub log: usize,
    pub no_way: u32,
}

// A model. Of each column: how many positions it has, where it starts, and its goal, if any. Of each step: what it costs, and its need and its effect in each
// column, if any, with a place for every column that a model can have. Places past the counts are not read.
// The tables stand side by side, since that is how the definitions make a model.
#[derive(Clone, Copy)]
pub struct Model {
    pub columns: usize,
    pub steps: usize,
    pub size: [u8; Model::COLUMNS],
    pub start: [Position; Model::COLUMNS],
    pub goal: [Option<Position>; Model::COLUMNS],
    pub cost: Costs,
    pub need: [Option<Position>; Model::STEPS * Model::COLUMNS],
    pub effect: [Option<Position>; Model::STEPS * Model::COLUMNS],
}

// How many columns and steps a model has, within the limits, so that every place is there.
#[derive(Clone, Copy)]
pub struct Shape {
    pub columns: usize,
    pub steps: usize,
    pub ghost within: { (columns ≤ limits.columns) × (steps ≤ limits.steps) },
}

// A state: the position of each column, and places past the model's columns.
pub type State = [Position; Model::COLUMNS];

// A list of steps, as long as any plan's.
pub type Steps = [Step; Model::BLOCKS - 1];

// A set of positions for each column: a goal, a state as it stands, what is wanted of one.
pub type ColumnSets = [u32; Model::COLUMNS];

// The same for each block.
pub type BlockSets = [u32; Model::BLOCKS * Model::COLUMNS];

// The tables of a task, row by row: what each step needs, where each step lands, the goal, and the start as it stands.
pub type TaskSets = [u32; (2 * Model::STEPS + 2) * Model::COLUMNS];

// What each step costs.
pub type Costs = [u16; Model::STEPS];

// The distance of each block, as one number: its cost in units of Model::TENTH, and its steps.
pub type Distances = [u64; Model::BLOCKS];

// The steps that a walk took.
pub type Path = [Step; Model::BLOCKS];

impl Model {
    pub const COLUMNS: usize = 16;

    pub const POSITIONS: usize = 32;

    pub const STEPS: usize = 128;

    pub const BLOCKS: usize = 256;

    // In one question.
    pub const STATES: usize = 64;

    // Steps in one replay.
    pub const LOG: usize = 255;

    pub const NO_WAY: u32 = 16777215;

    // The rows of a task's tables after those of the steps' needs: the first landing, the goal, the start.
    pub const LANDS: usize = Model::STEPS;

    pub const GOAL: usize = 2 * Model::STEPS;

    pub const START: usize = 2 * Model::STEPS + 1;

    // A tenth in a distance that is one number: the steps are counted below it.
    pub const TENTH: u64 = 65536;

    // The limits, for the definitions to be held to.
    pub fn limits() -> Limits
        ensures { result ≡ limits }
    {
        Limits {
            columns: Model::COLUMNS,
            positions: Model::POSITIONS,
            steps: Model::STEPS,
            blocks: Model::BLOCKS,
            states: Model::STATES,
            log: Model::LOG,
            no_way: Model::NO_WAY,
        }
    }

    // Whether the step can be taken in the state.
    pub fn can_take(&self, step: Step, state: State) -> bool
        requires { WithinLimits self.now × (step.0 < self.now.steps) }
        ensures { result ≡ can_take (task_of self.now) step state }
    {
        let place = usize::from(step.0) * Model::COLUMNS;
        (0..self.columns).all(|j| met(self.need[place + j], state[j]))
    }

    // The state after the step. Places past the model's columns stay as they are.
    pub fn take(&self, step: Step, state: State) -> State
        requires { WithinLimits self.now × (step.0 < self.now.steps) }
        ensures { result ≡ over (taken (task_of self.now) step state) state }
    {
        let place = usize::from(step.0) * Model::COLUMNS;
        let mut after = state;
        for j in 0..self.columns {
            after[j] = moved(self.effect[place + j], state[j]);
        }
        after
    }

    // Whether the state is a goal state.
    pub fn is_goal(&self, state: State) -> bool
        requires { WithinLimits self.now }
        ensures { result ≡ is_goal (task_of self.now) state }
    {
        (0..self.columns).all(|j| met(self.goal[j], state[j]))
    }

    // The cost of the first `count` steps of a list, which is as long as any plan's, since there is no heap.
    pub fn cost_of(&self, list: Steps, count: usize) -> u32
        requires { WithinLimits self.now × ((count < limits.blocks) × ((i : ℕ) → i < count → (get_or list i (step 0)).0 < self.now.steps)) }
        ensures { result ≡ costs (task_of self.now) (take count list) }
    {
        let mut sum: u32 = 0;
        for i in 0..count {
            let at = usize::from(list[i].0);
            sum += tenths(self.cost[at]);
        }
        sum
    }
}

impl Position {
    // What a mark on a sheet says: 0 is none, anything else the position plus 1.
    pub fn of_mark(number: u8) -> Option<Position>
        ensures { result ≡ mark number }
    {
        match number {
            0 => None,
            _ => Some(Position(number - 1)),
        }
    }
}

// Whether a position meets a need or a goal, if there is one.
#[tactic(auto, unfolding(crate::specs::Task::meets, crate::specs::Tables::marked))]
pub fn met(wanted: Option<Position>, position: Position) -> bool
    ensures { result ≡ meets (marked wanted) position }
{
    wanted.is_none_or(|p| p == position)
}

// The position after an effect, if there is one.
#[tactic(auto, unfolding(crate::specs::Task::changed, crate::specs::Tables::marked))]
pub fn moved(effect: Option<Position>, position: Position) -> Position
    ensures { result ≡ changed (marked effect) position }
{
    effect.unwrap_or(position)
}

// A step's cost in a wider number, with the bound that a sum of costs needs.
pub fn tenths(cost: u16) -> u32
    ensures { (result ≡ cost) × (result ≤ most_cost) }
{
    u32::from(cost)
}
