// A run as a caller has it: everything judged, the run made, its cuts and rows put into lent lists.
#![tactic(auto)]

ghost use Rattle.std.specs.Prelude.{◌≡◌, ℕ, ◌-◌, ◌*◌, ◌≤◌, ◌<◌, length, get_or, IfOk};
ghost use Rattle.task.specs.Loops.{over};
ghost use Rattle.task.specs.Sizes.{limits};
ghost use Rattle.task.specs.Task.{Task, step, costs};
ghost use Rattle.fields.specs.Judging.{refusal};
ghost use Rattle.fields.specs.Refusals.{refusal_number, Done, told};
ghost use Rattle.run.specs.Run.{rows, rows_of};
ghost use Rattle.run.specs.Listing.{listed, row_place};
ghost use Rattle.refining.specs.Refining.{answer_of, blocks_told, KnownEnd, StepsFit};
ghost use Rattle.running.specs.Running.{Costed, PathCosts, room_checks, returned, Runs};
ghost use Rattle.running.specs.Counts.{cut_value_count, row_count, row_value_count, Counted};

use cutting::Blocks;
use fields::refusal::Refusal;
use masks::Tables;
use preparing::{fill_whole, prepare};
use refining::{Ended, refine};
use sheets::judge_sheet;
use task::{Costs, Model, Path, Step};

// A plan with its cost and its number of steps, no plan, or open with the start's estimate, each with the number of blocks.
#[derive(Clone, Copy)]
pub enum Answer {
    Plan {
        cost: u32,
        steps: usize,
        blocks: usize,
    },
    NoPlan {
        blocks: usize,
    },
    Open {
        estimate: u32,
        blocks: usize,
    },
}

// The refusal of a room and of the lists' lengths: 7, then 8. Answers for how many blocks there is room besides the first.
fn judge_room(room: u32, cuts: &[u32], rows: &[u32]) -> Result<usize, Refusal>
    ensures judged { refusal_number result ≡ refusal (room_checks room cuts.now rows.now) }
    ensures spared { IfOk result (λ spare. spare ≡ room - 1) }
{
    // A cast, since std has no From for it; nothing is lost.
    let blocks = room as usize;
    if blocks < 1 || Model::BLOCKS < blocks {
        return Err(Refusal::Room);
    }
    let spare = blocks - 1;
    let places = spare * 3;
    if cuts.len() < places || rows.len() < places {
        return Err(Refusal::Places);
    }
    Ok(spare)
}

// Puts the rows of a path into a list, from the last to the first, and returns the cost of the path.
fn fill_rows(path: &[Step], cost: &Costs, list: &mut [u32]) -> u32
    requires few { length path.now < limits.blocks }
    requires room { length path.now * 3 ≤ length list.old }
    requires known { (i : ℕ) → i < length path.now → (get_or path.now i (step 0)).0 < limits.steps }
    ensures { (t : Task) → Costed t (length path.now) path.now cost.now → (result ≡ costs t path.now)
        × (list.new ≡ over (listed row_place (rows t path.now)) list.old) }
{
    let mut left: u32 = 0;
    // From the last row on, since a row has the tenths left after it.
    for i in (0..path.len()).rev() {
        let step = path[i];
        let paid = u32::from(cost[usize::from(step.0)]);
        let place = i * 3;
        list[place] = u32::from(step.0);
        list[place + 1] = paid;
        list[place + 2] = left;
        left += paid;
    }
    left
}

// What a run that has ended answers, with the rows of its plan put into the list.
fn tell(ended: Ended, path: &Path, cost: &Costs, list: &mut [u32]) -> Answer
    requires known { KnownEnd limits.steps ended path.now }
    requires room { StepsFit ended (length list.old) }
    ensures { (t : Task) → PathCosts t ended path.now cost.now
        → (result ≡ returned t (blocks_told ended) (answer_of ended path.now))
        × (list.new ≡ over (listed row_place (rows_of t (answer_of ended path.now))) list.old) }
{
    match ended {
        Ended::Plan { steps, blocks } => {
            let cost = fill_rows(&path[..steps], cost, list);
            Answer::Plan {
                cost,
                steps,
                blocks,
            }
        }
        Ended::NoPlan { blocks } => Answer::NoPlan { blocks },
        Ended::Open { estimate, blocks } => Answer::Open { estimate, blocks },
    }
}

// Judges a model sheet, the room and the lists, makes the run, and fills the lists with its cuts and the rows of its plan.
pub fn run(sheet: &[u8], room: u32, cuts: &mut [u32], rows: &mut [u32]) -> Result<Answer, Refusal>
    ensures { Runs sheet.now room cuts.old rows.old (told result) cuts.new rows.new }
{
    judge_sheet(sheet)?;
    let spare = judge_room(room, cuts, rows)?;
    let mut tables = Tables::new();
    prepare(sheet, &mut tables);
    let mut blocks = Blocks::new();
    fill_whole(sheet, tables.shape.columns, &mut blocks);
    let mut path = [Step(0); Model::BLOCKS];
    let ended = refine(&tables, spare, &mut blocks, cuts, &mut path);
    Ok(tell(ended, &path, &tables.costs, rows))
}

impl Answer {
    // A plan has a row for each step.
    #[tactic(auto, unfolding(crate::specs::Counts::row_count))]
    pub fn row_count(self) -> usize
        ensures { result ≡ row_count (Done self) }
    {
        match self {
            Answer::Plan { steps, .. } => steps,
            Answer::NoPlan { .. } | Answer::Open { .. } => 0,
        }
    }
}

// How many values the cuts of an answer take in the list: there is one cut less than blocks. No method, since a caller of the planner may have made up the
// answer, and this asks for one of a run.
#[tactic(auto, unfolding(crate::specs::Counts::cut_value_count, crate::specs::Counts::Counted))]
pub fn cut_values(answer: Answer) -> usize
    requires { Counted (Done answer) }
    ensures { result ≡ cut_value_count (Done answer) }
{
    let (Answer::Plan { blocks, .. } | Answer::NoPlan { blocks } | Answer::Open { blocks, .. }) =
        answer;
    (blocks - 1) * 3
}

// The same of its rows.
#[tactic(auto, unfolding(crate::specs::Counts::row_value_count))]
pub fn row_values(answer: Answer) -> usize
    requires { Counted (Done answer) }
    ensures { result ≡ row_value_count (Done answer) }
{
    answer.row_count() * 3
}
