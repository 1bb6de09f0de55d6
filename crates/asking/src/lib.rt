// Asking for the estimates of states: the states judged and read, and one estimate written for each.
#![tactic(auto)]

ghost use Rattle.std.specs.Prelude.{◌≡◌, cond, ℕ, ◌+◌, ◌*◌, ◌/◌, ◌%◌, ◌≤◌, ◌<◌, ◌↔◌, length, get_or, IsTrue, EachIndex};
ghost use Rattle.task.specs.Loops.{tab, over};
ghost use Rattle.task.specs.Sizes.{limits, most_values, tenth};
ghost use Rattle.task.specs.Task.{Task};
ghost use Rattle.fields.specs.Judging.{each};
ghost use Rattle.fields.specs.Places.{puts};
ghost use Rattle.fields.specs.Refusals.{refusal_number, told};
ghost use Rattle.blocks.specs.Flat.{blocks_in, Placed};
ghost use Rattle.masks.specs.Tables.{TablesOf};
ghost use Rattle.settling.specs.Coded.{coded_over, Measured};
ghost use Rattle.cut_sheets.specs.CutPart.{cuts_named, cut_on, count_of};
ghost use Rattle.cut_sheets.specs.CutSheet.{cut_values};
ghost use Rattle.asking.specs.Question.{bad_states, wide_state, cost_found, estimates_of, Asks};
ghost use Rattle.asking.specs.Posing.{SizesOf, Posed, Answerable, Fillable};

use cut_reading::{fill_cuts, judge_cut_sheet};
use cut_sheets::cut_count;
use cutting::{Blocks, block_of};
use fields::refusal::Refusal;
use masks::Tables;
use preparing::prepare;
use settling::{cost_at, fill_distances};
use task::{Distances, Model, Position, State};

// Whether each byte is a position of its column.
fn are_positions(sizes: &[u8], states: &[u8]) -> bool
    requires { 0 < length sizes.now }
    ensures { IsTrue result ↔ EachIndex states.now (λ i. get_or states.now i 0 < get_or sizes.now (i % length sizes.now) 0) }
{
    states
        .iter()
        .enumerate()
        .all(|(i, position)| *position < sizes[i % sizes.len()])
}

// Refuses bytes that are no states of columns with these sizes.
pub fn judge_states(sizes: &[u8], states: &[u8]) -> Result<(), Refusal>
    requires { 0 < length sizes.now }
    ensures { (t : Task) → SizesOf t sizes.now → refusal_number result ≡ cond (bad_states t states.now) 11 0 }
{
    let columns = sizes.len();
    if states.len() % columns != 0
        || Model::STATES < states.len() / columns
        || !are_positions(sizes, states)
    {
        return Err(Refusal::States);
    }
    Ok(())
}

// The state that stands in the bytes, one for each column; places past the columns are 0.
fn read_state(bytes: &[u8]) -> State
    requires { length bytes.now ≤ limits.columns }
    ensures { result ≡ wide_state (length bytes.now) bytes.now 0 }
{
    let mut state = [Position(0); Model::COLUMNS];
    for (j, byte) in bytes.iter().enumerate() {
        state[j] = Position(*byte);
    }
    state
}

// The estimate of one state: the cost from its block on, from a table of distances, in the words of a question.
pub fn find_cost(count: usize, cuts: &[u32], dist: &Distances, state: &State) -> u32
    requires { Measured count cuts.now dist.now × Placed count cuts.now state.now }
    ensures { result ≡ cost_found dist.now cuts.now count state.now }
{
    let b = block_of(count, cuts, state);
    cost_at(dist, b)
}

// One estimate for each state; places past the last stay as they are.
pub fn fill_estimates(
    columns: usize,
    count: usize,
    cuts: &[u32],
    dist: &Distances,
    states: &[u8],
    estimates: &mut [u32],
)
    requires { Measured count cuts.now dist.now × Fillable columns count cuts.now states.now (length estimates.old) }
    ensures { estimates.new
        ≡ over (tab (length states.now / columns)
        (λ k. cost_found dist.now cuts.now count (wide_state columns states.now k)))
        estimates.old }
{
    // Written by index: what is written through a zip of iter_mut with the parts is not known to proofs.
    for (k, bytes) in states.chunks_exact(columns).enumerate() {
        let state = read_state(bytes);
        estimates[k] = find_cost(count, cuts, dist, &state);
    }
}

// The cuts of an accepted part, whose blocks are given, and the distances of those blocks. Returns how many cuts there are.
pub fn measure(
    part: &[u8],
    tables: &Tables,
    blocks: &Blocks,
    cuts: &mut [u32],
    dist: &mut Distances,
) -> usize
    requires { most_values ≤ length cuts.old }
    ensures counted { (result ≡ count_of part.now) × (result < limits.blocks) }
    ensures listed { cuts.new ≡ puts 0 (each result (cut_values (cut_on part.now))) cuts.old }
    ensures measured { (t : Task) → TablesOf t tables.now
        → dist.new ≡ coded_over t (blocks_in tables.now.shape.columns blocks.now.count blocks.now.sets) blocks.now.count dist.old }
{
    let count = cut_count(part);
    fill_cuts(part, count, cuts);
    fill_distances(tables, blocks, dist);
    count
}

// The estimates of states, after the cuts of a part whose blocks are given.
fn answer(part: &[u8], tables: &Tables, blocks: &Blocks, states: &[u8], estimates: &mut [u32])
    requires { Answerable part.now tables.now blocks.now states.now (length estimates.old) }
    ensures { (t : Task) → Posed t part.now tables.now blocks.now states.now → estimates.new
        ≡ over (estimates_of t (cuts_named (cut_on part.now) (count_of part.now)) states.now) estimates.old }
{
    let mut cuts = [0u32; (Model::BLOCKS - 1) * 3];
    let mut dist = [0u64; Model::BLOCKS];
    let count = measure(part, tables, blocks, &mut cuts, &mut dist);
    fill_estimates(tables.shape.columns, count, &cuts, &dist, states, estimates);
}

// Judges a model sheet, a cut sheet and states, and writes one estimate for each state. Returns how many there are.
pub fn question(
    model: &[u8],
    sheet: &[u8],
    states: &[u8],
    estimates: &mut [u32],
) -> Result<usize, Refusal>
    ensures { Asks model.now sheet.now states.now estimates.old (told result) estimates.new }
{
    let mut blocks = Blocks::new();
    judge_cut_sheet(model, sheet, &mut blocks)?;
    let mut tables = Tables::new();
    prepare(model, &mut tables);
    let columns = tables.shape.columns;
    judge_states(&tables.sizes[..columns], states)?;
    let asked = states.len() / columns;
    if estimates.len() < asked {
        return Err(Refusal::Places);
    }
    answer(&sheet[model.len()..], &tables, &blocks, states, estimates);
    Ok(asked)
}
