// The distances of all blocks worked out: a nearest block is settled after another, each with its least cost and, among those, the least steps.
#![tactic(auto)]

ghost use Rattle.std.specs.Prelude.{◌≡◌, false, cond, ℕ, ◌+◌, ◌*◌, ◌/◌, ◌<◌, ◌≤◌, min, get_or};
ghost use Rattle.task.specs.Sizes.{limits, most_cost, tenth};
ghost use Rattle.task.specs.Task.{Task};
ghost use Rattle.blocks.specs.Flat.{blocks_in, followed_by};
ghost use Rattle.blocks.specs.Masks.{lands_in, goals_in, goal_by};
ghost use Rattle.masks.specs.Tables.{TablesOf};
ghost use Rattle.arcs.specs.Arcs.{cost_in};
ghost use Rattle.arcs.specs.Words.{word, words, in_word, told};
ghost use Rattle.settling.specs.Ways.{no_way, AllDist};
ghost use Rattle.settling.specs.Turns.{arcs_of, goals_of, Ready, Turned, Settled, Picked, Lowered, Relaxed, Started};
ghost use Rattle.settling.specs.Coded.{coded_over, Measured};

use arcs::{Arcs, WORD, fits_in, has_bit};
use cutting::{Blocks, Followed, follow};
use masks::Tables;
use task::{Block, Distances, Model};

// The distance of a block with no way. By a cast, since a constant calls no `From`.
pub const NO_WAY: u64 = Model::NO_WAY as u64 * Model::TENTH;

// A goal block begins at 0, and any other with no way.
fn first_value(goal: bool) -> u64
    ensures { result ≡ cond goal 0 no_way }
{
    if goal { 0 } else { NO_WAY }
}

// The values before the first turn.
fn start(tables: &Tables, blocks: &Blocks, dist: &mut Distances)
    ensures { Started (goal_by tables.now.shape.columns (goals_in tables.now.rows) blocks.now.sets) blocks.now.count dist.old dist.new }
{
    // By an index, which is the block's number.
    for a in 0..blocks.count {
        dist[a] = first_value(tables.is_goal_block(Block(a as u16), &blocks.sets));
    }
}

// The nearest block that is not settled, if one has a value.
fn nearest(count: usize, dist: &Distances, done: &[bool; Model::BLOCKS]) -> Option<usize>
    requires { count ≤ limits.blocks }
    ensures { Picked count dist.now done.now result }
{
    let mut best = None;
    let mut low = NO_WAY;
    // By an index: it is the answer, and the place of the block in both lists.
    for a in 0..count {
        if !done[a] && dist[a] < low {
            low = dist[a];
            best = Some(a);
        }
    }
    best
}

// What a step adds to a distance: its cost, and one step.
pub fn weigh(cost: u16) -> u64
    ensures { (result ≡ cost * tenth + 1) × (result ≤ most_cost * tenth + 1) }
{
    u64::from(cost) * Model::TENTH + 1
}

// Gives the value k to a block that has a greater one.
fn lower_value(d: &mut u64, k: u64)
    ensures { d.new ≡ min k d.old }
{
    *d = k.min(*d);
}

// Gives the value k to each block of a mask of word w that has a greater one.
fn lower_word(w: usize, v: u32, k: u64, dist: &mut Distances)
    requires { w < words }
    ensures { Lowered (in_word w v) k (w * word + word) dist.old dist.new }
{
    if v == 0 {
        return;
    }
    let row = w * WORD;
    for i in 0..WORD {
        if has_bit(v, i) {
            lower_value(&mut dist[row + i], k);
        }
    }
}

// Gives the value k to each open block that has a greater one, from which step s can be taken and that meets the settled block in every kept column.
fn lower(tables: &Tables, arcs: &Arcs, s: usize, k: u64, dist: &mut Distances)
    requires { s < limits.steps }
    ensures { Lowered (told arcs.now.few arcs.now.narrow (lands_in tables.now.rows) arcs.now.able arcs.now.meets arcs.now.left s) k
        (arcs.now.used * word) dist.old dist.new }
{
    for w in 0..arcs.used {
        lower_word(w, arcs.arc_word(tables, s, w), k, dist);
    }
}

// Tries every step into block b, once the arcs are turned to it.
fn tries(tables: &Tables, blocks: &Blocks, arcs: &Arcs, b: usize, dist: &mut Distances)
    requires known { get_or dist.old b 0 < no_way }
    requires turned { Turned tables.now blocks.now arcs.now dist.old b }
    ensures { Relaxed blocks.now.count (arcs_of tables.now blocks.now) (cost_in tables.now.costs) dist.old dist.new b }
{
    let base = dist[b];
    for s in 0..tables.shape.steps {
        let k = base + weigh(tables.costs[s]);
        if fits_in(tables, Model::LANDS + s, blocks, b) {
            lower(tables, arcs, s, k, dist);
        }
    }
}

// Settles a nearest block after another, until none is left that has a value.
fn settle(
    tables: &Tables,
    blocks: &Blocks,
    done: &mut [bool; Model::BLOCKS],
    arcs: &mut Arcs,
    dist: &mut Distances,
)
    requires none { (a : ℕ) → get_or done.old a false ≡ false }
    requires ready { Ready tables.now blocks.now arcs.old }
    requires started { Started (goal_by tables.now.shape.columns (goals_in tables.now.rows) blocks.now.sets) blocks.now.count dist.old dist.old }
    ensures { AllDist (arcs_of tables.now blocks.now) (goals_of tables.now blocks.now) (cost_in tables.now.costs) blocks.now.count dist.old dist.new }
{
    while let Some(b) = nearest(blocks.count, dist, done) {
        done[b] = true;
        arcs.turn_to(tables, blocks, b, done);
        tries(tables, blocks, arcs, b, dist);
    }
}

// Works out the distance of every block. Places past the last block stay as they are.
pub fn fill_distances(tables: &Tables, blocks: &Blocks, dist: &mut Distances)
    ensures { (t : Task) → TablesOf t tables.now
        → dist.new ≡ coded_over t (blocks_in tables.now.shape.columns blocks.now.count blocks.now.sets) blocks.now.count dist.old }
{
    let mut done = [false; Model::BLOCKS];
    let mut arcs = Arcs::new(blocks.count);
    arcs.fill_able(tables, blocks);
    start(tables, blocks, dist);
    settle(tables, blocks, &mut done, &mut arcs, dist);
}

// The cost of a block's distance, in a table.
pub fn cost_at(dist: &Distances, b: Block) -> u32
    requires { (b.0 < limits.blocks) × (get_or dist.now b.0 0 / tenth ≤ limits.no_way) }
    ensures { result ≡ get_or dist.now b.0 0 / tenth }
{
    // A cast, since std has no From for it; nothing is lost.
    (dist[usize::from(b.0)] / Model::TENTH) as u32
}

// The cost from a state on: that of its block, in a table of distances.
pub fn find_cost<S: Followed>(count: usize, cuts: &[u32], dist: &Distances, state: &S) -> u32
    requires measured { Measured count cuts.now dist.now }
    requires placed { (i : ℕ) → i < count → S.placed state.now (get_or cuts.now (i * 3 + 1) 0) }
    ensures { result ≡ get_or dist.now (followed_by (S.has_of state.now) cuts.now count) 0 / tenth }
{
    let b = follow(count, cuts, state);
    cost_at(dist, b)
}
