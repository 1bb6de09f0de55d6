// Going along a log from the start: which row stops it, and the estimate before each row and after the last. The state stands as a row of masks, so that no
// step copies the model.
#![tactic(auto)]

ghost use Rattle.std.specs.Prelude.{◌≡◌, ℕ, ◌+◌, ◌<◌, ◌≤◌, length, get_or};
ghost use Rattle.task.specs.Loops.{tab, over};
ghost use Rattle.task.specs.Sizes.{limits};
ghost use Rattle.blocks.specs.Masks.{lands_in};
ghost use Rattle.settling.specs.Coded.{Measured};
ghost use Rattle.along.specs.Along.{goes_by, stop_row, row_of, cost_after};

use masks::Tables;
use settling::find_cost;
use standing::Standing;
use task::{Distances, Model, Step};

// Whether a log's number is a known step that can be taken.
fn may_go(tables: &Tables, here: &Standing, s: u32) -> bool
    ensures { result ≡ goes_by tables.now.shape.columns tables.now.shape.steps tables.now.rows here.now.sets s }
{
    // A cast, since std has no From for it; nothing is lost.
    s < tables.shape.steps as u32 && here.can_take(tables, Step(s as u8))
}

// The first row whose step is unknown or cannot be taken, counted from 1. The state goes along as far as that.
pub fn judge_log(tables: &Tables, log: &[u32], here: &mut Standing) -> Option<usize>
    requires { length log.now ≤ limits.log }
    ensures { result
        ≡ row_of (stop_row tables.now.shape.columns tables.now.shape.steps tables.now.rows (lands_in tables.now.rows) log.now here.old.sets) }
{
    for (i, &s) in log.iter().enumerate() {
        if !may_go(tables, here, s) {
            return Some(i + 1);
        }
        here.take(tables, Step(s as u8));
    }
    None
}

// The estimates along a log: one before each row, and one after the last.
pub fn fill_along(
    tables: &Tables,
    count: usize,
    cuts: &[u32],
    dist: &Distances,
    log: &[u32],
    here: &mut Standing,
    estimates: &mut [u32; Model::LOG + 1],
)
    requires long { length log.now ≤ limits.log }
    requires known { (i : ℕ) → i < length log.now → get_or log.now i 0 < limits.steps }
    requires measured { Measured count cuts.now dist.now }
    ensures { estimates.new ≡ over (tab (length log.now + 1)
        (cost_after tables.now.shape.columns (lands_in tables.now.rows) count cuts.now dist.now log.now here.old.sets)) estimates.old }
{
    // A cast of each step: its number was judged.
    for (i, &s) in log.iter().enumerate() {
        estimates[i] = find_cost(count, cuts, dist, &here.sets);
        here.take(tables, Step(s as u8));
    }
    estimates[log.len()] = find_cost(count, cuts, dist, &here.sets);
}
