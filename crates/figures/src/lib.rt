// The figures of a replay: for each row the tenths paid, the ground won and the detour, from the estimates along the log.
#![tactic(auto)]

ghost use Rattle.std.specs.Prelude.{◌≡◌, ℕ, ◌+◌, ◌*◌, ◌≤◌, ◌<◌, length, get_or};
ghost use Rattle.task.specs.Sizes.{limits};
ghost use Rattle.fields.specs.Judging.{each};
ghost use Rattle.fields.specs.Places.{puts};
ghost use Rattle.figures.specs.Figures.{RowFits, won_by, detour_by, row_of, row_by};

use task::Model;

// A dash, as a row shows it. A cast, since std has no From for it; nothing is lost.
const DASH: i32 = Model::NO_WAY as i32;

// The ground won: the estimate before less the estimate after, or a dash. Only the state after is looked at: no step leads from a state without a way to one
// that has one, so where an earlier row has a dash the state after this one has no way either.
#[tactic(auto, unfolding(replay::specs::Replay::dash))]
fn won(before: u32, after: u32) -> i32
    requires { (before ≤ limits.no_way) × (after ≤ limits.no_way) }
    ensures { result ≡ won_by before after }
{
    if after == Model::NO_WAY {
        DASH
    } else {
        // A cast, since std has no From for it; nothing is lost.
        before as i32 - after as i32
    }
}

// The detour: paid less won, or a dash.
#[tactic(auto, unfolding(replay::specs::Replay::dash))]
fn detour(paid: u16, before: u32, after: u32) -> i32
    requires { (before ≤ limits.no_way) × (after ≤ limits.no_way) }
    ensures { result ≡ detour_by paid before after }
{
    if after == Model::NO_WAY {
        DASH
    } else {
        i32::from(paid) - won(before, after)
    }
}

// Puts row i: three values.
#[tactic(auto, unfolding(replay::specs::Replay::dash, fields::specs::Places::puts))]
fn put_row(i: usize, paid: u16, before: u32, after: u32, rows: &mut [i32])
    requires { RowFits i before after (length rows.old) }
    ensures { rows.new ≡ puts (i * 3) (row_of paid before after) rows.old }
{
    let place = i * 3;
    rows[place] = i32::from(paid);
    rows[place + 1] = won(before, after);
    rows[place + 2] = detour(paid, before, after);
}

// Puts a row for each step of the log.
pub fn put_rows(costs: &[u16], log: &[u32], estimates: &[u32; Model::LOG + 1], rows: &mut [i32])
    requires room { (length log.now ≤ limits.log) × (length log.now * 3 ≤ length rows.old) }
    requires known { ((i : ℕ) → i < length log.now → get_or log.now i 0 < length costs.now) }
    requires low { ((i : ℕ) → i ≤ length log.now → get_or estimates.now i 0 ≤ limits.no_way) }
    ensures { rows.new
        ≡ puts 0 (each (length log.now) (row_by costs.now log.now estimates.now)) rows.old }
{
    // Written by index: what is written through chunks_exact_mut is not known to proofs, but for its length.
    for (i, step) in log.iter().enumerate() {
        // A cast, since std has no From for it; nothing is lost.
        let paid = costs[*step as usize];
        put_row(i, paid, estimates[i], estimates[i + 1], rows);
    }
}
