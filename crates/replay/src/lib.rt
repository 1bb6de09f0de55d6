// A shift's steps replayed from the start: what is said of them. The functions that are held to it stand in `replaying`.
#![tactic(auto)]

ghost use Rattle.std.specs.Prelude.{◌≡◌};
ghost use Rattle.replay.specs.declared.ReplayRefusal.TheVariants.{Judged};

use fields::refusal::Refusal;

// Why a replay is refused: as any other judging, or by its first row, counted from 1, whose step is unknown or cannot be taken.
#[derive(Clone, Copy, PartialEq, Eq)]
pub enum ReplayRefusal {
    Judged(Refusal),
    Step { row: usize },
}

impl From<Refusal> for ReplayRefusal {
    ghost from_gives = { λ r a. a ≡ Judged r };

    fn from(refusal: Refusal) -> ReplayRefusal {
        ReplayRefusal::Judged(refusal)
    }
}
