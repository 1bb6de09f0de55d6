// Why something is refused.
ghost use Rattle.std.specs.Prelude.{◌≡◌};
ghost use Rattle.fields.specs.Refusals.{number};

// The refusals of the table "Refusal numbers", by their numbers.
#[derive(Clone, Copy, PartialEq, Eq)]
pub enum Refusal {
    Incomplete = 1,
    Form = 2,
    Counts = 3,
    Size = 4,
    Position = 5,
    Rest = 6,
    Room = 7,
    Places = 8,
    Cut = 9,
    Model = 10,
    States = 11,
    Log = 15,
}

impl Refusal {
    // Its number in the table.
    pub fn number(self) -> u8
        ensures { result ≡ number self }
    {
        self as u8
    }
}

impl From<Refusal> for u8 {
    ghost from_gives = { λ r n. n ≡ number r };

    fn from(refusal: Refusal) -> u8 {
        refusal.number()
    }
}
