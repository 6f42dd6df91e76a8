// What turns a record or a call away.
ghost use Rattle.std.specs.Prelude.{◌≡◌, true, false, MatchResult};
ghost use Rattle.generator.specs.Answers.{number};

// With their numbers. Number 6 is given by no call.
#[derive(Clone, Copy, Debug, PartialEq, Eq)]
pub enum Refusal {
    Kind = 1,
    Body = 2,
    Field = 3,
    Size = 4,
    Root = 5,
    Lanes = 7,
    Length = 8,
    Range = 9,
    Twice = 10,
    Symbol = 11,
    Word = 12,
    Stale = 13,
    Far = 14,
    Already = 15,
    Many = 16,
    Traces = 17,
    Carry = 18,
}

impl Refusal {
    // The refusal where its condition holds.
    pub fn when(self, bad: bool) -> Result<(), Refusal>
        ensures { MatchResult result (λ _. bad ≡ false) (λ e. (bad ≡ true) × (e ≡ self)) }
    {
        if bad { Err(self) } else { Ok(()) }
    }
}

// The number itself is asked for by the interface for C and by the texts: this conversion gives it.
impl From<Refusal> for u8 {
    ghost from_gives = { λ e n. n ≡ number e };

    fn from(refusal: Refusal) -> u8 {
        refusal as u8
    }
}
