// What a call answers, as the program and C see it.
#![tactic(auto)]

ghost use Rattle.std.specs.Prelude.{◌≡◌, IfOk, IfErr};
ghost use Rattle.answers.specs.Numbers.{done, bare as bareAnswer};

// The number of 'What comes back' and the call's values, zeroes where it has none.
#[repr(C)]
#[derive(Clone, Copy, Debug, PartialEq, Eq)]
pub struct Answer {
    pub number: u32,
    pub first: u32,
    pub second: u32,
    pub third: u32,
}

// A number with no values.
pub fn bare(number: u32) -> Answer
    ensures { result ≡ bareAnswer number }
{
    Answer {
        number,
        first: 0,
        second: 0,
        third: 0,
    }
}

// Done, with no values.
impl From<()> for Answer {
    ghost from_gives = { λ _ a. a ≡ bareAnswer done };

    fn from(_nothing: ()) -> Answer {
        bare(0)
    }
}

// The answer to a call that was done, or refused.
pub fn answer_to<T, E>(outcome: Result<T, E>) -> Answer
where
    Answer: From<T> + From<E>,
    ensures done { IfOk outcome (λ x. ⟦<Answer as From<T>>⟧.from_gives x result) }
    ensures refused { IfErr outcome (λ e. ⟦<Answer as From<E>>⟧.from_gives e result) }
{
    match outcome {
        Ok(done) => Answer::from(done),
        Err(refusal) => Answer::from(refusal),
    }
}
