ghost use Rattle.std.specs.Prelude.{◌≡◌};
ghost use Rattle.book.specs.Answers.{answer_number};

use seats::refusal::Refusal;

// The rows in use, and how many fingerprints are held.
#[derive(Clone, Copy, PartialEq, Eq, Debug)]
pub struct Rows {
    pub rows: u32,
    pub held: u32,
}

// What comes of a call that is not turned away.
#[derive(Clone, Copy, PartialEq, Eq, Debug)]
pub enum Outcome<T> {
    // the tally of the fingerprint, after a post or as it was erased
    Tallied(T),
    // the tally that is held after a reversal or a look-up, or nothing
    Held(Option<T>),
    // after widening or narrowing
    Sized(Rows),
}

// What a call answers: what comes of it, or why it is turned away.
pub type Answer<T> = Result<Outcome<T>, Refusal>;

// The number of the refusal, or 0. That 0 is the figure which a call's line has where it is not turned away.
pub fn number_of<X>(answer: &Result<X, Refusal>) -> u8
    ensures { result ≡ answer_number answer.now }
{
    match answer {
        Ok(_) => 0,
        Err(refusal) => refusal.number(),
    }
}
