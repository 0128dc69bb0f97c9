// A call on a session, as it is made and as it was answered.
ghost use Rattle.std.specs.Prelude.{◌≡◌, MatchResult};
ghost use Rattle.session.specs.declared.calls.Answer.TheVariants.{Count, Size, Refused};

use cells::cell::Cell;
use lines::line::Line;
use stock::refusal::Refusal;

#[derive(Drop)]
pub enum Call {
    Lay(Vec<Line>),
    Unnest,
    Add(usize, Vec<Cell>),
    Withdraw(usize, usize),
    Clear,
    Ask,
    Run,
}

// No answer yet, a count, rows or lines with a width, or a refusal. An Option of a Result would need an enum for its counts besides.
#[derive(Clone, Copy, Debug, PartialEq, Eq)]
pub enum Answer {
    Open,
    Count(usize),
    Size(usize, usize),
    Refused(Refusal),
}

impl From<usize> for Answer {
    ghost from_gives = { λ n a. a ≡ Count n };

    fn from(n: usize) -> Answer {
        Answer::Count(n)
    }
}

impl From<(usize, usize)> for Answer {
    ghost from_gives = { λ p a. a ≡ Size p.0 p.1 };

    fn from((n, width): (usize, usize)) -> Answer {
        Answer::Size(n, width)
    }
}

impl<T: Into<Answer>> From<Result<T, Refusal>> for Answer {
    ghost from_gives = { λ r a. MatchResult r (λ x. T.converts x a) (λ e. a ≡ Refused e) };

    fn from(r: Result<T, Refusal>) -> Answer {
        match r {
            Ok(x) => x.into(),
            Err(e) => Answer::Refused(e),
        }
    }
}

// A call, the cells that are lent to it, and its answer.
#[derive(Drop)]
pub struct Event {
    pub call: Call,
    pub cells: Vec<Cell>,
    pub answer: Answer,
}
