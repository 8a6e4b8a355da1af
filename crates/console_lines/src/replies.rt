// What a line is answered.
ghost use Rattle.std.specs.Prelude.{◌≡◌};

use field::answer;

// What a line that was done is answered, by the words of the answer.
#[derive(Clone, Copy)]
pub enum Reply {
    // The words in decimal.
    Done,
    // So many words in decimal, and the rest as records in hexadecimal, each of four words, the highest first.
    Records(usize),
    // A verdict's yes.
    Yes,
    // The words that a line can have.
    Commands,
    Text(&'static [u8]),
}

// Why a line was not done.
#[derive(Clone, Copy)]
pub enum Refusal {
    Error,
    Full,
    // Why a call refuses.
    Call(answer::Refusal),
    // The same of a verdict, and the words of the answer: both sides.
    Sides(answer::Refusal),
}

impl From<answer::Refusal> for Refusal {
    ghost use Rattle.console_lines.specs.declared.replies.Refusal.{Refusal};

    ghost from_gives = { λ why refusal. refusal ≡ Refusal.Call why };

    fn from(why: answer::Refusal) -> Refusal {
        Refusal::Call(why)
    }
}

pub type Outcome = Result<Reply, Refusal>;
