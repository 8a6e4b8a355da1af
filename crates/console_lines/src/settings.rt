// The commands that set what is held, and those that tell of it. Nothing is checked but that there is room.
use crate::commands::Command;
use crate::memory::{Held, Words, element};
use crate::replies::{Outcome, Refusal, Reply};

// What a line that was not done leaves of what its command sets: nothing, so that no words of an earlier batch stay in force.
pub fn forget(command: Command, held: &mut Held) {
    match command {
        Command::Shape => held.shape.clear(),
        Command::Matrix => held.matrix.clear(),
        Command::Cells => held.cells.clear(),
        Command::Point => held.point.clear(),
        Command::Lambda => held.lambda = [0; 4],
        Command::Challenges => held.sent.challenges.clear(),
        Command::Claims => held.sent.claims.clear(),
        Command::First => held.sent.first.clear(),
        Command::Pairs => held.sent.pairs.clear(),
        Command::Opened => held.sent.opened.clear(),
        Command::Take => held.sent.clear(),
        _ => {}
    }
}

// take: how many words each of the verdict's lists now has.
fn take(held: &mut Held, words: &mut Words) -> Result<(), Refusal> {
    held.take()?;
    let sent = &held.sent;
    words.grow(&[
        sent.challenges.size(),
        sent.pairs.size(),
        sent.opened.size(),
        sent.first.size(),
        sent.claims.size(),
    ]);
    Ok(())
}

// show
fn show(held: &Held, words: &mut Words) {
    words.grow(&[
        held.shape.counts.size(),
        held.shape.triples.size(),
        held.matrix.size(),
        held.cells.size(),
        held.point.size(),
        held.sent.challenges.size(),
        held.sent.claims.size(),
        held.sent.first.size(),
        held.sent.pairs.size(),
        held.sent.opened.size(),
    ]);
}

// The answer to one of these commands, by the words of the answer.
pub fn reply(command: Command, x: &[u32], held: &mut Held, words: &mut Words) -> Outcome {
    match command {
        Command::Shape => held.shape.set(x)?,
        Command::Matrix => held.matrix.keep(x)?,
        Command::Cells => held.cells.keep(x)?,
        Command::Point => held.point.keep(x)?,
        Command::Lambda => held.lambda = element(x),
        Command::Challenges => held.sent.challenges.keep(x)?,
        Command::Claims => held.sent.claims.keep(x)?,
        Command::First => held.sent.first.keep(x)?,
        Command::Pairs => held.sent.pairs.keep(x)?,
        Command::Opened => held.sent.opened.keep(x)?,
        Command::Take => take(held, words)?,
        Command::Show => show(held, words),
        _ => return Err(Refusal::Error),
    }
    Ok(Reply::Done)
}
