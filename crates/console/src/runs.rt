// The commands that need the prover or the work buffers: a run's calls, its room, `work`, `len` and `set`.
use crate::work::{Work, given};
use console_answers::rooms::room;
use console_lines::commands::Command;
use console_lines::memory::{Held, Words, element};
use console_lines::replies::{Outcome, Refusal, Reply};
use prover::stacked_reduction;
use prover::stacked_reduction::Step;
use prover::turns::Turn;

// A length of a buffer of at most so many words.
fn within(n: usize, most: usize) -> Result<usize, Refusal> {
    if most < n {
        return Err(Refusal::Full);
    }
    Ok(n)
}

// len B X: of the four work buffers, the openings, the observed slice, the first polynomial, the claims.
fn len(buffer: u32, n: usize, held: &mut Held, work: &mut Work) -> Outcome {
    match buffer {
        4 => held.lengths.openings = within(n, 65536)?,
        5 => held.lengths.observed = within(n, 73984)?,
        6 => held.lengths.first = within(n, 8224)?,
        7 => held.lengths.claims = within(n, 65536)?,
        _ => work.hand(buffer, n)?,
    }
    Ok(Reply::Done)
}

// The turn after a call, and whether it was accepted.
fn turned(held: &mut Held, step: Step) -> Result<(), Refusal> {
    held.turn = step.turn.calls;
    step.answer?;
    Ok(())
}

// start
fn start(held: &mut Held, work: &mut Work) -> Outcome {
    let step = work.start(held);
    turned(held, step)?;
    held.run.clear();
    Ok(Reply::Done)
}

// fold0 a b c d and fold J a b c d
fn folded(held: &mut Held, step: Step, u: [u32; 4]) -> Outcome {
    turned(held, step)?;
    held.run.challenges.grow(&u);
    Ok(Reply::Done)
}

// pair J
fn pair(round: u32, held: &mut Held, work: &Work, words: &mut Words) -> Outcome {
    let got = work.pair(held, round);
    let one = got.one;
    let two = got.two;
    held.turn = got.turn.calls;
    got.answer?;
    words.grow(&one);
    words.grow(&two);
    held.run.pairs.grow(words.given());
    Ok(Reply::Done)
}

// openings
fn openings(held: &mut Held, work: &Work, words: &mut Words) -> Outcome {
    let out = words.lent(held.lengths.openings)?;
    let step = work.openings(held, out);
    turned(held, step)?;
    held.run.opened.keep(words.given())?;
    Ok(Reply::Done)
}

// round0
fn first(held: &mut Held, words: &mut Words) -> Outcome {
    let out = words.lent(held.lengths.first)?;
    let step = stacked_reduction::batch_sumcheck_uni_round0_poly(
        given(held),
        Turn { calls: held.turn },
        held.matrix.given(),
        out,
    );
    turned(held, step)?;
    held.run.first.keep(words.given())?;
    Ok(Reply::Done)
}

// column_openings
fn claims(held: &mut Held, words: &mut Words) -> Outcome {
    let out = words.lent(held.lengths.claims)?;
    stacked_reduction::column_openings(given(held), held.matrix.given(), out)?;
    held.run.claims.keep(words.given())?;
    Ok(Reply::Done)
}

// The answer to one of these commands, by the words of the answer.
pub fn reply(
    command: Command,
    x: &[u32],
    held: &mut Held,
    work: &mut Work,
    words: &mut Words,
) -> Outcome {
    match (command, x) {
        (Command::Room, []) => {
            room(held)?;
            work.room(held, words)
        }
        (Command::Start, []) => start(held, work),
        (Command::Round0, []) => first(held, words),
        (Command::ColumnOpenings, []) => claims(held, words),
        (Command::Fold0, u) => {
            let u = element(u);
            let step = work.fold_at_u_0(held, u);
            folded(held, step, u)
        }
        (Command::Pair, [round]) => pair(*round, held, work, words),
        (Command::Fold, [round, u @ ..]) => {
            let u = element(u);
            let step = work.fold(held, *round, u);
            folded(held, step, u)
        }
        (Command::Openings, []) => openings(held, work, words),
        (Command::Work, []) => work.show(words),
        (Command::Len, [buffer, n]) => len(*buffer, *n as usize, held, work),
        (Command::Set, [buffer, i, x]) => work.set(*buffer, *i, *x),
        _ => Err(Refusal::Error),
    }
}
