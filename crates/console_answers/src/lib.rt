// The answers to the console's lines: those that need no work buffer, with the verdict, and how each is printed.
#![tactic(auto)]

ghost use Rattle.std.specs.Prelude.{◌≡◌, length, IfOk, Some};

pub mod rooms;
mod says;
mod texts;
mod verdicts;

use console_layout::layouts;
use console_lines::commands::Command;
use console_lines::lines::{Input, Line};
use console_lines::memory::{Held, Words};
use console_lines::replies::{Outcome, Refusal, Reply};
use console_lines::settings;

// The answer to a line of another form: `help WORD` is one, and the rest are errors.
fn malformed(command: Command, input: &Input) -> Outcome {
    match command {
        Command::Help => texts::help(input.tail()),
        _ => Err(Refusal::Error),
    }
}

// A line's command and numbers, or its answer where it is of another form or its command takes another count of numbers. With more
// numbers than there is room for, the commands that take any count of them have no room for them.
pub fn asked<'a>(line: Line, input: &'a Input) -> Result<(Command, &'a [u32]), Outcome>
    ensures command { IfOk result (λ asked. line.command ≡ Some asked.0) }
    ensures numbers { IfOk result (λ asked. line.count ≡ Some (length asked.1.now)) }
{
    let command = line.command.ok_or(Err(Refusal::Error))?;
    let Some(count) = line.count else {
        return Err(malformed(command, input));
    };
    match input.numbers(count) {
        Some(numbers) if command.takes(count) => Ok((command, numbers)),
        None if command.takes_any() => Err(Err(Refusal::Full)),
        _ => Err(Err(Refusal::Error)),
    }
}

// The answer to a command and its numbers, by the words of the answer; none where it is answered where the work buffers are.
pub fn answer(command: Command, x: &[u32], held: &mut Held, words: &mut Words) -> Option<Outcome> {
    match command {
        Command::Plan | Command::Get | Command::Stack | Command::View | Command::PlanUnsorted =>
            Some(layouts::reply(command, x, held, words)),
        Command::Room
        | Command::Start
        | Command::Fold0
        | Command::Pair
        | Command::Fold
        | Command::Openings
        | Command::Work
        | Command::Len
        | Command::Set
        | Command::Round0
        | Command::ColumnOpenings => None,
        Command::Verdict => Some(verdicts::verdict(held, words)),
        Command::Observed => Some(verdicts::observed(held, words)),
        Command::Add
        | Command::Sub
        | Command::Mul
        | Command::Square
        | Command::Halve
        | Command::ExpPowerOf2
        | Command::EvalEqMle
        | Command::EvalEqUni
        | Command::EvalEqUniAtOne
        | Command::EvalInUni
        | Command::EvalEqPrism
        | Command::EvalRotKernelPrism
        | Command::EvalEqRotCube
        | Command::EvalsEqHypercube
        | Command::InterpolateQuadraticAt012
        | Command::HornerEval
        | Command::EvalsEqHypercubeFrom => Some(console_field::reply(command, x, words)),
        Command::Help => Some(Ok(Reply::Commands)),
        Command::Why => Some(texts::why(x)),
        _ => Some(settings::reply(command, x, held, words)),
    }
}

// Prints the answer to a line; where it was not done, what its command sets is empty.
pub fn close(outcome: Outcome, line: Line, held: &mut Held, words: &[u32]) {
    if let (Err(Refusal::Error | Refusal::Full), Some(command)) = (outcome, line.command) {
        settings::forget(command, held);
    }
    says::say(outcome, words);
}
