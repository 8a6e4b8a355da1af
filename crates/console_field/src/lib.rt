// The console's commands over the field and the tables.
#![tactic(auto)]

mod elements;
mod kernels;

use console_lines::commands::Command;
use console_lines::memory::Words;
use console_lines::replies::{Outcome, Reply};

// The answer to one of these commands, by the words of the answer.
pub fn reply(command: Command, x: &[u32], words: &mut Words) -> Outcome {
    match command {
        Command::EvalEqRotCube => kernels::eval_eq_rot_cube(x, words),
        Command::EvalsEqHypercube => kernels::evals_eq_hypercube([1, 0, 0, 0], x, words)?,
        Command::EvalsEqHypercubeFrom => kernels::evals_eq_hypercube_from(x, words)?,
        Command::Add
        | Command::Sub
        | Command::Mul
        | Command::Square
        | Command::Halve
        | Command::ExpPowerOf2 => words.grow(&elements::value(command, x)?),
        _ => words.grow(&kernels::value(command, x)?),
    }
    Ok(Reply::Done)
}
