// A console over the calls: commands on standard input, one a line, and one line of output for each. The crates console_* have the
// commands but those of a run; here stand these, and the arrays that all work on.
#![tactic(auto)]

mod runs;
mod work;

use crate::work::Work;
use console_answers::{answer, asked, close};
use console_lines::lines::{Input, Line};
use console_lines::memory::{Held, List, Words};
use console_lines::replies::Outcome;

// The answer to a line, by the words of the answer.
fn answered(
    line: Line,
    input: &Input,
    held: &mut Held,
    work: &mut Work,
    words: &mut Words,
) -> Outcome {
    let (command, x) = match asked(line, input) {
        Ok(asked) => asked,
        Err(outcome) => return outcome,
    };
    match answer(command, x, held, words) {
        Some(outcome) => outcome,
        None => runs::reply(command, x, held, work, words),
    }
}

// Answers line after line to the end of the input. A loop has to end, and nothing says that an input does: so it has a count of
// turns that no run uses up.
fn serve(input: &mut Input, held: &mut Held, work: &mut Work, words: &mut Words) {
    for _ in 0..u64::MAX {
        let Some(line) = input.next_line() else {
            return;
        };
        words.clear();
        let outcome = answered(line, input, held, work, words);
        close(outcome, line, held, words.given());
    }
}

fn main() {
    let mut input = Input::new();
    let mut held = Held::new();
    let mut work = Work::new();
    let mut words = List::new();
    serve(&mut input, &mut held, &mut work, &mut words);
}
