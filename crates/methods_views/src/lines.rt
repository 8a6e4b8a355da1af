// A line's command, answered unless it is a call of a run.
use crate::commands::{Call, Command};
use crate::held::Held;
use crate::replies;
use text::line::Line;

fn obey(command: Command<'_>, held: &mut Held) -> Option<Call> {
    match command {
        Command::Shape(x) => held.shape.keep(x),
        Command::Matrix(x) => held.matrix.keep(x),
        Command::Point(x) => held.point.keep(x),
        Command::Lambda(lambda) => held.lambda = lambda,
        Command::Length(buffer, length) => held.lengths.set(buffer, length),
        Command::Call(call) => return Some(call),
        Command::Read(reading) => {
            reading.answer(held);
            return None;
        }
    }
    replies::done(&[]);
    None
}

// Answers a line, or says which call of a run it is.
pub fn answer(line: Line, word: &[u8], numbers: &[u32], held: &mut Held) -> Option<Call> {
    let command = match line {
        Line::Nothing => return None,
        Line::Wrong => None,
        Line::Whole(letters, count) => Command::named(
            word.get(..letters).unwrap_or(word),
            numbers.get(..count).unwrap_or(numbers),
        ),
    };
    let Some(command) = command else {
        replies::error();
        return None;
    };
    obey(command, held)
}
