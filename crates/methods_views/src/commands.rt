// The word of a line and its numbers, as a command. A number that is not there is 0, and one too many is not looked at.
ghost use Rattle.std.specs.Prelude.{◌<◌, length, MatchOption};
ghost use Rattle.text.specs.Names.{words_of, Placed};
ghost use Rattle.methods_views.specs.Commands.{place_of};

use crate::readings::{Named, Reading};
use field::slice::word_at;
use std::array;
use text::name::find;

// The words that a line can have, a space between.
const WORDS: &[u8] = b"\
shape matrix point lambda len start fold0 fold pair openings work round0 mat_shape mat_view mat_cell new new_cell";

// In the order of their words.
#[derive(Clone, Copy)]
enum Word {
    Shape,
    Matrix,
    Point,
    Lambda,
    Len,
    Start,
    Fold0,
    Fold,
    Pair,
    Openings,
    Work,
    Round0,
    MatShape,
    MatView,
    MatCell,
    New,
    NewCell,
}

const COMMANDS: [Word; 17] = [
    Word::Shape,
    Word::Matrix,
    Word::Point,
    Word::Lambda,
    Word::Len,
    Word::Start,
    Word::Fold0,
    Word::Fold,
    Word::Pair,
    Word::Openings,
    Word::Work,
    Word::Round0,
    Word::MatShape,
    Word::MatView,
    Word::MatCell,
    Word::New,
    Word::NewCell,
];

impl Word {
    // The command whose word it is.
    fn of(word: &[u8]) -> Option<Word>
        ensures { let words = words_of WORDS.now in MatchOption result (Placed words word.now (length words)) (λ command. (place_of command < length words) × Placed words word.now (place_of command)) }
    {
        let place = find(WORDS, word)?;
        Some(COMMANDS[place])
    }
}

// A call of a run, with the numbers of its line: a round, a challenge.
#[derive(Clone, Copy)]
pub enum Call {
    Start,
    FoldFirst([u32; 4]),
    Fold(u32, [u32; 4]),
    Pair(u32),
    Openings,
    Work,
    RoundZero,
}

#[derive(Clone, Copy)]
pub(crate) enum Command<'a> {
    // The commands that set what is held; the last a buffer's length.
    Shape(&'a [u32]),
    Matrix(&'a [u32]),
    Point(&'a [u32]),
    Lambda([u32; 4]),
    Length(u32, usize),
    Call(Call),
    Read(Reading),
}

// The first four numbers.
fn four(x: &[u32]) -> [u32; 4] {
    array::from_fn(|i| word_at(x, i))
}

impl<'a> Command<'a> {
    pub(crate) fn named(word: &[u8], x: &'a [u32]) -> Option<Command<'a>> {
        let first = word_at(x, 0);
        let size = |i| word_at(x, i) as usize;
        let matrix = Named::Matrix(size(0));
        let made = Named::Made(size(0), size(1));
        Some(match Word::of(word)? {
            Word::Shape => Command::Shape(x),
            Word::Matrix => Command::Matrix(x),
            Word::Point => Command::Point(x),
            Word::Lambda => Command::Lambda(four(x)),
            Word::Len => Command::Length(first, size(1)),
            Word::Start => Command::Call(Call::Start),
            Word::Fold0 => Command::Call(Call::FoldFirst(four(x))),
            Word::Fold => Command::Call(Call::Fold(first, four(x.get(1..).unwrap_or(&[])))),
            Word::Pair => Command::Call(Call::Pair(first)),
            Word::Openings => Command::Call(Call::Openings),
            Word::Work => Command::Call(Call::Work),
            Word::Round0 => Command::Call(Call::RoundZero),
            Word::MatShape => Command::Read(Reading::Shape(size(0))),
            Word::MatView => Command::Read(Reading::View(matrix)),
            Word::MatCell => Command::Read(Reading::Cell(matrix, size(1), size(2))),
            Word::New => Command::Read(Reading::View(made)),
            Word::NewCell => Command::Read(Reading::Cell(made, size(2), size(3))),
        })
    }
}
