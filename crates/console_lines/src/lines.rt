// The lines of standard input, one after another.
ghost use Rattle.std.specs.Prelude.{◌≡◌, ◌<◌, length, MatchOption};

use crate::commands::Command;
use text::line;
use text::line::{Place, cut, ended, step};

// A line's command, where its word is one, and how many numbers it has, where it is of the form of a line.
#[derive(Clone, Copy)]
pub struct Line {
    pub command: Option<Command>,
    pub count: Option<usize>,
}

// Standard input, and the last line that was read of it.
#[derive(Drop)]
pub struct Input {
    ended: bool,
    // The word, and how many letters it has.
    word: [u8; 32],
    letters: usize,
    numbers: [u32; 65536],
    // The bytes behind the first space, as far as there is room, and how many they are.
    tail: [u8; 32],
    tail_len: usize,
}

impl Input {
    pub fn new() -> Self {
        let word = [0; 32];
        let numbers = [0; 65536];
        let tail = [0; 32];
        Input {
            ended: false,
            word,
            letters: 0,
            numbers,
            tail,
            tail_len: 0,
        }
    }

    // The first so many numbers of the line; none where there was no room for them.
    pub fn numbers(&self, count: usize) -> Option<&[u32]>
        ensures { MatchOption result (65536 < count) (λ numbers. length numbers.now ≡ count) }
    {
        self.numbers.get(..count)
    }

    pub fn tail(&self) -> &[u8] {
        self.tail.get(..self.tail_len).unwrap_or(&[])
    }

    // The next byte; none at the end of the input. One byte is read at a time: a line that was typed is not to wait for the next.
    fn next_byte(&mut self) -> Option<u8> {
        let mut bytes = [0u8; 1];
        self.ended = self.ended || io::read_full(0, &mut bytes) == 0;
        if self.ended {
            return None;
        }
        Some(bytes[0])
    }

    // Keeps the word's letters at the first space, and the bytes behind it.
    fn note(&mut self, place: Place, byte: u8) {
        match place {
            Place::Word(letters) if byte == b' ' => self.letters = letters,
            _ if self.letters != 0 => self.put_tail(byte),
            _ => {}
        }
    }

    fn put_tail(&mut self, byte: u8) {
        if let Some(room) = self.tail.get_mut(self.tail_len) {
            *room = byte;
            self.tail_len += 1;
        }
    }

    // The line of so many numbers.
    fn line(&self, count: Option<usize>) -> Line {
        let command = self.word.get(..self.letters).and_then(Command::named);
        Line { command, count }
    }

    // A line that the end of the input cuts is of another form, and no word of it counts.
    fn last(&mut self, place: Place) -> Option<Line> {
        self.letters = 0;
        match cut(place) {
            line::Line::Nothing => None,
            _ => Some(self.line(None)),
        }
    }

    // Reads to the end of a line that is no comment; none at the end of the input. A loop has to end, and nothing says that an
    // input does: so it has a count of turns that no run uses up.
    pub fn next_line(&mut self) -> Option<Line> {
        self.letters = 0;
        self.tail_len = 0;
        let mut place = Place::Start;
        for _ in 0..u64::MAX {
            let Some(byte) = self.next_byte() else {
                return self.last(place);
            };
            if byte == b'\n' {
                match ended(place, &mut self.numbers) {
                    line::Line::Nothing => place = Place::Start,
                    line::Line::Wrong => return Some(self.line(None)),
                    line::Line::Whole(letters, count) => {
                        self.letters = letters;
                        return Some(self.line(Some(count)));
                    }
                }
            } else {
                self.note(place, byte);
                place = step(place, byte, &mut self.word, &mut self.numbers);
            }
        }
        None
    }
}
