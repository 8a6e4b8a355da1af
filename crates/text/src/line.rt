// A line, read a byte at a time: a word, then numbers in decimal digits, one space before each. A line that starts with `#` is a comment.
ghost use Rattle.std.specs.Prelude.{◌≡◌, length, set};
ghost use Rattle.text.specs.Reading.{is_digit, is_letter, counted, letter_place, value_with, digit_place, start_place, start_word, word_place, word_after, number_place, numbers_after, reader, step_of, end_of, numbers_at_end, cut_of};

// Where in a line the reader stands.
#[derive(Clone, Copy)]
pub enum Place {
    Start,
    // In the word, after so many letters.
    Word(usize),
    // After a space: the letters of the word, and the numbers so far.
    Gap {
        letters: usize,
        count: usize,
    },
    // In a number: the same, and its value so far.
    Number {
        letters: usize,
        count: usize,
        value: u32,
    },
    Comment,
    Wrong,
}

// What a line was: no command, none of the form, or a word of so many letters and so many numbers.
#[derive(Clone, Copy)]
pub enum Line {
    Nothing,
    Wrong,
    Whole(usize, usize),
}

pub fn is_digit(byte: u8) -> bool
    ensures { result ≡ is_digit byte }
{
    byte.is_ascii_digit()
}

// A letter of a word: a to z, a digit or `_`.
fn is_letter(byte: u8) -> bool
    ensures { result ≡ is_letter byte }
{
    byte.is_ascii_lowercase() || is_digit(byte) || byte == b'_'
}

// Puts a number behind the others, and answers how many there are: one more than there is room for where it finds none.
fn keep(numbers: &mut [u32], count: usize, value: u32) -> usize
    ensures { (result ≡ counted (length numbers.old) count) × (numbers.new ≡ set numbers.old count value) }
{
    let room = numbers.len();
    if count < room {
        numbers[count] = value;
        return count + 1;
    }
    room + 1
}

// A word longer than there is room for is wrong.
fn put_letter(byte: u8, letters: usize, word: &mut [u8]) -> Place
    ensures { (result ≡ letter_place (length word.old) letters) × (word.new ≡ set word.old letters byte) }
{
    if letters < word.len() {
        word[letters] = byte;
        return Place::Word(letters + 1);
    }
    Place::Wrong
}

fn from_start(byte: u8, word: &mut [u8]) -> Place
    ensures { (result ≡ start_place (length word.old) byte) × (word.new ≡ start_word word.old byte) }
{
    if byte == b'#' {
        return Place::Comment;
    }
    if is_letter(byte) {
        return put_letter(byte, 0, word);
    }
    Place::Wrong
}

fn from_word(byte: u8, letters: usize, word: &mut [u8]) -> Place
    ensures { (result ≡ word_place (length word.old) letters byte) × (word.new ≡ word_after word.old letters byte) }
{
    if byte == b' ' {
        return Place::Gap { letters, count: 0 };
    }
    if is_letter(byte) {
        return put_letter(byte, letters, word);
    }
    Place::Wrong
}

// The value of digits with one more behind them, where that is a digit and the value a u32.
pub fn with_digit(value: u32, byte: u8) -> Option<u32>
    ensures { result ≡ value_with value byte }
{
    if !is_digit(byte) {
        return None;
    }
    let next = u64::from(value) * 10 + u64::from(byte - b'0');
    if next <= u64::from(u32::MAX) {
        Some(next as u32)
    } else {
        None
    }
}

fn in_number(byte: u8, letters: usize, count: usize, value: u32) -> Place
    ensures { result ≡ digit_place letters count value byte }
{
    match with_digit(value, byte) {
        Some(value) => Place::Number {
            letters,
            count,
            value,
        },
        None => Place::Wrong,
    }
}

fn from_number(byte: u8, letters: usize, count: usize, value: u32, numbers: &mut [u32]) -> Place
    ensures { (result ≡ number_place (length numbers.old) letters count value byte) × (numbers.new ≡ numbers_after numbers.old count value byte) }
{
    if byte == b' ' {
        return Place::Gap {
            letters,
            count: keep(numbers, count, value),
        };
    }
    in_number(byte, letters, count, value)
}

// One byte more, other than a newline.
pub fn step(place: Place, byte: u8, word: &mut [u8], numbers: &mut [u32]) -> Place
    ensures { (result ≡ (step_of (reader place word.old numbers.old) byte).place) × (word.new ≡ (step_of (reader place word.old numbers.old) byte).word) × (numbers.new ≡ (step_of (reader place word.old numbers.old) byte).numbers) }
{
    match place {
        Place::Start => from_start(byte, word),
        Place::Word(letters) => from_word(byte, letters, word),
        Place::Gap { letters, count } => in_number(byte, letters, count, 0),
        Place::Number {
            letters,
            count,
            value,
        } => from_number(byte, letters, count, value, numbers),
        Place::Comment | Place::Wrong => place,
    }
}

// The line that a newline ends here.
pub fn ended(place: Place, numbers: &mut [u32]) -> Line
    ensures { (result ≡ end_of place (length numbers.old)) × (numbers.new ≡ numbers_at_end place numbers.old) }
{
    match place {
        Place::Word(letters) => Line::Whole(letters, 0),
        Place::Number {
            letters,
            count,
            value,
        } => {
            let n = keep(numbers, count, value);
            Line::Whole(letters, n)
        }
        Place::Comment => Line::Nothing,
        Place::Start | Place::Gap { .. } | Place::Wrong => Line::Wrong,
    }
}

// What the end of the input leaves: a line without its newline is of another form.
pub fn cut(place: Place) -> Line
    ensures { result ≡ cut_of place }
{
    match place {
        Place::Start | Place::Comment => Line::Nothing,
        _ => Line::Wrong,
    }
}
