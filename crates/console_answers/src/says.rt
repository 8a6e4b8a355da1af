// How an answer is printed.
use console_lines::commands::WORDS;
use console_lines::replies::{Outcome, Refusal, Reply};
use text::print;

fn say_word(word: &[u8]) {
    let mut page = [0u8; 4096];
    let at = print::start(&mut page, word);
    print::end(&mut page, at);
}

fn say_refused(number: u32, words: &[u32]) {
    let mut page = [0u8; 4096];
    let at = print::start(&mut page, b"refused");
    let next = print::decimal(&mut page, at, number);
    let last = print::decimals(&mut page, next, words);
    print::end(&mut page, last);
}

fn joined(high: u32, low: u32) -> u64 {
    ((high as u64) << 32) | low as u64
}

// The records of these words.
fn records(page: &mut print::Page, at: usize, words: &[u32]) -> usize {
    let mut to = at;
    for [a, b, c, d] in words.as_chunks::<4>().0 {
        to = print::record(page, to, joined(*a, *b), joined(*c, *d));
    }
    to
}

fn say_done(words: &[u32], rest: &[u32]) {
    let mut page = [0u8; 4096];
    let at = print::start(&mut page, b"ok");
    let next = print::decimals(&mut page, at, words);
    let last = records(&mut page, next, rest);
    print::end(&mut page, last);
}

// `ok` and a text.
fn say_text(text: &[u8]) {
    let mut page = [0u8; 4096];
    let at = print::start(&mut page, b"ok ");
    let next = print::append(&mut page, at, text);
    print::end(&mut page, next);
}

// Prints the line of an outcome, by the words of the answer.
pub fn say(outcome: Outcome, words: &[u32]) {
    match outcome {
        Ok(Reply::Done) => say_done(words, &[]),
        Ok(Reply::Records(n)) => {
            let (first, rest) = words.split_at(n.min(words.len()));
            say_done(first, rest);
        }
        Ok(Reply::Yes) => say_word(b"yes"),
        Ok(Reply::Commands) => say_text(WORDS),
        Ok(Reply::Text(text)) => say_text(text),
        Err(Refusal::Error) => say_word(b"error"),
        Err(Refusal::Full) => say_word(b"full"),
        Err(Refusal::Call(why)) => say_refused(why.into(), &[]),
        Err(Refusal::Sides(why)) => say_refused(why.into(), words),
    }
}
