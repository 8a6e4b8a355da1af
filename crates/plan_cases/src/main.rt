// Replays stored texts of the program `plan`. A line `#` opens a case, `<` is a line of its text, `-` is text without a
// newline at its end. Every such line is printed as it stands, and after them what the library answers, each line behind `>`;
// the answers that were stored, which begin with `>`, are not read.
#![tactic(auto)]

ghost use Rattle.std.specs.Prelude.{◌≡◌, length};

use plan_text;
use plan_text::Reading;

fn write_line(text: &[u8]) {
    io::write_all(1, text);
    io::write_all(1, b"\n");
}

// Prints text with `>` before each line.
fn print_lines(text: &[u8]) {
    for line in text.split_inclusive(|byte| *byte == b'\n') {
        io::write_all(1, b">");
        io::write_all(1, line);
    }
}

// Ends a case: plans what was read and prints the answer.
fn answer(words: &[u32], r: Reading) {
    let mut records = [0u64; 8192];
    let mut out = [0u8; 135200];
    let p = plan_text::plan(words, r, &mut records);
    let n = plan_text::print(p, &records, &mut out);
    print_lines(&out[..n]);
}

// One line of the container, after what was read of the case, if any line came before; it answers what is read of the case.
fn line(text: &[u8], words: &mut [u32], before: Option<Reading>) -> Reading {
    let r = before.unwrap_or(plan_text::begin());
    match text {
        [] | [b'>', ..] => r,
        [b'#', ..] => {
            if before.is_some() {
                answer(words, r);
            }
            write_line(text);
            plan_text::begin()
        }
        [kind, letters @ ..] => {
            write_line(text);
            let now = plan_text::read(letters, words, r);
            if *kind == b'-' {
                return now;
            }
            plan_text::step(words, now, b'\n')
        }
    }
}

fn replay(text: &[u8]) {
    let mut words = [0u32; 12290];
    let mut r = None;
    for part in text.split(|byte| *byte == b'\n') {
        r = Some(line(part, &mut words, r));
    }
    answer(&words, r.unwrap_or(plan_text::begin()));
}

// Room for all the texts.
fn room() -> [u8; 524288]
    ensures { length result ≡ 524288 }
{
    [0; 524288]
}

fn main() {
    let mut text = room();
    let n = io::read_full(0, &mut text);
    replay(&text[..n]);
}
