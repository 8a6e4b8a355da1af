// Document 01's text of the program `plan`, on byte slices. Decimal numbers with one space between, a newline after each
// line: l_skip and n_stack, then a matrix a line. Text of another form is refused as 1.
#![tactic(auto)]

ghost use Rattle.std.specs.Prelude.{◌≡◌, ◌∷◌, [], ◌++◌, length, set};
ghost use Rattle.text.specs.Printed.{Appended, decimal_of, record_of};
ghost use Rattle.text.specs.Writing.{Put};
ghost use Rattle.plan_text.specs.Planned.{places_of, plan_of, records_of};
ghost use Rattle.plan_text.specs.Printing.{refusal, header, printed};
ghost use Rattle.plan_text.specs.Steps.{started, refused, ending, digit_of, ended_of, state, step_of, steps_of, whole_of};

use field::answer::Refusal;
use layout::stacked_pcs::StackedLayout;
use text::line::{is_digit, with_digit};
use text::writer::Writer;

// What was read so far.
#[derive(Clone, Copy)]
pub enum Reading {
    // At the start of a number, after so many; its digits go on from a value, 0 in a text read from its start.
    Between {
        count: usize,
        value: u32,
    },
    // In a number: the same, and its value so far.
    Within {
        count: usize,
        value: u32,
    },
    // Text of another form, after so many numbers; it stays as it is.
    Wrong {
        count: usize,
        value: u32,
        digits: bool,
    },
}

pub fn begin() -> Reading
    ensures { result ≡ started 0 }
{
    Reading::Between { count: 0, value: 0 }
}

fn refuse(count: usize) -> Reading
    ensures { result ≡ refused count }
{
    Reading::Wrong {
        count,
        value: 0,
        digits: false,
    }
}

// The byte that ends the next number. The last number of a line is the second of all, and every third after it.
fn ending_of(count: usize) -> u8
    ensures { result ≡ ending count }
{
    if count % 3 == 1 {
        return b'\n';
    }
    b' '
}

// One more digit; a number above u32 is of another form.
fn digit(count: usize, value: u32, b: u8) -> Reading
    ensures { result ≡ digit_of count value b }
{
    match with_digit(value, b) {
        Some(value) => Reading::Within { count, value },
        None => refuse(count),
    }
}

// A number ends.
fn finish(words: &mut [u32], count: usize, value: u32) -> Reading
    ensures { (result ≡ ended_of count (length words.old)) × (words.new ≡ set words.old count value) }
{
    if count < words.len() {
        words[count] = value;
        return Reading::Between {
            count: count + 1,
            value: 0,
        };
    }
    refuse(count)
}

// One byte more.
pub fn step(words: &mut [u32], r: Reading, b: u8) -> Reading
    ensures { (result ≡ (step_of (state r words.old) b).reading) × (words.new ≡ (step_of (state r words.old) b).words) }
{
    match r {
        Reading::Between { count, value } => digit(count, value, b),
        Reading::Within { count, value } => {
            // A digit first, so that no byte of a number asks where its line ends.
            if is_digit(b) {
                return digit(count, value, b);
            }
            if b == ending_of(count) {
                return finish(words, count, value);
            }
            refuse(count)
        }
        Reading::Wrong { .. } => r,
    }
}

// A part of the text more.
pub fn read(text: &[u8], words: &mut [u32], r: Reading) -> Reading
    ensures { (result ≡ (steps_of (state r words.old) text.now).reading) × (words.new ≡ (steps_of (state r words.old) text.now).words) }
{
    let mut now = r;
    for b in text {
        now = step(words, now, *b);
    }
    now
}

// Whether the text ended at the end of a line, the first one at least.
pub fn whole(r: Reading) -> bool
    ensures { result ≡ whole_of r }
{
    match r {
        Reading::Between { count, .. } => count % 3 == 2,
        _ => false,
    }
}

// Two words for each column of a list, of as many columns as there is room for.
fn places(list: &[u32], room: usize) -> usize
    ensures { result ≡ places_of list.now room }
{
    let most = (room / 2).min(4096);
    let mut n = 0;
    for matrix in list.chunks_exact(3) {
        n = most.min(n + matrix[0] as usize);
    }
    2 * n
}

// Plans the list that was read; text of another form is 1.
pub fn plan(words: &[u32], r: Reading, records: &mut [u64]) -> Result<StackedLayout, Refusal>
    ensures { (result ≡ plan_of r words.now (length records.old)) × (records.new ≡ records_of r words.now records.old) }
{
    match r {
        Reading::Between { count, .. } => {
            if !whole(r) || words.len() < count {
                return Err(Refusal::LimitExceeded);
            }
            let list = &words[2..count];
            let n = places(list, records.len());
            StackedLayout::new(words[0], words[1], list, &mut records[..n])
        }
        _ => Err(Refusal::LimitExceeded),
    }
}

// Puts a number in decimal and the bytes behind it.
fn put_decimal(page: &mut Writer<'_>, n: u32, last: &[u8])
    ensures { Put page.old (decimal_of n ++ last.now) page.new }
{
    page.put_decimal(n as u64);
    page.put(last);
}

// The same for a record in 32 hexadecimal digits and a newline.
fn put_record(page: &mut Writer<'_>, a: u64, b: u64)
    ensures { Put page.old (record_of a b ++ 10 ∷ []) page.new }
{
    page.put_record(a, b);
    page.put(b"\n");
}

fn put_refused(page: &mut Writer<'_>, n: u32)
    ensures { Put page.old (refusal n) page.new }
{
    page.put(b"refused ");
    put_decimal(page, n, b"\n");
}

fn put_header(page: &mut Writer<'_>, p: StackedLayout)
    ensures { Put page.old (header p) page.new }
{
    put_decimal(page, p.width, b" ");
    put_decimal(page, p.height, b" ");
    put_decimal(page, p.columns, b"\n");
}

fn put_plan(page: &mut Writer<'_>, p: Result<StackedLayout, Refusal>, records: &[u64])
    ensures { Put page.old (printed p records.now) page.new }
{
    match p {
        Ok(layout) => {
            put_header(page, layout);
            for record in records.chunks_exact(2).take(layout.columns as usize) {
                put_record(page, record[0], record[1]);
            }
        }
        Err(refusal) => put_refused(page, refusal as u32),
    }
}

// Writes what `plan` prints, as far as there is room, and answers how many bytes that is.
pub fn print(p: Result<StackedLayout, Refusal>, records: &[u64], out: &mut [u8]) -> usize
    ensures { Appended out.old 0 (printed p records.now) result out.new }
{
    let mut page = Writer { out, at: 0 };
    put_plan(&mut page, p, records);
    page.at
}
