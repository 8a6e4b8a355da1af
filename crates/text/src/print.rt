// A line of output, put together in a page and written out whenever the page fills.
ghost use Rattle.std.specs.Prelude.{◌≡◌, min, ◌∷◌, []};
ghost use Rattle.std.proofs.Math.Seq.{paste};
ghost use Rattle.text.specs.Printed.{fitting, Appended, place, decimal_of, hexadecimal_of, record_of, filled, put_of, all_of};

pub type Page = [u8; 4096];

pub fn least(a: usize, b: usize) -> usize
    ensures { result ≡ min a b }
{
    a.min(b)
}

// Puts bytes at a place, as far as there is room, and answers the place after them.
pub fn append(out: &mut [u8], at: usize, bytes: &[u8]) -> usize
    ensures { Appended out.old at bytes.now result out.new }
{
    if out.len() < at {
        return at;
    }
    let n = bytes.len().min(out.len() - at);
    out[at..at + n].copy_from_slice(&bytes[..n]);
    at + n
}

// The same for a number in decimal.
pub(crate) fn append_decimal(out: &mut [u8], at: usize, x: u64) -> usize
    ensures { Appended out.old at (decimal_of x) result out.new }
{
    let mut text = [0u8; 20];
    let k = io::decimal(x, &mut text);
    append(out, at, &text[..k])
}

// Writes out the page up to a place.
fn write(out: &[u8], at: usize) {
    if at <= out.len() {
        io::write_all(1, &out[..at]);
    }
}

// Room for one number more: writes the page out where there may be none.
fn room(out: &[u8], at: usize) -> usize
    ensures { result ≡ place at }
{
    if at < 4000 {
        return at;
    }
    write(out, at);
    0
}

// A word at the start of a page.
pub fn start(out: &mut Page, word: &[u8]) -> usize
    ensures { Appended out.old 0 word.now result out.new }
{
    append(out, 0, word)
}

// A space and a number in decimal.
pub fn decimal(out: &mut Page, at: usize, x: u32) -> usize
    ensures { filled out.new result ≡ put_of (filled out.old at) (decimal_of x) }
{
    let from = room(out, at);
    let next = append(out, from, b" ");
    append_decimal(out, next, x as u64)
}

// Puts a number in 16 hexadecimal digits at a place, as far as there is room, and answers the place after them.
fn append_word(out: &mut [u8], at: usize, x: u64) -> usize
    ensures { Appended out.old at (hexadecimal_of x) result out.new }
{
    let mut text = [0u8; 16];
    let k = io::hex(x, 16, &mut text);
    append(out, at, &text[..k])
}

// The same for a record in 32 hexadecimal digits, the first of its two words first.
pub fn append_record(out: &mut [u8], at: usize, a: u64, b: u64) -> usize
    ensures { Appended out.old at (record_of a b) result out.new }
{
    let next = append_word(out, at, a);
    append_word(out, next, b)
}

// A space and a record.
pub fn record(out: &mut Page, at: usize, a: u64, b: u64) -> usize
    ensures { filled out.new result ≡ put_of (filled out.old at) (record_of a b) }
{
    let from = room(out, at);
    let next = append(out, from, b" ");
    append_record(out, next, a, b)
}

// A space and a number in decimal, for each.
pub fn decimals(out: &mut Page, at: usize, xs: &[u32]) -> usize
    ensures { filled out.new result ≡ all_of decimal_of (filled out.old at) xs.now }
{
    let mut to = at;
    for x in xs {
        to = decimal(out, to, *x);
    }
    to
}

// The newline, and the page to the end.
pub fn end(out: &mut Page, at: usize)
    ensures { out.new ≡ paste out.old at (10 ∷ []) (fitting out.old at (10 ∷ [])) }
{
    let next = append(out, at, b"\n");
    write(out, next);
}
