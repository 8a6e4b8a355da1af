// The program `plan_picture`: document 01's text of a plan in, the plan as an SVG picture out. Where `plan` refuses, it prints what
// `plan` prints.
#![tactic(auto)]

mod bars;
mod fields;
mod picture;
mod scale;
mod share;
mod slices;

ghost use Rattle.std.specs.Prelude.{◌≡◌, length};

use picture::picture;

// More room than the picture of 4,096 columns takes; a picture that filled it could be cut, and is not written.
fn room() -> [u8; 2097152]
    ensures { length result ≡ 2097152 }
{
    [0; 2097152]
}

fn main() {
    let mut words = [0u32; 12290];
    let mut part = [0u8; 65536];
    let mut r = plan_text::begin();
    // as many parts as the input has
    for _ in 0..u64::MAX {
        let n = io::read_full(0, &mut part);
        r = plan_text::read(&part[..n], &mut words, r);
        if n < part.len() {
            break;
        }
    }
    let mut records = [0u64; 8192];
    let mut out = room();
    let n = picture(&words, r, &mut records, &mut out);
    if n < out.len() {
        io::write_all(1, &out[..n]);
    }
}
