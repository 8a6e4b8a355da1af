// The program `plan`: document 01's text in, text out.
#![tactic(auto)]

use plan_text;

fn main() {
    let mut words = [0u32; 12290];
    let mut part = [0u8; 65536];
    let mut r = plan_text::begin();
    // as many parts as the input has
    for _ in 0..u64::MAX {
        let n = io::read_full(0, &mut part);
        r = plan_text::read(&part[..n], &mut words, r);
        if n < part.len() {
            break;
        }
    }
    let mut records = [0u64; 8192];
    let mut out = [0u8; 135200];
    let p = plan_text::plan(&words, r, &mut records);
    let n = plan_text::print(p, &records, &mut out);
    io::write_all(1, &out[..n]);
}
