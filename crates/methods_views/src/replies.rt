// The answers, a line each.
use field::answer::Refusal;
use text::print;

// A word, then the numbers of each part.
fn say(head: &[u8], parts: &[&[u32]]) {
    let mut page = [0u8; 4096];
    let mut at = print::start(&mut page, head);
    for part in parts {
        at = print::decimals(&mut page, at, part);
    }
    print::end(&mut page, at);
}

pub(crate) fn error() {
    say(b"error", &[]);
}

pub fn done(parts: &[&[u32]]) {
    say(b"ok", parts);
}

pub(crate) fn refused(refusal: Refusal) {
    say(b"refused", &[&[refusal as u32]]);
}

// The numbers of a call that is done, or that of its refusal.
pub fn answered(answer: Result<(), Refusal>, parts: &[&[u32]]) {
    match answer {
        Ok(()) => done(parts),
        Err(refusal) => refused(refusal),
    }
}
