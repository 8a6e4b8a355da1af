// Runs the methods of `views` and `turns` on a session of at most 524,288 bytes: a command a line on standard input, those of a
// run in the forms of the program `console`, and one line of output for each.
#![tactic(auto)]

ghost use Rattle.std.specs.Prelude.{◌≡◌, length};

mod calls;
mod runs;

use methods_views::held::Held;
use methods_views::lines;
use runs::Session;
use text::line::{Place, ended, step};

// A session on words of zero and a run of which no call was accepted.
fn replay(text: &[u8]) {
    let mut word = [0u8; 32];
    let mut numbers = [0u32; 16384];
    let mut held = Held::default();
    let mut session = Session::new();
    let mut place = Place::Start;
    for &byte in text {
        if byte == b'\n' {
            let line = ended(place, &mut numbers);
            if let Some(call) = lines::answer(line, &word, &numbers, &mut held) {
                session.answer(call, &held);
            }
            place = Place::Start;
        } else {
            place = step(place, byte, &mut word, &mut numbers);
        }
    }
}

// Room for a session.
fn room() -> [u8; 524288]
    ensures { length result ≡ 524288 }
{
    [0; 524288]
}

fn main() {
    let mut text = room();
    let n = io::read_full(0, &mut text);
    replay(&text[..n]);
}
