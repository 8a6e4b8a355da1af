// The room of a verdict.
ghost use Rattle.std.specs.Prelude.{◌≤◌, OnOk};

use console_lines::memory::{Held, Lengths};
use console_lines::replies::Refusal;
use verifier::rooms::verdict_room;

// room, its first half: sets the lengths of the openings, of the observed slice, of the first polynomial and of the claims where they
// fit, so that there can be a verdict also where there is no room for a run. Where the claims have no room, their slice is handed on
// as it was.
pub fn room(held: &mut Held) -> Result<(), Refusal>
    ensures openings { OnOk result (held.new.lengths.openings ≤ 65536) }
    ensures claims { held.old.lengths.claims ≤ 65536 → held.new.lengths.claims ≤ 65536 }
{
    let room = verdict_room(
        held.shape.l_skip,
        held.shape.n_stack,
        held.shape.counts.given(),
        held.shape.triples.given(),
    )?;
    if 65536 < room.openings {
        return Err(Refusal::Full);
    }
    let claims = if room.claims <= 65536 {
        room.claims
    } else {
        held.lengths.claims
    };
    held.lengths = Lengths {
        openings: room.openings,
        observed: room.observed,
        first: room.coefficients,
        claims,
    };
    Ok(())
}
