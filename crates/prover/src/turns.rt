// The turn of a run: the number of its calls that were accepted.
ghost use Rattle.std.specs.Prelude.{◌≡◌};
ghost use Rattle.prover.specs.Turns.{in_round};

// Start, the first polynomial, the fold at u_0, for each round a pair and a fold, openings. Before start it is 0.
#[derive(Clone, Copy)]
pub struct Turn {
    pub calls: u32,
}

// Whether the round is one of 1..n_stack and so many calls were accepted.
pub(crate) fn in_round(turn: Turn, n_stack: u32, round: u32, calls: usize) -> bool
    ensures { result ≡ in_round n_stack round calls turn }
{
    if round == 0 {
        return false;
    }
    if n_stack < round {
        return false;
    }
    turn.calls as usize == calls
}
