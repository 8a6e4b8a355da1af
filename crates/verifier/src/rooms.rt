// What a verdict over given lists is lent: the lengths, in words, that it asks.
ghost use Rattle.std.specs.Prelude.{◌≡◌, ◌^◌, ◌≤◌};
ghost use Rattle.verifier.specs.Rooms.{taken_verdict, verdict_room};

use field::answer::Refusal;
use layout::runs::read_lists;
use weights::claims::claim_count;

// The words of the challenges (r is as long), of the claims, of the coefficients, of the pairs, of the openings and of the
// observed values.
#[derive(Clone, Copy)]
pub struct VerdictRoom {
    pub challenges: usize,
    pub claims: usize,
    pub coefficients: usize,
    pub pairs: usize,
    pub openings: usize,
    pub observed: usize,
}

// Of lists that make so many stack columns and claims.
fn taken_verdict(l_skip: u32, n_stack: u32, stacked: usize, claims: usize) -> VerdictRoom
    requires { (l_skip ≤ 10) × (n_stack ≤ 20) × (stacked ≤ 2 ^ 32) × (claims ≤ 2 ^ 32) }
    ensures { result ≡ taken_verdict l_skip n_stack stacked claims }
{
    let n = n_stack as usize;
    let order: usize = 1 << (l_skip + 1);
    let coefficients = 4 * (order - 1);
    let pairs = 8 * n;
    let openings = 4 * stacked;
    VerdictRoom {
        challenges: 4 * (n + 1),
        claims: 4 * claims,
        coefficients,
        pairs,
        openings,
        observed: coefficients + pairs + openings,
    }
}

pub fn verdict_room(
    l_skip: u32,
    n_stack: u32,
    counts: &[u32],
    lists: &[u32],
) -> Result<VerdictRoom, Refusal>
    ensures { result ≡ verdict_room l_skip n_stack counts.now lists.now }
{
    let run = read_lists(l_skip, n_stack, counts, lists)?;
    run.length?;
    let claims = claim_count(l_skip, n_stack, run.first, lists, run.columns);
    Ok(taken_verdict(l_skip, n_stack, run.stacked, claims))
}
