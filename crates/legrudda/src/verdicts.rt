// The verdict.
ghost use Rattle.std.specs.Prelude.{◌≡◌};
ghost use Rattle.verifier.specs.Asked.{asked};
ghost use Rattle.verifier.specs.Verdicts.{verdict, observed_values};
ghost use Rattle.legrudda.specs.Exported.{judged_of};

use crate::elements::Element;
use field::answer;
use verifier::asked::Asked;
use verifier::stacked_reduction::{Verdict, verify_stacked_reduction};

// The number of the verdict, 0 for a yes, and both sides.
#[repr(C)]
#[derive(Clone, Copy)]
pub struct Judged {
    pub number: u32,
    pub left: Element,
    pub right: Element,
}

impl From<Verdict> for Judged {
    ghost from_gives = { λ verdict judged. judged ≡ judged_of verdict };

    fn from(verdict: Verdict) -> Judged {
        let left = verdict.left;
        let right = verdict.right;
        Judged {
            number: answer::number(verdict.answer),
            left: Element { words: left },
            right: Element { words: right },
        }
    }
}

#[unsafe(no_mangle)]
pub extern "C" fn legrudda_verdict<'a>(
    l_skip: u32,
    n_stack: u32,
    counts: &'a [u32],
    lists: &'a [u32],
    r: &'a [u32],
    lambda: Element,
    challenges: &'a [u32],
    claims: &'a [u32],
    coefficients: &'a [u32],
    pairs: &'a [u32],
    openings: &'a [u32],
    observed: &mut [u32],
) -> Judged
    ensures value { result ≡ judged_of (verdict (asked l_skip n_stack counts.now lists.now r.now lambda.words challenges.now claims.now coefficients.now pairs.now openings.now observed.old)) }
    ensures observed_after { observed.new ≡ observed_values (asked l_skip n_stack counts.now lists.now r.now lambda.words challenges.now claims.now coefficients.now pairs.now openings.now observed.old) }
{
    let lambda = lambda.words;
    let asked = Asked {
        l_skip,
        n_stack,
        counts,
        lists,
        r,
        lambda,
        challenges,
        claims,
        coefficients,
        pairs,
        openings,
    };
    verify_stacked_reduction(asked, observed).into()
}
