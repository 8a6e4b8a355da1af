// Sums of many products of words below p, in two parts that are reduced once, at the end.
ghost use Rattle.std.specs.Prelude.{◌≡◌, ◌%◌, ◌^◌, ◌≤◌};
ghost use Rattle.field.specs.Word.{«p»};
ghost use Rattle.prover.specs.Accumulated.{rest, held, Took, Room, Few, TookEach, remainders};

use field::word::P64;
use std::num::{wrapping_add_u64, wrapping_sub_u64};

// 2^40, and what it is modulo p.
const CUT: u64 = 1099511627776;

const CUT_P: u64 = 268434910;

// 2^24: so many times 2^40 are 2^64.
const AROUND: u64 = 16777216;

// A sum: the terms' parts above 2^40 are added up in hi; lo is the sum of the whole terms, modulo 2^64. So long as the parts below
// 2^40 make less than 2^64 the two say the sum, and no term has to be taken apart.
#[derive(Drop)]
pub(crate) struct Acc {
    pub(crate) lo: u64,
    pub(crate) hi: u64,
}

impl Acc {
    // One term more.
    fn take(self, x: u64) -> Acc
        requires { Room self }
        ensures { Took self x result }
    {
        Acc {
            lo: wrapping_add_u64(self.lo, x),
            hi: self.hi + x / CUT,
        }
    }

    // What the sum has above hi times 2^40.
    fn rest(self) -> u64
        ensures { result ≡ rest self }
    {
        wrapping_sub_u64(self.lo, self.hi % AROUND * CUT)
    }

    // The number modulo p, after at most 256 terms.
    fn done(self) -> u32
        requires { Few self }
        ensures { result ≡ held self % «p» }
    {
        ((self.hi * CUT_P + self.rest()) % P64) as u32
    }
}

// Four sums, one for each word of an element.
#[derive(Drop)]
pub(crate) struct Sums {
    pub(crate) s0: Acc,
    pub(crate) s1: Acc,
    pub(crate) s2: Acc,
    pub(crate) s3: Acc,
}

impl Sums {
    // Of no terms.
    pub(crate) const NONE: Sums = Sums {
        s0: Acc { lo: 0, hi: 0 },
        s1: Acc { lo: 0, hi: 0 },
        s2: Acc { lo: 0, hi: 0 },
        s3: Acc { lo: 0, hi: 0 },
    };

    // One term more in each.
    pub(crate) fn take(self, x0: u64, x1: u64, x2: u64, x3: u64) -> Sums
        requires { Room self.s0 × Room self.s1 × Room self.s2 × Room self.s3 }
        ensures { TookEach self x0 x1 x2 x3 result }
    {
        Sums {
            s0: self.s0.take(x0),
            s1: self.s1.take(x1),
            s2: self.s2.take(x2),
            s3: self.s3.take(x3),
        }
    }

    // The four numbers modulo p, after at most 256 terms.
    pub(crate) fn done(self) -> [u32; 4]
        requires { Few self.s0 × Few self.s1 × Few self.s2 × Few self.s3 }
        ensures { result ≡ remainders self }
    {
        [
            self.s0.done(),
            self.s1.done(),
            self.s2.done(),
            self.s3.done(),
        ]
    }
}
