// What the console holds between lines.
ghost use Rattle.std.specs.Prelude.{◌≡◌, ◌≤◌, ◌<◌, ◌↔◌, ◌++◌, ℕ, [], ◌∷◌, length, take, min, if◌then◌else◌, slice_set};
ghost use Rattle.std.specs.Prelude.{List as Values, IsOk, is_ok, IsSome, MatchResult, OnOk};

use crate::replies::Refusal;
use std::marker::Model;

// A list of words, of which there is room for N.
#[derive(Drop)]
pub struct List<const N: usize> {
    words: [u32; N],
    len: usize,
}

impl<const N: usize> Model for List<N> {
    ghost Value = { Values ℕ };

    ghost view = { λ list. take list.len list.words };

    ghost invariant = { λ list. list.len ≤ N };
}

impl<const N: usize> List<N> {
    pub fn new() -> Self
        ensures { result ≡ [] }
    {
        let words = [0; N];
        List { words, len: 0 }
    }

    pub fn given(&self) -> &[u32]
        ensures { result.now ≡ self.now }
    {
        &self.words[..self.len]
    }

    // How many words the list has, as far as a word goes.
    pub fn size(&self) -> u32
        ensures { result ≡ min (length self.now) 4294967295 }
    {
        u32::try_from(self.len).unwrap_or(u32::MAX)
    }

    // Puts words behind those of the list, as far as there is room.
    pub fn grow(&mut self, xs: &[u32])
        ensures { self.new ≡ take N (self.old ++ xs.now) }
    {
        let n = (N - self.len).min(xs.len());
        let end = self.len + n;
        let words = &mut self.words[..];
        words[self.len..end].copy_from_slice(&xs[..n]);
        self.len = end;
    }

    pub fn clear(&mut self)
        ensures { self.new ≡ [] }
    {
        self.len = 0;
    }

    // Sets the list; where it has not the room, nothing is changed.
    pub fn keep(&mut self, xs: &[u32]) -> Result<(), Refusal>
        ensures room { IsOk result ↔ (length xs.now ≤ N) }
        ensures kept { self.new ≡ (if is_ok result then xs.now else self.old) }
    {
        if N < xs.len() {
            return Err(Refusal::Full);
        }
        self.clear();
        self.grow(xs);
        Ok(())
    }

    // The list made so many words long, whatever stands in its room.
    pub fn lent(&mut self, n: usize) -> Result<&mut [u32], Refusal>
        ensures { MatchResult result (λ room. length room.now ≡ n) (λ _. N < n) }
    {
        if N < n {
            return Err(Refusal::Full);
        }
        let words = &mut self.words;
        self.len = n;
        let room = &mut words[..];
        Ok(&mut room[..n])
    }

    pub fn given_mut(&mut self) -> &mut [u32]
        ensures { result.now ≡ self.old }
    {
        let n = self.len;
        let words = &mut self.words;
        let room = &mut words[..];
        &mut room[..n]
    }

    // Puts a word in the list's room, also past its end.
    pub fn set(&mut self, i: usize, x: u32) -> Result<(), Refusal>
        ensures { self.new ≡ slice_set self.old i x }
    {
        let words = &mut self.words[..];
        if words.len() <= i {
            return Err(Refusal::Full);
        }
        words[i] = x;
        Ok(())
    }
}

// The words of an answer.
pub type Words = List<262144>;

// A batch's sizes, and its matrices' triples.
#[derive(Drop)]
pub struct Shape {
    pub l_skip: u32,
    pub n_stack: u32,
    pub counts: List<32>,
    pub triples: List<12384>,
}

impl Shape {
    fn new() -> Self {
        Shape {
            l_skip: 0,
            n_stack: 0,
            counts: List::new(),
            triples: List::new(),
        }
    }

    // The triples of a commitment, counted from 1, as far as there are any; none where there is no such commitment.
    pub fn commitment(&self, number: u32) -> Option<&[u32]>
        ensures { IsSome result ↔ ((0 < number) × (number ≤ length self.now.counts)) }
    {
        let counts = self.counts.given();
        let triples = self.triples.given();
        let i = (number as usize).checked_sub(1)?;
        let matrices = *counts.get(i)? as usize;
        let before = counts.iter().take(i).fold(
            0usize,
            |before, count| before.saturating_add(*count as usize),
        );
        let rest = triples.get(before.saturating_mul(3)..).unwrap_or(&[]);
        let n = rest.len().min(3 * matrices);
        Some(&rest[..n])
    }

    // shape L N K, then K counts, then the triples' words.
    pub fn set(&mut self, x: &[u32]) -> Result<(), Refusal>
        ensures { OnOk result (x.now ≡ self.new.l_skip ∷ self.new.n_stack ∷ length self.new.counts ∷ (self.new.counts ++ self.new.triples)) }
    {
        let [l_skip, n_stack, k, rest @ ..] = x else {
            return Err(Refusal::Error);
        };
        let Some((counts, triples)) = rest.split_at_checked(*k as usize) else {
            return Err(Refusal::Error);
        };
        self.counts.keep(counts)?;
        self.triples.keep(triples)?;
        self.l_skip = *l_skip;
        self.n_stack = *n_stack;
        Ok(())
    }

    pub fn clear(&mut self)
        ensures sizes { (self.new.l_skip ≡ 0) × (self.new.n_stack ≡ 0) }
        ensures lists { (self.new.counts ≡ []) × (self.new.triples ≡ []) }
    {
        self.l_skip = 0;
        self.n_stack = 0;
        self.counts.clear();
        self.triples.clear();
    }
}

// What a verdict is given beside the shape, r and lambda, as a run makes it.
#[derive(Drop)]
pub struct Batch {
    pub challenges: List<256>,
    pub pairs: List<256>,
    pub opened: List<65536>,
    pub first: List<8224>,
    pub claims: List<65536>,
}

impl Batch {
    fn new() -> Self {
        Batch {
            challenges: List::new(),
            pairs: List::new(),
            opened: List::new(),
            first: List::new(),
            claims: List::new(),
        }
    }

    pub fn clear(&mut self)
        ensures rounds { (self.new.challenges ≡ []) × (self.new.pairs ≡ []) × (self.new.opened ≡ []) }
        ensures sums { (self.new.first ≡ []) × (self.new.claims ≡ []) }
    {
        self.challenges.clear();
        self.pairs.clear();
        self.opened.clear();
        self.first.clear();
        self.claims.clear();
    }

    // The lists of another.
    fn set(&mut self, other: &Batch) -> Result<(), Refusal>
        ensures { OnOk result (self.new ≡ other.now) }
    {
        self.challenges.keep(other.challenges.given())?;
        self.pairs.keep(other.pairs.given())?;
        self.opened.keep(other.opened.given())?;
        self.first.keep(other.first.given())?;
        self.claims.keep(other.claims.given())
    }
}

// The lengths at which slices for what a call gives are handed on.
#[derive(Clone, Copy)]
pub struct Lengths {
    pub openings: usize,
    pub observed: usize,
    pub first: usize,
    pub claims: usize,
}

#[derive(Drop)]
pub struct Held {
    pub shape: Shape,
    pub matrix: List<65536>,
    pub cells: List<65536>,
    pub point: List<256>,
    pub lambda: [u32; 4],
    pub lengths: Lengths,
    // The accepted calls of the run.
    pub turn: u32,
    // What the verdict is given.
    pub sent: Batch,
    // Of the calls accepted since the last accepted start: the challenges of the folds, the pairs, the openings, the first polynomial,
    // and the claims that were opened last.
    pub run: Batch,
    // The slice that the last verdict observed in.
    pub observed: List<73984>,
}

impl Held {
    // Of a run of which no call was accepted.
    pub fn new() -> Self
        ensures { result.turn ≡ 0 }
    {
        let lambda = [0; 4];
        Held {
            shape: Shape::new(),
            matrix: List::new(),
            cells: List::new(),
            point: List::new(),
            lambda,
            lengths: Lengths {
                openings: 0,
                observed: 0,
                first: 0,
                claims: 0,
            },
            turn: 0,
            sent: Batch::new(),
            run: Batch::new(),
            observed: List::new(),
        }
    }

    // Sets what the verdict is given as the run made it.
    pub fn take(&mut self) -> Result<(), Refusal>
        ensures { OnOk result (self.new.sent ≡ self.old.run) }
    {
        self.sent.set(&self.run)
    }
}

// The first four words, and zero where there are fewer.
pub fn element(words: &[u32]) -> [u32; 4]
    ensures { 4 ≤ length words.now → result ≡ take 4 words.now }
{
    words.first_chunk().copied().unwrap_or([0; 4])
}
