// The numbers of a line, kept.
ghost use Rattle.std.specs.Prelude.{◌≡◌, [], take};

use std::marker::Model;

// As many as there is room for.
#[derive(Drop)]
pub struct Numbers {
    words: [u32; 16384],
    count: usize,
}

impl Model for Numbers {
    ghost use Rattle.std.specs.Prelude.{◌≤◌, List, ℕ, take};

    ghost Value = { List ℕ };

    ghost view = { λ s. take s.count s.words };

    ghost invariant = { λ s. s.count ≤ 16384 };
}

impl Default for Numbers {
    ghost is_default = { λ x. x ≡ [] };

    fn default() -> Numbers {
        let words = [0; 16384];
        Numbers { words, count: 0 }
    }
}

impl Numbers {
    // The numbers of a line in place of those that were here.
    pub(crate) fn keep(&mut self, x: &[u32])
        ensures { self.new ≡ take 16384 x.now }
    {
        let count = x.len().min(16384);
        self.words[..count].copy_from_slice(&x[..count]);
        self.count = count;
    }

    pub fn as_slice(&self) -> &[u32]
        ensures { result.now ≡ self.now }
    {
        &self.words[..self.count]
    }
}
