// Moving words from one arrangement of rows and columns to another, by tiles of rows that are neighbours in both.
ghost use Rattle.std.specs.Prelude.{◌≡◌, true, ℕ, ◌+◌, ◌-◌, ◌*◌, ◌/◌, ◌%◌, ◌<◌, ◌≤◌, ◌^◌, min, length, get_or};
ghost use Rattle.storage.specs.Reversed.{reversed};
ghost use Rattle.storage.specs.Rows.{stored_rows, stacked_columns};
ghost use Rattle.storage.specs.Moving.{grid_at, There, Route, Carried, OnLine, ByRows, ByColumns, Ways, Between, Group, part_of, columns_grid, rows_grid};

// Where the words of rows and columns stand: row b of column c at `at` + b · `row` + (b with its bits reversed) · `turned` +
// c · `column`.
#[derive(Clone, Copy)]
pub(crate) struct Grid {
    pub(crate) at: usize,
    pub(crate) row: usize,
    pub(crate) turned: usize,
    pub(crate) column: usize,
}

// Places that lie `step` apart, from place `at` on.
#[derive(Clone, Copy)]
struct Steps {
    at: usize,
    step: usize,
}

// What is moved: the words of 2^`bits` rows and `width` columns, from where they stand in one arrangement to where they stand in
// the other. For storing, `from` has columns at even steps and `to` rows of neighbours; else it is the other way.
#[derive(Clone, Copy)]
struct Move {
    storing: bool,
    from: Grid,
    to: Grid,
    bits: u32,
    width: usize,
}

fn pow2(bits: u32) -> usize
    requires { bits < 64 }
    ensures { result ≡ 2 ^ bits }
{
    1usize << bits
}

// The low bits of x in the opposite order.
fn reversal(bits: u32, x: usize) -> usize
    requires { bits < 64 }
    ensures { result ≡ reversed bits x }
{
    let mut left = x;
    let mut y = 0usize;
    for i in 0..bits {
        y = 2 * y + left % 2;
        left = left / 2;
    }
    y
}

impl Grid {
    // The arrangement of a stacked matrix of 2^bits rows.
    fn of_columns(bits: u32) -> Grid
        requires { bits < 64 }
        ensures { result ≡ columns_grid bits }
    {
        Grid {
            at: 0,
            row: 1,
            turned: 0,
            column: pow2(bits),
        }
    }

    // That of its stored rows.
    fn of_rows(width: usize) -> Grid
        ensures { result ≡ rows_grid width }
    {
        Grid {
            at: 0,
            row: 0,
            turned: width,
            column: 1,
        }
    }

    // Where row b of column c stands; `turned` is b with its bits reversed.
    fn place(self, b: usize, turned: usize, c: usize) -> usize
        requires { self.at + b * self.row + turned * self.turned + c * self.column < 2 ^ 64 }
        ensures { result ≡ self.at + b * self.row + turned * self.turned + c * self.column }
    {
        self.at + b * self.row + turned * self.turned + c * self.column
    }

    // The places of row b, where they are neighbours.
    fn along_row(self, b: usize, turned: usize) -> Steps
        requires { self.at + b * self.row + turned * self.turned + 0 * self.column < 2 ^ 64 }
        ensures { (result.at ≡ self.at + b * self.row + turned * self.turned + 0 * self.column) × (result.step ≡ 1) }
    {
        Steps {
            at: self.place(b, turned, 0),
            step: 1,
        }
    }

    // The places of column c, where they are at even steps.
    fn along_column(self, c: usize) -> Steps
        requires { self.at + 0 * self.row + 0 * self.turned + c * self.column < 2 ^ 64 }
        ensures { (result.at ≡ self.at + 0 * self.row + 0 * self.turned + c * self.column) × (result.step ≡ self.row) }
    {
        Steps {
            at: self.place(0, 0, c),
            step: self.row,
        }
    }

    // The arrangement from row x of column c on; y is x with its bits reversed, and `step` of those lie between two rows.
    fn part(self, x: usize, y: usize, c: usize, step: usize) -> Grid
        requires { (self.at + x * self.row + y * self.turned + c * self.column < 2 ^ 64) × (step * self.turned < 2 ^ 64) }
        ensures { result ≡ part_of self x y c step }
    {
        Grid {
            at: self.place(x, y, c),
            row: self.row,
            turned: step * self.turned,
            column: self.column,
        }
    }
}

// n words from the places a to the places b.
fn line(from: &[u32], a: Steps, to: &mut [u32], b: Steps, n: usize)
    requires { ((i : ℕ) → i < n → a.at + i * a.step < length from.now) × ((i : ℕ) → i < n → b.at + i * b.step < length to.old) }
    ensures { Carried from.now (OnLine a.at a.step b.at b.step n) to.old to.new }
{
    for i in 0..n {
        to[b.at + i * b.step] = from[a.at + i * a.step];
    }
}

impl Move {
    // Row after row, of words that are neighbours in both.
    fn by_rows(self, from: &[u32], to: &mut [u32])
        requires { (self.bits ≤ 24) × (0 < self.width) × There self.from self.bits self.width (length from.now) × There self.to self.bits self.width (length to.old) × ByRows self.from self.to }
        ensures { Carried from.now (Route self.from self.to self.bits (λ b. b < 2 ^ self.bits) self.width) to.old to.new }
    {
        let n = pow2(self.bits);
        for b in 0..n {
            let turned = reversal(self.bits, b);
            let at = self.from.along_row(b, turned);
            let there = self.to.along_row(b, turned);
            line(from, at, to, there, self.width);
        }
    }

    // Column after column, of rows at even steps.
    fn by_columns(self, from: &[u32], to: &mut [u32])
        requires { (self.bits ≤ 24) × There self.from self.bits self.width (length from.now) × There self.to self.bits self.width (length to.old) × ByColumns self.from self.to }
        ensures { Carried from.now (Route self.from self.to self.bits (λ b. b < 2 ^ self.bits) self.width) to.old to.new }
    {
        let n = pow2(self.bits);
        for c in 0..self.width {
            let at = self.from.along_column(c);
            let there = self.to.along_column(c);
            line(from, at, to, there, n);
        }
    }

    // A tile: 2^bits rows of some columns, through `words`, so that either buffer is read or written where words are neighbours.
    fn tile(self, from: &[u32], to: &mut [u32], words: &mut [u32; 1024])
        requires { (self.bits ≤ 6) × (0 < self.width) × (self.width ≤ 16) × There self.from self.bits self.width (length from.now) × There self.to self.bits self.width (length to.old) × Ways self.storing self.from self.to }
        ensures { Carried from.now (Route self.from self.to self.bits (λ b. b < 2 ^ self.bits) self.width) to.old to.new }
    {
        let m = Grid {
            at: 0,
            row: 16,
            turned: 0,
            column: 1,
        };
        let into = Move { to: m, ..self };
        let out = Move { from: m, ..self };
        if self.storing {
            into.by_columns(from, words);
            out.by_rows(words, to);
            return;
        }
        into.by_rows(from, words);
        out.by_columns(words, to);
    }

    // Group i of 2^m rows, of all columns: tile after tile, of 16 columns where there are as many.
    fn group(self, from: &[u32], to: &mut [u32], m: u32, i: usize, words: &mut [u32; 1024])
        requires { (m ≤ 6) × (m ≤ self.bits) × Between (length from.now) self.from (length to.old) self.to self.bits self.width × Ways self.storing self.from self.to × (i < 2 ^ (self.bits - m)) }
        ensures { Carried from.now (Route self.from self.to self.bits (Group m i) self.width) to.old to.new }
    {
        let j = self.bits - m;
        let x = pow2(m) * i;
        let y = reversal(j, i);
        let step = pow2(j);
        for c in (0..self.width).step_by(16) {
            let n = (self.width - c).min(16);
            let source = self.from.part(x, y, c, step);
            let target = self.to.part(x, y, c, step);
            let part = Move {
                storing: self.storing,
                from: source,
                to: target,
                bits: m,
                width: n,
            };
            part.tile(from, to, words);
        }
    }

    // All of it: group after group of at most 64 rows that are neighbours in one of the arrangements.
    fn rearrange(self, from: &[u32], to: &mut [u32])
        requires { Between (length from.now) self.from (length to.old) self.to self.bits self.width × Ways self.storing self.from self.to }
        ensures { Carried from.now (Route self.from self.to self.bits (λ b. b < 2 ^ self.bits) self.width) to.old to.new }
    {
        let m = self.bits.min(6);
        let n = pow2(self.bits - m);
        let mut words = [0u32; 1024];
        for i in 0..n {
            self.group(from, to, m, i, &mut words);
        }
    }
}

// From a stacked matrix to its stored rows.
pub(crate) fn store(width: usize, bits: u32, stacked: &[u32], rows: &mut [u32])
    requires { (width ≤ 4096) × (bits ≤ 24) × (length stacked.now ≡ width * 2 ^ bits) × (length rows.old ≡ width * 2 ^ bits) }
    ensures { rows.new ≡ stored_rows width bits stacked.now }
{
    let f = Grid::of_columns(bits);
    let t = Grid::of_rows(width);
    let all = Move {
        storing: true,
        from: f,
        to: t,
        bits,
        width,
    };
    all.rearrange(stacked, rows);
}

// From stored rows to the stacked matrix.
pub(crate) fn load(width: usize, bits: u32, rows: &[u32], stacked: &mut [u32])
    requires { (width ≤ 4096) × (bits ≤ 24) × (length rows.now ≡ width * 2 ^ bits) × (length stacked.old ≡ width * 2 ^ bits) }
    ensures { stacked.new ≡ stacked_columns width bits rows.now }
{
    let f = Grid::of_rows(width);
    let t = Grid::of_columns(bits);
    let all = Move {
        storing: false,
        from: f,
        to: t,
        bits,
        width,
    };
    all.rearrange(rows, stacked);
}
