// The first polynomial: rows are added up by weights over the columns of one order, and each order's sums are multiplied by its kernels.
ghost use Rattle.std.specs.Prelude.{◌≡◌, ◌+◌, ◌-◌, ◌*◌, ◌^◌, ◌<◌, ◌≤◌, min, true, false, length, ◌≢◌};
ghost use Rattle.field.specs.Canonical.{Canonical};
ghost use Rattle.field.specs.Element.{F, ◌⊕◌, ◌⊖◌, ◌⊗◌, elem_of, words_of};
ghost use Rattle.field.specs.Slice.{elem_at, elem_words, canonical_words};
ghost use Rattle.weights.specs.RunOf.{run_of};
ghost use Rattle.weights.specs.AtField.{first_coefficient_f};
ghost use Rattle.prover.specs.RowSum.{from_words};
ghost use Rattle.prover.specs.Live.{Placed};
ghost use Rattle.prover.specs.Gained.{Elements};
ghost use Rattle.prover.specs.Written.{Written};
ghost use Rattle.prover.specs.Sources.{run_from, cells_of, Taken};
ghost use Rattle.prover.specs.ClassRows.{ColumnRows, Summed, Missing, gain_of};

use crate::canonical;
use crate::elements::{fill, read, write};
use crate::geometric::add_product;
use crate::given::Given;
use crate::kernels::turned;
use crate::made::Made;
use crate::table_rows::{table_rows, turned_rows};
use crate::transforms::two_to;
use field::element;
use field::element::{exp_power_of_2, mul, square};
use field::powers::powers;
use field::slice::load;
use layout::columns::{lifted, walk_first, walk_next};
use tables::poly_common::eval_eq_uni_at_one;

// What each order's part is made of: the columns, r and lambda, the stacked matrices; the powers of the skip generator; and what
// the last row of a block has in common with the next block.
#[derive(Drop)]
struct Source<'a> {
    l_skip: u32,
    n_stack: u32,
    first: usize,
    lists: &'a [u32],
    columns: usize,
    stacked: usize,
    r: &'a [u32],
    lambda: [u32; 4],
    matrices: &'a [u32],
    powers: &'a [u32; 1024],
    wrap: [u32; 4],
}

// One column of log height `log` that starts at cell `start`, with its power of lambda: where it has the order that is asked, its rows are added to u, or
// to f where it is flagged; and to g by the entries before where, flagged, it is of the full order.
fn add_column(
    l_skip: u32,
    order: u32,
    log: u32,
    flag: u32,
    start: usize,
    r: &[u32],
    matrices: &[u32],
    power: [u32; 4],
    u: &mut [u32],
    f: &mut [u32],
    g: &mut [u32],
) -> bool
    requires l_skip_bound { (l_skip ≤ 10) × (order ≤ l_skip) × (log - l_skip ≤ 20) }
    requires l_skip_in_bounds { start + 2 ^ l_skip * 2 ^ (log - l_skip) ≤ length matrices.now }
    requires l_skip_in_bounds_2 { 4 * (log - l_skip + 1) ≤ length r.now }
    requires r_value { canonical_words r.now ≡ true }
    requires canonical { Canonical power }
    requires elements { Elements (2 ^ l_skip) u.old }
    requires elements_2 { Elements (2 ^ l_skip) f.old }
    requires elements_3 { Elements (2 ^ l_skip) g.old }
    ensures log_nonzero { result ≡ false → min l_skip log ≢ order }
    ensures column_rows { ColumnRows l_skip order log flag (elem_of power) matrices.now start r.now u.old f.old g.old u.new f.new g.new }
{
    let lift = lifted(log, l_skip);
    let rows = two_to(l_skip);
    let blocks: usize = 1 << lift;
    if lifted(l_skip, lifted(l_skip, log)) != order {
        return false;
    }
    if flag == 0 {
        table_rows(l_skip, lift, rows, matrices, start, blocks, r, power, u);
        return true;
    }
    table_rows(l_skip, lift, rows, matrices, start, blocks, r, power, f);
    if order != l_skip {
        return true;
    }
    turned_rows(l_skip, lift, rows, matrices, start, r, power, g);
    true
}

// The rows of all columns of one order, added up; and whether there is such a column.
fn class_rows(source: &Source, order: u32, u: &mut [u32], f: &mut [u32], g: &mut [u32]) -> bool
    requires taken { Taken source.now }
    requires order_le_l_skip { order ≤ source.now.l_skip }
    requires u_len { length u.old ≡ 4 * 2 ^ source.now.l_skip }
    requires f_len { length f.old ≡ 4 * 2 ^ source.now.l_skip }
    requires g_len { length g.old ≡ 4 * 2 ^ source.now.l_skip }
    ensures missing { result ≡ false → Missing (run_from source.now) (cells_of source.now) order source.now.columns }
    ensures summed { Summed (run_from source.now) (cells_of source.now) order source.now.columns u.new f.new g.new }
{
    let l_skip = source.l_skip;
    let rows = two_to(l_skip);
    fill(u, 0, rows, [0, 0, 0, 0]);
    fill(f, 0, rows, [0, 0, 0, 0]);
    fill(g, 0, rows, [0, 0, 0, 0]);
    let step = square(source.lambda);
    let mut power = element::from_word(1);
    let mut any = false;
    let mut c = walk_first(l_skip, source.n_stack, source.first, source.lists);
    for _k in 0..source.columns {
        let there = add_column(
            l_skip,
            order,
            c.log,
            c.flag,
            c.start,
            source.r,
            source.matrices,
            power,
            u,
            f,
            g,
        );
        any = any || there;
        let p = mul(power, step);
        power = p;
        c = walk_next(l_skip, source.n_stack, source.first, source.lists, c);
    }
    any
}

// Each of the first `rows` entries of `to` gains that of `from`.
fn gain_rows(from: &[u32], to: &mut [u32], rows: usize)
    requires elements { Elements rows from.now }
    requires elements_2 { Elements rows to.old }
    ensures { Written to.old 0 rows (λ i. elem_at to.old i ⊕ elem_at from.now i) to.new }
{
    for i in 0..rows {
        let x = read(from, i);
        let y = read(to, i);
        write(to, i, canonical::add(y, x));
    }
}

// Each loses it.
fn lose_rows(from: &[u32], to: &mut [u32], rows: usize)
    requires elements { Elements rows from.now }
    requires elements_2 { Elements rows to.old }
    ensures { Written to.old 0 rows (λ i. elem_at to.old i ⊖ elem_at from.now i) to.new }
{
    for i in 0..rows {
        let x = read(from, i);
        let y = read(to, i);
        write(to, i, canonical::sub(y, x));
    }
}

// What the columns of one order add to the first polynomial: nothing where there is none.
fn add_order(
    source: &Source,
    order: u32,
    u: &mut [u32],
    f: &mut [u32],
    g: &mut [u32],
    e: &mut [u32],
    out: &mut [u32],
)
    requires taken { Taken source.now }
    requires order_le_l_skip { order ≤ source.now.l_skip }
    requires u_len { length u.old ≡ 4 * 2 ^ source.now.l_skip }
    requires f_len { length f.old ≡ 4 * 2 ^ source.now.l_skip }
    requires g_len { length g.old ≡ 4 * 2 ^ source.now.l_skip }
    requires e_len { length e.old ≡ 4 * (2 * 2 ^ source.now.l_skip) }
    requires elements { Elements (2 * 2 ^ source.now.l_skip - 1) out.old }
    ensures { Written out.old 0 (2 * 2 ^ source.now.l_skip - 1) (λ j. elem_at out.old j ⊕ gain_of (run_from source.now) (cells_of source.now) order j) out.new }
{
    let l_skip = source.l_skip;
    let lambda = source.lambda;
    let t = source.powers;
    let rows = two_to(l_skip);
    let any = class_rows(source, order, u, f, g);
    if !any {
        return;
    }
    gain_rows(f, u, rows);
    lose_rows(f, g, rows);
    let y = exp_power_of_2(load(source.r, 0), l_skip - order);
    let one = element::from_word(1);
    add_product(l_skip, order, t, y, one, u, e, out);
    let z = turned(order, y);
    add_product(l_skip, order, t, z, lambda, f, e, out);
    if order != l_skip {
        return;
    }
    let k = mul(lambda, source.wrap);
    add_product(l_skip, l_skip, t, one, k, g, e, out);
}

// The same with room of its own.
fn add_order_in_room(source: &Source, order: u32, out: &mut [u32])
    requires taken { Taken source.now }
    requires order_le_l_skip { order ≤ source.now.l_skip }
    requires elements { Elements (2 * 2 ^ source.now.l_skip - 1) out.old }
    ensures { Written out.old 0 (2 * 2 ^ source.now.l_skip - 1) (λ j. elem_at out.old j ⊕ gain_of (run_from source.now) (cells_of source.now) order j) out.new }
{
    let rows = two_to(source.l_skip);
    let mut u = [0u32; 4096];
    let mut f = [0u32; 4096];
    let mut g = [0u32; 4096];
    let mut e = [0u32; 8192];
    add_order(
        source,
        order,
        &mut u[..4 * rows],
        &mut f[..4 * rows],
        &mut g[..4 * rows],
        &mut e[..8 * rows],
        out,
    );
}

// The first polynomial: order after order.
pub(crate) fn first_polynomial(given: Given<'_>, made: Made, matrices: &[u32], out: &mut [u32])
    requires placed { Placed given.l_skip given.n_stack made.first given.lists.now made.columns made.stacked }
    requires r_len { length given.r.now ≡ 4 * (given.n_stack + 1) }
    requires r_value { canonical_words given.r.now ≡ true }
    requires canonical { Canonical given.lambda }
    requires matrices_len { length matrices.now ≡ made.stacked * 2 ^ (given.l_skip + given.n_stack) }
    requires out_len { length out.old ≡ 4 * (2 ^ (given.l_skip + 1) - 1) }
    ensures { out.new ≡ elem_words (2 ^ (given.entry.l_skip + 1) - 1) (first_coefficient_f (run_of given.entry.l_skip given.entry.n_stack made.first given.entry.lists.now given.entry.r.now given.entry.lambda) (from_words matrices.now)) }
{
    let Given {
        l_skip,
        n_stack,
        lists,
        r,
        lambda,
        ..
    } = given;
    let rows = two_to(l_skip);
    let t = powers();
    let wrap = eval_eq_uni_at_one(l_skip, turned(l_skip, load(r, 0)));
    fill(out, 0, 2 * rows - 1, [0, 0, 0, 0]);
    let source = Source {
        l_skip,
        n_stack,
        first: made.first,
        lists,
        columns: made.columns,
        stacked: made.stacked,
        r,
        lambda,
        matrices,
        powers: &t,
        wrap,
    };
    for order in 0..l_skip + 1 {
        add_order_in_room(&source, order, out);
    }
}
