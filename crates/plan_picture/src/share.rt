// The share of used cells.
ghost use Rattle.std.specs.Prelude.{◌≡◌, ◌*◌, ◌≤◌, ◌<◌, ◌^◌, length};
ghost use Rattle.plan_picture.specs.Share.{used_cells, used_share};

use crate::fields::Part;
use crate::scale::Frame;

// The cells that the slices of the first k records take.
pub(crate) fn used_cells(frame: Frame, records: &[u64], k: usize) -> u64
    requires { (2 * k ≤ length records.now) × (k ≤ 4096) }
    ensures { (result ≡ used_cells frame.l_skip records.now k) × (result < 2 ^ 44) }
{
    let mut n = 0;
    for record in records.chunks_exact(2).take(k) {
        let part = Part {
            frame,
            x: record[0],
            y: record[1],
        };
        n += part.rows();
    }
    n
}

// In 100, rounded down.
pub(crate) fn used_share(used: u64, cells: u64) -> u64
    requires { used < 2 ^ 44 }
    ensures { result ≡ used_share used cells }
{
    (used * 100).checked_div(cells).unwrap_or(0)
}
