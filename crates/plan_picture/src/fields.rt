// A slice record of a picture, of words x and y, and its fields.
ghost use Rattle.std.specs.Prelude.{◌≡◌, ◌<◌, ◌^◌};
ghost use Rattle.layout.specs.Packed.{matrix_field, column_field, stack_field, row_field, log_field};
ghost use Rattle.plan_picture.specs.Fields.{rows_of, last_row, trace_height};

use crate::scale::Frame;

#[derive(Clone, Copy)]
pub(crate) struct Part {
    pub(crate) frame: Frame,
    pub(crate) x: u64,
    pub(crate) y: u64,
}

fn pow2(log: u64) -> u64
    requires { log < 64 }
    ensures { result ≡ 2 ^ log }
{
    1 << log
}

impl Part {
    pub(crate) fn matrix(self) -> u64
        ensures { result ≡ matrix_field self.x }
    {
        self.x >> 48
    }

    pub(crate) fn column(self) -> u64
        ensures { result ≡ column_field self.x }
    {
        (self.x >> 36) % 4096
    }

    pub(crate) fn stack_column(self) -> u64
        ensures { result ≡ stack_field self.x }
    {
        (self.x >> 24) % 4096
    }

    pub(crate) fn row(self) -> u64
        ensures { result ≡ row_field self.x }
    {
        self.x % (1 << 24)
    }

    pub(crate) fn log_height(self) -> u64
        ensures { result ≡ log_field self.y }
    {
        self.y >> 59
    }

    // The rows that the slice takes.
    pub(crate) fn rows(self) -> u64
        ensures { result ≡ rows_of self.frame.l_skip self.y }
    {
        pow2(self.log_height()).max(pow2(self.frame.l_skip as u64))
    }

    pub(crate) fn last_row(self) -> u64
        ensures { result ≡ last_row self.frame.l_skip self.x self.y }
    {
        self.row() + self.rows() - 1
    }

    pub(crate) fn trace_height(self) -> u64
        ensures { result ≡ trace_height self.y }
    {
        pow2(self.log_height())
    }
}
