// Where things stand in the picture, in pixels.
ghost use Rattle.std.specs.Prelude.{◌≡◌, ◌≤◌, ◌<◌, ◌^◌};
ghost use Rattle.plan_picture.specs.Scale.{pitch, bar_width, bar_left, bar_middle, picture_width, down, row_top, tall_of};
ghost use Rattle.plan_picture.specs.Slices.{roomy, edge_of};

// What an accepted plan is drawn by.
#[derive(Clone, Copy)]
pub(crate) struct Frame {
    pub(crate) l_skip: u32,
    pub(crate) width: u32,
    pub(crate) height: u32,
    ghost skip: { l_skip ≤ 10 },
    ghost wide: { width ≤ 4096 },
    ghost high: { 0 < height },
}

impl Frame {
    pub(crate) fn bar_pitch(self) -> u64
        ensures { result ≡ pitch self.width }
    {
        (1120 / (self.width as u64).max(1)).min(96).max(3)
    }

    pub(crate) fn bar_width(self) -> u64
        ensures { result ≡ bar_width self.width }
    {
        let p = self.bar_pitch();
        p - (1 + p / 8)
    }

    pub(crate) fn bar_left(self, k: u64) -> u64
        requires { k ≤ 4096 }
        ensures { result ≡ bar_left self.width k }
    {
        96 + k * self.bar_pitch()
    }

    pub(crate) fn bar_middle(self, k: u64) -> u64
        requires { k ≤ 4096 }
        ensures { result ≡ bar_middle self.width k }
    {
        self.bar_left(k) + self.bar_width() / 2
    }

    pub(crate) fn picture_width(self) -> u64
        ensures { result ≡ picture_width self.width }
    {
        (self.bar_left(self.width as u64) + 16).max(480)
    }

    fn rows_down(self, rows: u64) -> u64
        requires { rows < 2 ^ 40 }
        ensures { result ≡ down self.height rows }
    {
        rows * 512 / self.height as u64
    }

    pub(crate) fn row_top(self, row: u64) -> u64
        requires { row < 2 ^ 24 }
        ensures { result ≡ row_top self.height row }
    {
        104 + self.rows_down(row)
    }

    pub(crate) fn tall(self, row: u64, rows: u64) -> u64
        requires { (row < 2 ^ 24) × (rows < 2 ^ 32) }
        ensures { result ≡ tall_of self.height row rows }
    {
        let first = self.rows_down(row);
        (self.rows_down(row + rows) - first).max(1)
    }

    pub(crate) fn is_roomy(self, tall: u64, least: u64) -> bool
        ensures { result ≡ roomy self.width tall least }
    {
        24 <= self.bar_width() && least <= tall
    }

    pub(crate) fn edge(self, tall: u64) -> u64
        ensures { result ≡ edge_of self.width tall }
    {
        u64::from(self.is_roomy(tall, 8))
    }
}
