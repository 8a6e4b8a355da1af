// Where the part of a slice record stands.
ghost use Rattle.std.specs.Prelude.{◌≡◌};
ghost use Rattle.plan_picture.specs.Slices.{slice_left, slice_middle, slice_top, slice_tall, label_base, colour_of, shade_of};

use crate::fields::Part;

impl Part {
    pub(crate) fn left(self) -> u64
        ensures { result ≡ slice_left self.frame.width self.x }
    {
        self.frame.bar_left(self.stack_column())
    }

    pub(crate) fn middle(self) -> u64
        ensures { result ≡ slice_middle self.frame.width self.x }
    {
        self.frame.bar_middle(self.stack_column())
    }

    pub(crate) fn top(self) -> u64
        ensures { result ≡ slice_top self.frame.height self.x }
    {
        self.frame.row_top(self.row())
    }

    pub(crate) fn tall(self) -> u64
        ensures { result ≡ slice_tall self.frame.l_skip self.frame.height self.x self.y }
    {
        let first = self.row();
        self.frame.tall(first, self.rows())
    }

    pub(crate) fn label_base(self) -> u64
        ensures { result ≡ label_base self.frame.l_skip self.frame.height self.x self.y }
    {
        self.top() + self.tall() / 2 + 4
    }

    pub(crate) fn colour(self) -> u64
        ensures { result ≡ colour_of self.x }
    {
        self.matrix() % 12
    }

    pub(crate) fn shade(self) -> u64
        ensures { result ≡ shade_of self.x }
    {
        self.matrix() % 2
    }
}
