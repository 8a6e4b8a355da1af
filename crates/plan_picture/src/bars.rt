// The bars of the stack columns, and the parts in them.
ghost use Rattle.std.specs.Prelude.{◌≡◌, ◌≤◌};
ghost use Rattle.text.specs.Writing.{Put};
ghost use Rattle.text.specs.Template.{bytes_of};
ghost use Rattle.plan_picture.specs.Texts.{part_end_text};
ghost use Rattle.plan_picture.specs.Parts.{bar_numbered, bar_of, bar_number_of, bar_at, part_of, stripes_of, label_of, drawn_slice};

use crate::fields::Part;
use crate::scale::Frame;
use text::writer::Writer;

fn is_numbered(frame: Frame, k: u64) -> bool
    ensures { result ≡ bar_numbered frame.width k }
{
    24 <= frame.bar_pitch() || k % 16 == 0
}

fn put_bar(page: &mut Writer<'_>, frame: Frame, k: u64)
    requires { k ≤ 4096 }
    ensures { Put page.old (bar_of frame.width k) page.new }
{
    page.put_template(
        b"<rect x='@' y='104' width='@' height='512' fill='url(#unused)'/>\n",
        &[frame.bar_left(k), frame.bar_width()],
    );
}

fn put_bar_number(page: &mut Writer<'_>, frame: Frame, k: u64)
    requires { k ≤ 4096 }
    ensures { Put page.old (bar_number_of frame.width k) page.new }
{
    page.put_template(
        b"<text class='number' x='@' y='640'>@</text>\n",
        &[frame.bar_middle(k), k],
    );
}

// The bar of stack column k.
pub(crate) fn bar(page: &mut Writer<'_>, frame: Frame, k: u64)
    requires { k ≤ 4096 }
    ensures { Put page.old (bar_at frame.width k) page.new }
{
    put_bar(page, frame, k);
    if is_numbered(frame, k) {
        put_bar_number(page, frame, k);
    }
}

fn put_part(page: &mut Writer<'_>, part: Part)
    ensures { Put page.old (part_of part.frame.l_skip part.frame.width part.frame.height part.x part.y) page.new }
{
    let tall = part.tall();
    page.put_template(
        b"<g><title>matrix @, column @, height @: stack column @, rows @ to @</title><rect class='matrix@ edge@' x='@' y='@' width='@' height='@'/>",
        &[
            part.matrix(),
            part.column(),
            part.trace_height(),
            part.stack_column(),
            part.row(),
            part.last_row(),
            part.colour(),
            part.frame.edge(tall),
            part.left(),
            part.top(),
            part.frame.bar_width(),
            tall,
        ],
    );
}

fn put_stripes(page: &mut Writer<'_>, part: Part)
    ensures { Put page.old (stripes_of part.frame.l_skip part.frame.width part.frame.height part.x part.y) page.new }
{
    let l = part.frame.l_skip as u64;
    if l <= part.log_height() {
        return;
    }
    page.put_template(
        b"<rect fill='url(#zeros)' x='@' y='@' width='@' height='@'/>",
        &[part.left(), part.top(), part.frame.bar_width(), part.tall()],
    );
}

fn put_label(page: &mut Writer<'_>, part: Part)
    ensures { Put page.old (label_of part.frame.l_skip part.frame.width part.frame.height part.x part.y) page.new }
{
    if !part.frame.is_roomy(part.tall(), 14) {
        return;
    }
    page.put_template(
        b"<text class='number on@' x='@' y='@'>@</text>",
        &[
            part.shade(),
            part.middle(),
            part.label_base(),
            part.matrix(),
        ],
    );
}

fn put_part_end(page: &mut Writer<'_>)
    ensures { Put page.old (bytes_of part_end_text) page.new }
{
    page.put(b"</g>\n");
}

// The part of a slice record.
pub(crate) fn slice(page: &mut Writer<'_>, part: Part)
    ensures { Put page.old (drawn_slice part.frame.l_skip part.frame.width part.frame.height part.x part.y) page.new }
{
    put_part(page, part);
    put_stripes(page, part);
    put_label(page, part);
    put_part_end(page);
}
