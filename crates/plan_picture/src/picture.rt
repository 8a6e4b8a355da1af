// The picture of a plan, as SVG.
ghost use Rattle.std.specs.Prelude.{◌≡◌, ◌+◌, ◌*◌, ◌≤◌, ◌<◌, ◌^◌, length, get_or};
ghost use Rattle.text.specs.Printed.{Appended};
ghost use Rattle.text.specs.Template.{bytes_of};
ghost use Rattle.text.specs.Writing.{Put};
ghost use Rattle.plan_text.specs.Planned.{plan_of, records_of};
ghost use Rattle.plan_picture.specs.Texts.{end_text};
ghost use Rattle.plan_picture.specs.Parts.{bar_at, drawn_slice, in_turn};
ghost use Rattle.plan_picture.specs.Picture.{opening_tags, sentence_of, legend_of, drawn_of, picture_of};

use crate::bars::{bar, slice};
use crate::fields::Part;
use crate::scale::Frame;
use crate::share::{used_cells, used_share};
use plan_text::Reading;
use text::writer::Writer;

fn put_head(page: &mut Writer<'_>, frame: Frame)
    ensures { Put page.old (opening_tags frame.width) page.new }
{
    let w = frame.picture_width();
    page.put_template(
        b"<svg xmlns='http://www.w3.org/2000/svg' version='1.1' width='@' height='656' viewBox='0 0 @ 656' font-family='Helvetica, Arial, sans-serif' font-size='12' fill='#111111'>
<title>The plan of a list of matrices</title>
<style type='text/css'>
.edge1{stroke:#ffffff;stroke-width:2}
.number{font-weight:bold;text-anchor:middle}
.on0{fill:#ffffff}
.matrix0{fill:#332288} .matrix1{fill:#88ccee} .matrix2{fill:#117733} .matrix3{fill:#ddcc77}
.matrix4{fill:#882255} .matrix5{fill:#44bb99} .matrix6{fill:#4477aa} .matrix7{fill:#ee8866}
.matrix8{fill:#aa4499} .matrix9{fill:#bbcc33} .matrix10{fill:#994f00} .matrix11{fill:#ffaabb}
</style>
<defs>
<pattern id='unused' width='8' height='8' patternUnits='userSpaceOnUse' patternTransform='rotate(45)'><rect width='8' height='8' fill='#f2f2f2'/><rect width='2' height='8' fill='#999999'/></pattern>
<pattern id='zeros' width='8' height='8' patternUnits='userSpaceOnUse'><rect width='8' height='3' fill='#ffffff' fill-opacity='0.3'/></pattern>
</defs>
<rect width='@' height='656' fill='#ffffff'/>
",
        &[w, w, w],
    );
}

// Stack width, H and the share of used cells in words.
fn put_sentence(page: &mut Writer<'_>, frame: Frame, used: u64)
    requires { used < 2 ^ 44 }
    ensures { Put page.old (sentence_of frame.width frame.height used) page.new }
{
    let cells = frame.width as u64 * frame.height as u64;
    let share = used_share(used, cells);
    page.put_template(
        b"<text x='16' y='26' font-size='15' font-weight='bold'>Stack width @, H = @ rows,</text>
<text x='16' y='46' font-size='15' font-weight='bold'>@ of @ cells used (@ in 100, rounded down)</text>
",
        &[frame.width as u64, frame.height as u64, used, cells, share],
    );
}

fn put_legend(page: &mut Writer<'_>, frame: Frame, n_stack: u32, columns: u64)
    ensures { Put page.old (legend_of frame.l_skip n_stack frame.height columns) page.new }
{
    page.put_template(
        b"<text x='16' y='68'>l_skip @, n_stack @, trace columns: @. A number in a bar is the matrix.</text>
<text x='16' y='86'>Hatched: unused rows. Striped: a short column, zeros between its cells.</text>
<text x='88' y='114' text-anchor='end'>row 0</text>
<text x='88' y='616' text-anchor='end'>row @</text>
<text x='88' y='640' text-anchor='end'>stack column</text>
",
        &[
            frame.l_skip as u64,
            n_stack as u64,
            columns,
            frame.height as u64 - 1,
        ],
    );
}

fn put_bars(page: &mut Writer<'_>, frame: Frame)
    ensures { Put page.old (in_turn (bar_at frame.width) frame.width) page.new }
{
    for k in 0..frame.width as u64 {
        bar(page, frame, k);
    }
}

fn put_slices(page: &mut Writer<'_>, frame: Frame, records: &[u64], k: usize)
    requires { 2 * k ≤ length records.now }
    ensures { Put page.old (in_turn (λ i. drawn_slice frame.l_skip frame.width frame.height (get_or records.now (2 * i) 0) (get_or records.now (2 * i + 1) 0)) k) page.new }
{
    for record in records.chunks_exact(2).take(k) {
        let part = Part {
            frame,
            x: record[0],
            y: record[1],
        };
        slice(page, part);
    }
}

fn put_end(page: &mut Writer<'_>)
    ensures { Put page.old (bytes_of end_text) page.new }
{
    page.put(b"</svg>\n");
}

// The first k records in bars.
fn put_drawing(page: &mut Writer<'_>, frame: Frame, n_stack: u32, records: &[u64], k: usize)
    requires { (2 * k ≤ length records.now) × (k ≤ 4096) }
    ensures { Put page.old (drawn_of frame.l_skip n_stack frame.width frame.height records.now k) page.new }
{
    let used = used_cells(frame, records, k);
    put_head(page, frame);
    put_sentence(page, frame, used);
    put_legend(page, frame, n_stack, k as u64);
    put_bars(page, frame);
    put_slices(page, frame, records, k);
    put_end(page);
}

fn draw(out: &mut [u8], frame: Frame, n_stack: u32, records: &[u64], k: usize) -> usize
    requires { (2 * k ≤ length records.now) × (k ≤ 4096) }
    ensures { Appended out.old 0 (drawn_of frame.l_skip n_stack frame.width frame.height records.now k) result out.new }
{
    let mut page = Writer { out, at: 0 };
    put_drawing(&mut page, frame, n_stack, records, k);
    page.at
}

// Plans what was read, and puts the picture, or what `plan` prints where it is refused, as far as there is room; answers how
// many bytes that is.
pub fn picture(words: &[u32; 12290], r: Reading, records: &mut [u64; 8192], out: &mut [u8]) -> usize
    ensures { (records.new ≡ records_of r words.now records.old) × Appended out.old 0 (picture_of (get_or words.now 0 0) (get_or words.now 1 0) (plan_of r words.now (length records.old)) records.new) result out.new }
{
    let planned = plan_text::plan(words, r, records);
    match planned {
        Ok(p) => {
            let k = (p.columns as usize).min(4096);
            let frame = Frame {
                l_skip: words[0],
                width: p.width,
                height: p.height,
            };
            draw(out, frame, words[1], records, k)
        }
        Err(_) => plan_text::print(planned, records, out),
    }
}
