// Lines of 11 bytes: a tag's, or a refusal's.
ghost use Rattle.std.specs.Prelude.{◌+◌, ◌*◌, ◌≤◌, [], ◌∷◌, ◌++◌, ◌≡◌, length, drop};
ghost use Rattle.sheet.specs.Column.{newline, column_of};
ghost use Rattle.sheet.specs.Steps.{put_at};
ghost use Rattle.model.specs.Walklist.{tag_lines, refused_line};

use sheet::column::Columns;
use sheet::line::TAG;
use sheet::text::put_left;

// The bytes of a line.
pub const PRINTED_LINE: usize = 11;

// Writes a number into columns of a text, and a newline after it.
#[tactic(auto, unfolding(sheet::specs::Column::newline), using(crate::proofs::Laws::Lines::number_line_put))]
fn put_number_line(text: &mut [u8], columns: Columns, n: u32)
    requires { columns.start + columns.width + 1 ≤ length text.old }
    ensures { text.new ≡ put_at columns.start (column_of columns.width n ++ (newline ∷ [])) text.old }
{
    columns.put(text, u64::from(n));
    text[columns.start + columns.width] = b'\n';
}

// Writes the lines of tags over the first bytes of a text.
#[tactic(auto, unfolding(model::specs::Walklist::tag_lines, sheet::specs::Line::tag_columns), using(crate::proofs::Laws::Lines::tags_more))]
pub fn put_tags(text: &mut [u8], tags: &[u32])
    requires { 11 * length tags.now ≤ length text.old }
    ensures { text.new
        ≡ tag_lines tags.now ++ drop (11 * length tags.now) text.old }
{
    for (i, tag) in tags.iter().enumerate() {
        put_number_line(
            text,
            Columns {
                start: PRINTED_LINE * i,
                width: TAG.width,
            },
            *tag,
        );
    }
}

// Writes a refusal's line over the first bytes of a text.
pub fn put_refusal(text: &mut [u8], number: u32)
    requires { 11 ≤ length text.old }
    ensures { text.new ≡ refused_line number ++ drop 11 text.old }
{
    put_left(&mut text[..7], b"REFUSED");
    put_number_line(text, Columns { start: 7, width: 3 }, number);
}
