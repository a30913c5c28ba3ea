// The lines that a trace prints (document 01, 'Trace program'): from a line to bytes.
#![tactic(auto)]

ghost use Rattle.std.specs.Prelude.{◌+◌, ◌≤◌, length};
ghost use Rattle.page.specs.Put.{Put};
ghost use Rattle.line_text.specs.LineText.{figure_bytes, field, line_bytes};

use lines::Line;

// Puts a figure as a field after another.
fn put_field(page: &mut [u8], at: usize, figure: Option<u64>) -> usize
    requires { at + 21 ≤ length page.old }
    ensures short { result ≤ at + 21 }
    ensures put { Put page.old at (field (figure_bytes figure)) page.new result }
{
    match figure {
        None => page::put_bytes(page, at, b" -"),
        Some(n) => {
            let next = page::put_bytes(page, at, b" ");
            page::put_decimal(page, next, n)
        }
    }
}

// Puts a line, which is at most 105 bytes long.
pub fn put_line(page: &mut [u8], at: usize, step: usize, line: Line) -> usize
    requires { at + 105 ≤ length page.old }
    ensures short { result ≤ at + 105 }
    ensures put { Put page.old at (line_bytes step line) page.new result }
{
    let numbered = page::put_decimal(page, at, step as u64);
    let judged = put_field(page, numbered, Some(line.number as u64));
    let placed = put_field(page, judged, line.place);
    let moved = put_field(page, placed, line.slot);
    let sent = put_field(page, moved, line.row);
    page::put_bytes(page, sent, b"\n")
}
