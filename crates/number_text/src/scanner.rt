// The scanner: a text of decimal numbers, read one byte at a time.
ghost use Rattle.std.specs.Prelude.{◌≡◌, ◌≤◌, true, length, IfSome, None, Some};
ghost use Rattle.number_text.specs.Numbers.{is_digit, is_gap, appended, small};
ghost use Rattle.number_text.specs.Scanner.{Past};

// How far a text is read. The numbers that have ended stand in the lent list. Kept: the count stands beside the list, which is
// the caller's memory (there is no heap here), and `Past` speaks of both.
#[derive(Clone, Copy)]
pub struct Scan {
    // how many numbers have ended
    pub count: usize,
    // the value of the digits just read, if there are any
    pub pending: Option<u32>,
}

impl Scan {
    pub const START: Scan = Scan {
        count: 0,
        pending: None,
    };
}

// The digits just read and one more, as a number, if it is no larger than 4,294,967,295.
fn append(pending: Option<u32>, b: u8) -> Option<u32>
    requires { is_digit b ≡ true }
    ensures { result ≡ small (appended pending b) }
{
    let tens = pending.unwrap_or(0).checked_mul(10)?;
    tens.checked_add((b - b'0') as u32)
}

// Lists the number that ends, if there is room.
fn list_number(list: &mut [u32], s: Scan, value: u32) -> Option<Scan>
    requires { (s.count ≤ length list.old) × (s.pending ≡ Some value) }
    ensures past { Past 32 list.old s list.new result }
    ensures outside { IfSome result (λ r. r.pending ≡ None) }
{
    if s.count < list.len() {
        list[s.count] = value;
        return Some(Scan {
            count: s.count + 1,
            pending: None,
        });
    }
    None
}

// Digits end, as at a blank.
pub fn end_number(list: &mut [u32], s: Scan) -> Option<Scan>
    requires { s.count ≤ length list.old }
    ensures past { Past 32 list.old s list.new result }
    ensures outside { IfSome result (λ r. r.pending ≡ None) }
{
    match s.pending {
        None => Some(s),
        Some(value) => list_number(list, s, value),
    }
}

// Tells whether a byte separates numbers: a blank or a newline.
pub fn is_gap(b: u8) -> bool
    ensures { result ≡ is_gap b }
{
    matches!(b, b' ' | b'\n')
}

// The byte b is read, if it may stand in a text of numbers.
pub fn eat(list: &mut [u32], s: Scan, b: u8) -> Option<Scan>
    requires { s.count ≤ length list.old }
    ensures { Past b list.old s list.new result }
{
    if b.is_ascii_digit() {
        let value = append(s.pending, b)?;
        return Some(Scan {
            count: s.count,
            pending: Some(value),
        });
    }
    if !is_gap(b) {
        return None;
    }
    end_number(list, s)
}
