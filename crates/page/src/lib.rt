// Printing into a page that is lent: bytes and decimal numbers go after those that stand there. The page and the count of its
// bytes are two parameters: a struct that held the lent page would have to say at each call that it is the same page still.
#![tactic(auto)]

ghost use Rattle.std.specs.Prelude.{◌≡◌, ◌+◌, ◌≤◌, length};
ghost use Rattle.page.specs.Decimal.{decimal};
ghost use Rattle.page.specs.Put.{Put};

// Puts bytes after the page's first `at`, and gives how many there are now.
#[tactic(auto, using(crate::proofs::Puts::put_paste))]
pub fn put_bytes(page: &mut [u8], at: usize, bytes: &[u8]) -> usize
    requires { at + length bytes.now ≤ length page.old }
    ensures { Put page.old at bytes.now page.new result }
{
    let end = at + bytes.len();
    page[at..end].copy_from_slice(bytes);
    end
}

// Puts a number in decimal digits. (std's `write!` says which bytes it writes only where it succeeds, and this cannot fail.)
pub fn put_decimal(page: &mut [u8], at: usize, n: u64) -> usize
    requires { at + 20 ≤ length page.old }
    ensures short { result ≤ at + 20 }
    ensures put { Put page.old at (decimal n) page.new result }
{
    let last = [b'0' + (n % 10) as u8];
    if n < 10 {
        return put_bytes(page, at, &last);
    }
    let higher = put_decimal(page, at, n / 10);
    put_bytes(page, higher, &last)
}
