// The decimal numbers of a text (document 01, 'Trace program'). Every public function answers for any text.
#![tactic(auto)]

ghost use Rattle.std.specs.Prelude.{◌≡◌, ◌≤◌, length};
ghost use Rattle.number_text.specs.Numbers.{blank, numbers_within, listed, counted};

use scanner::Scan;

mod scanner;

// Reads the decimal numbers of a text into the lent list, and returns how many stand at its start. A text that is unreadable
// has none, nor has one with more numbers than the list holds.
pub fn read_numbers(text: &[u8], list: &mut [u32]) -> Option<usize>
    ensures numbers { listed result list.new ≡ numbers_within (length list.old) text.now }
    ensures within { counted result ≤ length list.old }
{
    let mut s = Scan::START;
    for b in text {
        s = scanner::eat(list, s, *b)?;
    }
    let last = scanner::end_number(list, s)?;
    Some(last.count)
}

// Tells whether a text is blank: it has no bytes, or blanks and newlines alone.
pub fn is_blank(text: &[u8]) -> bool
    ensures { result ≡ blank text.now }
{
    text.iter().all(|b| scanner::is_gap(*b))
}
