// One line of the script: a verb, for some verbs a second word, and numbers. A number is decimal, or `-` for 65535, and
// with `*` and how often it stands there: 0*130. What is none of the words below is refused.
use crate::bench::{Answer, Kind};
use crate::fault::Fault;
use crate::memory::{MARK, Part, ROOM};
use geometry::Settings;
use sizing::{RefreshTimes, SizeTimes};
use std::str::FromStr;

// A line has at most so many numbers.
pub const MOST_NUMBERS: usize = 512;

// The numbers of a line. Those behind are of the lines before, and `visible` looks at them: so the array is kept, with a count.
pub type Numbers = [u64; MOST_NUMBERS];

#[derive(Clone, Copy, Debug, PartialEq, Eq)]
enum Word {
    Part(Part),
    // the bytes that inspect shows
    Shown,
    Call(Kind),
    Span,
    Size,
    Most,
    Settings,
    Lend,
    Undo,
    Accepted,
    Refused,
    Rest,
    From,
    Order,
    Visible,
    // second words
    Is,
    Kept,
}

impl FromStr for Word {
    type Err = Fault;

    fn from_str(text: &str) -> Result<Word, Fault> {
        match text {
            "control" => Ok(Word::Part(Part::Control)),
            "store" => Ok(Word::Part(Part::Store)),
            "forward" => Ok(Word::Part(Part::Forward)),
            "reverse" => Ok(Word::Part(Part::Reverse)),
            "rows" => Ok(Word::Part(Part::Rows)),
            "counts" => Ok(Word::Part(Part::Counts)),
            "buffer" => Ok(Word::Part(Part::Buffer)),
            "spill" => Ok(Word::Part(Part::Spill)),
            "acts" => Ok(Word::Part(Part::Acts)),
            "part" => Ok(Word::Shown),
            "set-up" => Ok(Word::Call(Kind::SetUp)),
            "tick" => Ok(Word::Call(Kind::Tick)),
            "inspect" => Ok(Word::Call(Kind::Inspect)),
            "read" => Ok(Word::Call(Kind::Read)),
            "write" => Ok(Word::Call(Kind::Write)),
            "span" => Ok(Word::Span),
            "size" => Ok(Word::Size),
            "most" => Ok(Word::Most),
            "settings" => Ok(Word::Settings),
            "lend" => Ok(Word::Lend),
            "undo" => Ok(Word::Undo),
            "accepted" => Ok(Word::Accepted),
            "refused" => Ok(Word::Refused),
            "rest" => Ok(Word::Rest),
            "from" => Ok(Word::From),
            "order" => Ok(Word::Order),
            "visible" => Ok(Word::Visible),
            "is" => Ok(Word::Is),
            "kept" => Ok(Word::Kept),
            _ => Err(Fault::NotUnderstood),
        }
    }
}

impl Word {
    // The largest number that a verb takes at a place among its numbers.
    fn largest(self, place: usize) -> u64 {
        match self {
            Word::Part(Part::Store | Part::Buffer) | Word::Shown | Word::Visible => {
                u64::from(u8::MAX)
            }
            Word::Part(Part::Forward | Part::Reverse | Part::Rows) => u64::from(u16::MAX),
            Word::Call(Kind::Write) if place == 1 => u64::MAX,
            Word::Call(Kind::Write) if place > 1 => u64::from(u8::MAX),
            Word::Span | Word::Size | Word::Most => u64::MAX,
            Word::Lend => ROOM as u64,
            _ => u64::from(u32::MAX),
        }
    }
}

// A part can be told so many values at once.
fn takes(part: Part, count: usize) -> bool {
    match part {
        Part::Control => count == 4,
        Part::Spill | Part::Acts => count == 16,
        _ => true,
    }
}

// A number, and how often it stands there.
struct Repeated {
    value: u64,
    times: usize,
}

// A decimal number. A sign is none of it.
fn decimal(text: &str) -> Result<u64, Fault> {
    if text.starts_with('+') {
        return Err(Fault::NotUnderstood);
    }
    text.parse().map_err(|_| Fault::NotUnderstood)
}

impl FromStr for Repeated {
    type Err = Fault;

    fn from_str(text: &str) -> Result<Repeated, Fault> {
        let (value, times) = text.split_once('*').unwrap_or((text, "1"));
        let value = match value {
            "-" => u64::from(MARK),
            digits => decimal(digits)?,
        };
        let times = usize::try_from(decimal(times)?)?;
        Ok(Repeated { value, times })
    }
}

// Blanks, tabs and carriage returns stand between words and numbers.
const BLANKS: [char; 3] = [' ', '\t', '\r'];

fn is_blank(byte: u8) -> bool {
    matches!(byte, b' ' | b'\t' | b'\r')
}

// The name of the group that a line begins: what stands behind `group` and the byte that ends this word. None is no such
// line.
pub fn group_name(line: &[u8]) -> Option<&[u8]> {
    let start = line.iter().position(|byte| !is_blank(*byte))?;
    let mut halves = line[start..].splitn(2, |byte| is_blank(*byte) || *byte == b'#');
    if halves.next()? != b"group".as_slice() {
        return None;
    }
    Some(halves.next().unwrap_or(&[]))
}

// The words of a line, and how many numbers follow them.
#[derive(Clone, Copy, Debug)]
pub struct Sentence {
    verb: Word,
    second: Option<Word>,
    count: usize,
}

// What a line expects of the last call.
#[derive(Clone, Copy)]
pub enum Expectation<'a> {
    Accepted,
    // with this place, slot moved to, row sent home and estimate
    Answers(Answer),
    Refused(u64),
    Is(Part, &'a [u64]),
    Shown(&'a [u64]),
    // the numbers, of which the first so many are the line's
    Visible(&'a Numbers, usize),
    RestKept,
}

// What a line says.
#[derive(Clone, Copy)]
pub enum Line<'a> {
    Settings(Settings),
    Lend {
        store: usize,
        forward: usize,
        reverse: usize,
        rows: usize,
        counts: usize,
    },
    Put(Part, &'a [u64]),
    SetUp,
    Tick,
    Inspect {
        row: u32,
    },
    Read {
        row: u32,
        length: Option<u64>,
    },
    Write {
        row: u32,
        column: usize,
        bytes: &'a [u64],
    },
    // of a write's bytes where there is a column, else of a read's buffer
    Span {
        column: Option<usize>,
        count: usize,
    },
    Size(SizeTimes),
    Most(RefreshTimes),
    Expect(Expectation<'a>),
    Undo,
    From {
        first: Kind,
        number: u64,
        row: u32,
    },
    Order,
}

impl Sentence {
    // Reads a line, and puts its numbers into the first places. None is a line that says nothing.
    pub fn read(line: &[u8], numbers: &mut Numbers) -> Result<Option<Sentence>, Fault> {
        let code = line.split(|byte| *byte == b'#').next().unwrap_or(line);
        let Ok(code) = str::from_utf8(code) else {
            return Err(Fault::NotUnderstood);
        };
        let mut items = code.split(BLANKS).filter(|item| !item.is_empty());
        let Some(verb) = items.next() else {
            return Ok(None);
        };
        let verb: Word = verb.parse()?;
        let mut second = None;
        let mut count = 0usize;
        for item in items {
            if let Ok(Repeated { value, times }) = item.parse() {
                if times == 0 || value > verb.largest(count) {
                    return Err(Fault::NotUnderstood);
                }
                let end = count.saturating_add(times);
                let Some(places) = numbers.get_mut(count..end) else {
                    return Err(Fault::NotUnderstood);
                };
                places.fill(value);
                count = end;
            } else if count == 0 && second.is_none() {
                second = Some(item.parse()?);
            } else {
                return Err(Fault::NotUnderstood);
            }
        }
        Ok(Some(Sentence {
            verb,
            second,
            count,
        }))
    }

    // What it says, where its words go together and there are as many numbers as the verb takes.
    pub fn line<'a>(&self, numbers: &'a Numbers) -> Result<Line<'a>, Fault> {
        let Some(values) = numbers.get(..self.count) else {
            return Err(Fault::NotUnderstood);
        };
        Ok(match (self.verb, self.second, values) {
            (Word::Settings, None, [n, q, w, k, a, l]) => {
                Line::Settings(settings([*n, *q, *w, *k, *a, *l, 1])?)
            }
            (Word::Settings, None, [n, q, w, k, a, l, b]) => {
                Line::Settings(settings([*n, *q, *w, *k, *a, *l, *b])?)
            }
            (Word::Lend, None, [store, forward, reverse, rows, counts]) => Line::Lend {
                store: usize::try_from(*store)?,
                forward: usize::try_from(*forward)?,
                reverse: usize::try_from(*reverse)?,
                rows: usize::try_from(*rows)?,
                counts: usize::try_from(*counts)?,
            },
            (Word::Part(part), None, values) if takes(part, values.len()) => {
                Line::Put(part, values)
            }
            (Word::Call(Kind::SetUp), None, []) => Line::SetUp,
            (Word::Call(Kind::Tick), None, []) => Line::Tick,
            (Word::Call(Kind::Inspect), None, [row]) => Line::Inspect {
                row: u32::try_from(*row)?,
            },
            (Word::Call(Kind::Read), None, [row]) => Line::Read {
                row: u32::try_from(*row)?,
                length: None,
            },
            (Word::Call(Kind::Read), None, [row, length]) => Line::Read {
                row: u32::try_from(*row)?,
                length: Some(*length),
            },
            (Word::Call(Kind::Write), None, [row, column, bytes @ ..]) => Line::Write {
                row: u32::try_from(*row)?,
                column: usize::try_from(*column)?,
                bytes,
            },
            (Word::Span, None, [count]) => Line::Span {
                column: None,
                count: usize::try_from(*count)?,
            },
            (Word::Span, None, [column, count]) => Line::Span {
                column: Some(usize::try_from(*column)?),
                count: usize::try_from(*count)?,
            },
            (Word::Size, None, [trefw, trc, tmov, banks, threshold]) => Line::Size(SizeTimes {
                trefw: *trefw,
                trc: *trc,
                tmov: *tmov,
                banks: *banks,
                threshold: *threshold,
            }),
            (Word::Most, None, [trefw, trc, trefi, trfc]) => Line::Most(RefreshTimes {
                trefw: *trefw,
                trc: *trc,
                trefi: *trefi,
                trfc: *trfc,
            }),
            (Word::Accepted, None, []) => Line::Expect(Expectation::Accepted),
            (Word::Accepted, None, [place, slot, row]) => {
                Line::Expect(Expectation::Answers(accepted(*place, *slot, *row, 0)))
            }
            (Word::Accepted, None, [place, slot, row, estimate]) => {
                Line::Expect(Expectation::Answers(accepted(*place, *slot, *row, *estimate)))
            }
            (Word::Refused, None, [number]) => Line::Expect(Expectation::Refused(*number)),
            (Word::Part(part), Some(Word::Is), values) if takes(part, values.len()) => {
                Line::Expect(Expectation::Is(part, values))
            }
            (Word::Shown, Some(Word::Is), values) => Line::Expect(Expectation::Shown(values)),
            (Word::Visible, Some(Word::Is), values) => {
                Line::Expect(Expectation::Visible(numbers, values.len()))
            }
            (Word::Rest, Some(Word::Kept), []) => Line::Expect(Expectation::RestKept),
            (Word::Undo, None, []) => Line::Undo,
            (Word::From, Some(Word::Call(first)), [number]) => Line::From {
                first,
                number: *number,
                row: 0,
            },
            (Word::From, Some(Word::Call(first)), [number, row]) => Line::From {
                first,
                number: *number,
                row: u32::try_from(*row)?,
            },
            (Word::Order, None, []) => Line::Order,
            _ => return Err(Fault::NotUnderstood),
        })
    }
}

fn settings(numbers: [u64; 7]) -> Result<Settings, Fault> {
    let [n, q, w, k, a, l, b] = numbers;
    Ok(Settings {
        n: u32::try_from(n)?,
        q: u32::try_from(q)?,
        w: u32::try_from(w)?,
        k: u32::try_from(k)?,
        a: u32::try_from(a)?,
        l: u32::try_from(l)?,
        b: u32::try_from(b)?,
    })
}

// The answer of an accepted access, or of a sum, which has no estimate.
fn accepted(place: u64, slot: u64, row: u64, estimate: u64) -> Answer {
    Answer {
        place,
        slot,
        row,
        estimate,
        ..Answer::of_number(0)
    }
}
