// Each call of the engine, made on a memory. No other file calls the engine.
ghost use Rattle.std.specs.Prelude.{◌<◌, IfOk};
ghost use Rattle.banks.specs.Banks.{most_banks};

use crate::memory::{MARK, Memory, ROOM, Room};
use access::Accepted;
use figures::{Outcome, Sum};
use geometry::{Control, Settings};
use refusals::Refusal;
use sizing::{RefreshTimes, SizeTimes};

// The five calls, in the order of `from`.
#[derive(Clone, Copy, Debug, PartialEq, Eq, PartialOrd, Ord)]
pub enum Kind {
    SetUp,
    Tick,
    Inspect,
    Read,
    Write,
}

impl Kind {
    pub const ALL: [Kind; 5] = [
        Kind::SetUp,
        Kind::Tick,
        Kind::Inspect,
        Kind::Read,
        Kind::Write,
    ];
}

// One of them, with what it is told.
#[derive(Clone, Copy, Debug)]
pub enum Call<'a> {
    SetUp,
    Tick,
    Inspect {
        row: u32,
    },
    Read {
        row: u32,
    },
    Write {
        row: u32,
        column: usize,
        bytes: &'a [u8],
    },
}

// What a call answers, in numbers.
#[derive(Clone, Copy, Debug, PartialEq, Eq)]
pub struct Answer {
    pub number: u64,
    pub place: u64,
    // the slot moved to, and the row sent home, 65535 for none
    pub slot: u64,
    pub row: u64,
    pub estimate: u64,
    // of inspect's part
    pub length: u64,
}

impl From<Outcome> for Answer {
    fn from(outcome: Outcome) -> Answer {
        Answer {
            number: u64::from(outcome.number),
            place: outcome.place,
            slot: u64::from(outcome.slot),
            row: u64::from(outcome.row),
            estimate: u64::from(outcome.estimate),
            length: 0,
        }
    }
}

impl Answer {
    // The answer of a call that gives a number alone, or that is refused.
    pub fn of_number(number: u64) -> Answer {
        Answer {
            number,
            place: 0,
            slot: u64::from(MARK),
            row: u64::from(MARK),
            estimate: 0,
            length: 0,
        }
    }

    // The answer of a call that is refused.
    fn of_refusal(refusal: Refusal) -> Answer {
        Answer::of_number(u64::from(refusal.number()))
    }

    // The answer of a sizing sum.
    fn of_sum(sum: Sum) -> Answer {
        Answer {
            place: sum.value,
            ..Answer::of_number(u64::from(sum.number))
        }
    }

    // The figures, in the order in which they are printed.
    pub fn figures(self) -> [u64; 6] {
        [
            self.number,
            self.place,
            self.slot,
            self.row,
            self.estimate,
            self.length,
        ]
    }
}

// The answer of a set-up or a tick. The memory gets the control record that it leaves.
fn numbered(memory: &mut Memory, done: Result<Control, Refusal>) -> Answer {
    match done {
        Ok(control) => {
            memory.control = control;
            Answer::of_number(0)
        }
        Err(refusal) => Answer::of_refusal(refusal),
    }
}

// The answer of a read or a write. The memory gets what it leaves in the control record.
fn served(memory: &mut Memory, done: Result<Accepted, Refusal>) -> Answer
    requires { IfOk done (λ accepted. accepted.bank.index < most_banks) }
{
    memory.control = access::record_after(memory.control, done);
    Answer::from(Outcome::from(done.map(|accepted| accepted.served)))
}

fn set_up(memory: &mut Memory) -> Answer {
    let done = epoch::set_up(
        memory.control,
        memory.settings,
        memory.store.part(),
        memory.forward.part_mut(),
        memory.reverse.part_mut(),
        memory.rows.part_mut(),
        memory.counts.part_mut(),
    );
    numbered(memory, done)
}

fn tick(memory: &mut Memory) -> Answer {
    let done = epoch::tick(
        memory.control,
        memory.settings,
        memory.store.part(),
        memory.forward.part(),
        memory.reverse.part(),
        memory.rows.part_mut(),
        memory.counts.part_mut(),
    );
    numbered(memory, done)
}

fn read(memory: &mut Memory, row: u32) -> Answer {
    let done = access::read(
        memory.control,
        memory.settings,
        row,
        memory.buffer.part_mut(),
        memory.store.part_mut(),
        memory.forward.part_mut(),
        memory.reverse.part_mut(),
        memory.rows.part_mut(),
        memory.counts.part_mut(),
    );
    served(memory, done)
}

fn write(memory: &mut Memory, row: u32, column: usize, bytes: &[u8]) -> Answer {
    let done = access::write(
        memory.control,
        memory.settings,
        row,
        column,
        bytes,
        memory.store.part_mut(),
        memory.forward.part_mut(),
        memory.reverse.part_mut(),
        memory.rows.part_mut(),
        memory.counts.part_mut(),
    );
    served(memory, done)
}

// An inspect, by both of its calls: what it answers, and the bytes that it shows.
pub fn inspect(memory: &Memory, row: u32) -> (Answer, &[u8]) {
    let control = memory.control;
    let settings = memory.settings;
    let store = memory.store.part();
    let forward = memory.forward.part();
    let reverse = memory.reverse.part();
    let rows = memory.rows.part();
    let counts = memory.counts.part();
    let checked = look::check_inspect(
        control, settings, row, store, forward, reverse, rows, counts,
    );
    let part = look::inspect_part(
        control, settings, row, store, forward, reverse, rows, counts,
    );
    let number = match checked {
        Ok(()) => 0,
        Err(refusal) => refusal.number(),
    };
    let answer = Answer {
        length: part.len() as u64,
        ..Answer::of_number(u64::from(number))
    };
    (answer, part)
}

// One of the five calls, made on a memory: what it answers, and the bytes that an inspect shows.
pub fn make(memory: &mut Memory, call: Call<'_>) -> (Answer, Room<[u8; ROOM]>) {
    let mut shown = Room::new([0; ROOM], 0);
    let answer = match call {
        Call::Inspect { row } => {
            let (answer, part) = inspect(memory, row);
            shown.hold(part);
            answer
        }
        Call::SetUp => set_up(memory),
        Call::Tick => tick(memory),
        Call::Read { row } => read(memory, row),
        Call::Write { row, column, bytes } => write(memory, row, column, bytes),
    };
    (answer, shown)
}

// The test of 6 alone, for counts of bytes that no slice can have: of a read where there is no column.
pub fn span(s: Settings, column: Option<usize>, count: usize) -> Answer {
    let asked = match column {
        Some(column) => ladder::write_asked(s, 0, column, count),
        None => ladder::read_asked(s, 0, count),
    };
    if asked.off {
        Answer::of_refusal(Refusal::Span)
    } else {
        Answer::of_number(0)
    }
}

// The sizing sums.
pub fn least_size(times: SizeTimes) -> Answer {
    Answer::of_sum(Sum::from(sizing::least_size(times)))
}

pub fn most_activations(times: RefreshTimes) -> Answer {
    Answer::of_sum(Sum::from(sizing::most_activations(times)))
}
