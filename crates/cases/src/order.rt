// 'The first that applies is answered, and only then.' Ten defects, one for each line of document 01's table; each set
// of them, 2 ^ 10 in all, is put to the five calls, so each pair stands together where it can:
// - a row ≥ N has no forward entry and no place, so 5 stands with neither 7 nor with 9; the sets that hold both have
//   the defects of row 1 beside a call for row 4;
// - acts > L and acts = L exclude each other, so here the 4 that stands with 8 is a count above acts;
// - the two 7s have one number, and their order shows only against 8 and 9.
// N 4, Q 2, W 2, K 2, A 2, L 5; row 1 is due, and slot 0 is `head`. The store's byte i is i + 1.
use crate::bench::{Answer, Call};
use crate::memory::{MARK, Memory};
use crate::session::Session;
use geometry::Settings;

// The defects, by the bits of their set: the lowest is the first.
#[derive(Clone, Copy, Debug, PartialEq, Eq)]
enum Defect {
    Range = 1,
    Limit = 2,
    Length = 4,
    Count = 8,
    Row = 16,
    Span = 32,
    Pointer = 64,
    Epoch = 128,
    Slots = 256,
    Target = 512,
}

impl Defect {
    const ALL: [Defect; 10] = [
        Defect::Range,
        Defect::Limit,
        Defect::Length,
        Defect::Count,
        Defect::Row,
        Defect::Span,
        Defect::Pointer,
        Defect::Epoch,
        Defect::Slots,
        Defect::Target,
    ];

    // The number with which a call stops at it.
    fn number(self) -> u64 {
        match self {
            Defect::Range => 1,
            Defect::Limit => 2,
            Defect::Length => 3,
            Defect::Count => 4,
            Defect::Row => 5,
            Defect::Span => 6,
            Defect::Pointer | Defect::Target => 7,
            Defect::Epoch => 8,
            Defect::Slots => 9,
        }
    }
}

// A set of defects.
#[derive(Clone, Copy, Debug)]
struct Defects(u16);

impl Defects {
    fn has(self, defect: Defect) -> bool {
        self.0 & defect as u16 != 0
    }

    // What a call answers that judges these: the number of the first that there is, or that it is accepted.
    fn refusal(self, judged: &[Defect]) -> Option<Answer> {
        let first = judged.iter().find(|defect| self.has(**defect))?;
        Some(Answer::of_number(first.number()))
    }

    // 1: Q = 1. 2: L = 6 = A × (K + 1).
    fn settings(self) -> Settings {
        Settings {
            n: 4,
            q: if self.has(Defect::Range) { 1 } else { 2 },
            w: 2,
            k: 2,
            a: 2,
            l: if self.has(Defect::Limit) { 6 } else { 5 },
            b: 1,
        }
    }

    // 5: the row is N.
    fn row(self) -> u32 {
        if self.has(Defect::Row) { 4 } else { 1 }
    }

    // The memory that has them.
    fn memory(self) -> Memory {
        let settings = self.settings();
        let mut memory = Memory::new(settings);
        // 3: the store is one byte short.
        if self.has(Defect::Length) {
            memory.store.lent = if self.has(Defect::Range) { 9 } else { 11 };
        }
        // 8: acts = L, else 1. 9: passed = Q, else 0.
        memory.control.acts[0] = if self.has(Defect::Epoch) {
            settings.l
        } else {
            1
        };
        memory.control.passed = if self.has(Defect::Slots) {
            settings.q
        } else {
            0
        };
        // 7: row 1's forward entry is slot 1, whose reverse entry is 65535; its place is physical row 5 then.
        if self.has(Defect::Pointer) {
            memory.forward.set(1, 1);
            track(&mut memory, 0, 5, 1);
        } else {
            track(&mut memory, 0, 1, 1);
        }
        // 7 again: slot 0's reverse entry is N.
        if self.has(Defect::Target) {
            memory.reverse.set(0, 4);
        }
        // 4: the second count is above acts.
        if self.has(Defect::Count) {
            track(&mut memory, 1, 2, 100);
        }
        memory
    }
}

// A tracker entry names a place, with a count.
fn track(memory: &mut Memory, i: usize, place: u16, count: u32) {
    memory.rows.set(i, place);
    memory.counts.set(i, count);
}

// A new tracker, and `passed`, `spill` and `acts` 0.
fn ticked(memory: &mut Memory) {
    track(memory, 0, MARK, 0);
    track(memory, 1, MARK, 0);
    memory.control.passed = 0;
    memory.control.acts[0] = 0;
}

// Row 1 is accessed and moves to slot 0, its first byte being this: slot 0 is bytes 8 and 9 of the store.
fn moved(memory: &mut Memory, byte: u8) {
    memory.store.set(2, byte);
    memory.store.set(8, byte);
    memory.store.set(9, 4);
    track(memory, 0, 1, 2);
    memory.forward.set(1, 0);
    memory.reverse.set(0, 1);
    memory.control.head = 1;
    memory.control.passed = 1;
    memory.control.acts[0] = 2;
}

// The answer of an access that is accepted: row 1 is at its home, with estimate A = 2, and moves to slot 0.
const MOVED: Answer = Answer {
    number: 0,
    place: 1,
    slot: 0,
    row: 65535,
    estimate: 2,
    length: 0,
};

const SET_UP: [Defect; 3] = [Defect::Range, Defect::Limit, Defect::Length];

const TICK: [Defect; 4] = [Defect::Range, Defect::Limit, Defect::Length, Defect::Count];

const INSPECT: [Defect; 6] = [
    Defect::Range,
    Defect::Limit,
    Defect::Length,
    Defect::Count,
    Defect::Row,
    Defect::Pointer,
];

// Case: a set-up, which judges 1 to 3. Accepted, it leaves everything but the store new.
fn set_up(session: &mut Session<'_>, defects: Defects, memory: &Memory) {
    let expected = defects.refusal(&SET_UP).unwrap_or(Answer::of_number(0));
    let left = Memory::new(memory.settings);
    session.judge_call(memory, Call::SetUp, expected, &left);
}

// Case: a tick, 'not set-up, sizing' being the calls of 4.
fn tick(session: &mut Session<'_>, defects: Defects, memory: &Memory) {
    let expected = defects.refusal(&TICK).unwrap_or(Answer::of_number(0));
    let mut left = *memory;
    ticked(&mut left);
    session.judge_call(memory, Call::Tick, expected, &left);
}

// Case: an inspect, which judges 1 to 5 and the row's 7. Its part has W bytes.
fn inspect(session: &mut Session<'_>, defects: Defects, memory: &Memory) {
    let expected = defects.refusal(&INSPECT).unwrap_or(Answer {
        length: 2,
        ..Answer::of_number(0)
    });
    let call = Call::Inspect { row: defects.row() };
    session.judge_call(memory, call, expected, memory);
}

// Case: a read. 6: a buffer of 3 bytes.
fn read(session: &mut Session<'_>, defects: Defects, memory: &Memory) {
    let expected = defects.refusal(&Defect::ALL).unwrap_or(MOVED);
    let mut memory = *memory;
    memory.buffer.lent = if defects.has(Defect::Span) { 3 } else { 2 };
    let mut left = memory;
    moved(&mut left, 3);
    left.buffer.set(0, 3);
    left.buffer.set(1, 4);
    let call = Call::Read { row: defects.row() };
    session.judge_call(&memory, call, expected, &left);
}

// Case: a write of one byte, 99. 6: at column 2.
fn write(session: &mut Session<'_>, defects: Defects, memory: &Memory) {
    let expected = defects.refusal(&Defect::ALL).unwrap_or(MOVED);
    let mut left = *memory;
    moved(&mut left, 99);
    let call = Call::Write {
        row: defects.row(),
        column: if defects.has(Defect::Span) { 2 } else { 0 },
        bytes: &[99],
    };
    session.judge_call(memory, call, expected, &left);
}

// Each set of the ten defects, as the bits of a number: 1024 sets × 5 calls = 5120 cases.
pub fn run(session: &mut Session<'_>) {
    for defects in (0..1024).map(Defects) {
        let memory = defects.memory();
        set_up(session, defects, &memory);
        tick(session, defects, &memory);
        inspect(session, defects, &memory);
        read(session, defects, &memory);
        write(session, defects, &memory);
    }
}
