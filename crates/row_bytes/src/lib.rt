// The bytes of rows within the store: reading a row, writing into one, copying one to another.
// Rows are of w bytes; physical row p starts at byte p × w.
// Kept: `store`, `w` and `place` stay parameters, and that the row lies in the store a `requires`, since the store is lent for
// reading here and for writing there, and a struct for each would be longer than what it saves.
#![tactic(auto)]

ghost use Rattle.std.specs.Prelude.{◌≡◌, ◌≢◌, ◌+◌, ◌*◌, ◌^◌, ◌≤◌, ◌<◌, length};
ghost use Rattle.std.proofs.Math.Seq.{paste};
ghost use Rattle.row_layout.specs.Bytes.{row_bytes, written, copied};

use geometry::PhysicalRow;
use std::ops::Range;

// The size of a block: a count that the compiler knows, so that it makes moves of 16 bytes in a straight line of the loop.
const BLOCK: usize = 256;

// The places of a row's bytes within the store.
fn row_range(w: usize, place: PhysicalRow) -> Range<usize>
    requires { place.0 * w + w < 2 ^ 64 }
    ensures { result ≡ record { start = place.0 * w; end = place.0 * w + w } }
{
    let start = (place.0 as usize) * w;
    start..start + w
}

// The part of the store that is a row. It lies where the row begins; an address is a block of memory and an offset in it.
#[tactic(auto, unfolding(row_layout::specs::Bytes::row_bytes))]
pub fn row_part<'a>(store: &'a [u8], w: usize, place: PhysicalRow) -> &'a [u8]
    requires { place.0 * w + w ≤ length store.now }
    ensures bytes { result.now ≡ row_bytes w store.now place.0 }
    ensures lies { result.ref_ptr ≡ (store.entry.ref_ptr.0, place.0 * w + store.entry.ref_ptr.1) }
{
    &store[row_range(w, place)]
}

// Fills the buffer with the bytes of a row.
#[tactic(auto, unfolding(row_layout::specs::Bytes::row_bytes))]
pub fn read_row(store: &[u8], w: usize, place: PhysicalRow, buffer: &mut [u8])
    requires { (length buffer.old ≡ w) × (place.0 * w + w ≤ length store.now) }
    ensures { buffer.new ≡ row_bytes w store.now place.0 }
{
    put(buffer, 0, row_part(store, w, place));
}

// Writes bytes into the part that is a row from a column on, one by one.
#[tactic(auto, using(std::proofs::lemmas::List::Edits::paste_more))]
fn put_each(row: &mut [u8], column: usize, bytes: &[u8])
    requires { column + length bytes.now ≤ length row.old }
    ensures { row.new ≡ paste row.old column bytes.now (length bytes.now) }
{
    for (i, byte) in bytes.iter().enumerate() {
        row[column + i] = *byte;
    }
}

// Writes bytes into the part that is a row from a column on, block by block. The library's `copy_from_slice` would call the C
// library's `memmove`, which nothing else here needs (`docs/DECISIONS-CODE.md`, 'Form of the copies').
#[tactic(auto, using(crate::proofs::Blocks::block_more, crate::proofs::Blocks::rest_last))]
fn put(row: &mut [u8], column: usize, bytes: &[u8])
    requires { column + length bytes.now ≤ length row.old }
    ensures { row.new ≡ paste row.old column bytes.now (length bytes.now) }
{
    let (blocks, rest) = bytes.as_chunks::<BLOCK>();
    for (k, block) in blocks.iter().enumerate() {
        put_each(row, column + k * BLOCK, block);
    }
    put_each(row, column + blocks.len() * BLOCK, rest);
}

// Writes bytes into a row from a column on: only the row's part of the store is lent on.
#[tactic(auto, using(basics::proofs::Pastes::paste_part), unfolding(row_layout::specs::Bytes::written))]
pub fn write_row(store: &mut [u8], w: usize, place: PhysicalRow, column: usize, bytes: &[u8])
    requires { (column + length bytes.now ≤ w) × (place.0 * w + w ≤ length store.old) }
    ensures { store.new ≡ written w store.old place.0 column bytes.now }
{
    put(&mut store[row_range(w, place)], column, bytes);
}

// Copies row `source` to row `target` within the store.
#[tactic(auto, unfolding(row_layout::specs::Bytes::copied))]
pub fn copy_row(store: &mut [u8], w: usize, source: PhysicalRow, target: PhysicalRow)
    requires { (source.0 ≢ target.0)
        × (source.0 * w + w ≤ length store.old) × (target.0 * w + w ≤ length store.old) }
    ensures { store.new ≡ copied w store.old source.0 target.0 }
{
    store.copy_within(row_range(w, source), row_range(w, target).start);
}
