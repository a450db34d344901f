// Runs of rows: the rows of one flow in one slot stand together in a table, and are copied as they stand.
ghost use Rattle.std.specs.Prelude.{◌≡◌, length};
ghost use Rattle.dispatch.specs.Runs.{due_of, due_at, RunAsked, BlocksCopied, SomeCopied, RunCopied};

use book::bytes::Field;
use book::row::Row;

// So many rows of a run are copied at once, where it has as many.
pub const BLOCK: usize = 16;

// So many rows are mostly all of a run.
pub const FEW: usize = 8;

// The slot of a row, where it is one of this flow.
pub fn due_of(row: &[u8; Row::SIZE], flow: u8) -> Option<u16>
    ensures { result ≡ due_of row.now flow }
{
    if row[2] == flow {
        Some(u16::read(row, 0))
    } else {
        None
    }
}

// The slot of the row at `at`, where there is one and it is one of this flow.
pub fn due_at(rows: &[[u8; Row::SIZE]], at: usize, flow: u8) -> Option<u16>
    ensures { result ≡ due_at rows.now at flow }
{
    due_of(rows.get(at)?, flow)
}

// The most of a run, a block at a time: while the last row of a block belongs to it, all of them do. How many rows
// they are.
// What `RunAsked` says is of the output too, which is lent anew each time: no struct of the rows can keep it.
pub fn copy_blocks(rows: &[[u8; Row::SIZE]], out: &mut [u8], flow: u8, slot: u16) -> usize
    requires { RunAsked rows.now flow slot (length out.old) }
    ensures { BlocksCopied rows.now flow slot out.old out.new result }
{
    let (blocks, _) = rows.as_chunks::<BLOCK>();
    for (k, block) in blocks.iter().enumerate() {
        if due_of(&block[BLOCK - 1], flow) != Some(slot) {
            return BLOCK * k;
        }
        // Read whole before it is written, as a row below.
        let block = *block;
        let at = Row::SIZE * BLOCK * k;
        out[at..at + Row::SIZE * BLOCK].copy_from_slice(block.as_flattened());
    }
    BLOCK * blocks.len()
}

// Rows of a run, at most so many of them, each copied when it is seen to belong to it. How many they are.
pub fn copy_some(
    rows: &[[u8; Row::SIZE]],
    out: &mut [u8],
    flow: u8,
    slot: u16,
    most: usize,
) -> usize
    requires { RunAsked rows.now flow slot (length out.old) }
    ensures { SomeCopied most rows.now flow slot out.old out.new result }
{
    let most = most.min(rows.len());
    for (k, row) in rows[..most].iter().enumerate() {
        if due_of(row, flow) != Some(slot) {
            return k;
        }
        // Read whole before it is written: two loads and two stores, and no test of whether the two lie over each
        // other.
        let bytes = *row;
        let at = Row::SIZE * k;
        out[at..at + Row::SIZE].copy_from_slice(&bytes);
    }
    most
}

// A run that may be long: its blocks, then the rows that are left, which are fewer than a block. How many rows it has.
pub fn copy_long(rows: &[[u8; Row::SIZE]], out: &mut [u8], flow: u8, slot: u16) -> usize
    requires { RunAsked rows.now flow slot (length out.old) }
    ensures { RunCopied rows.now flow slot out.old out.new result }
{
    let count = copy_blocks(rows, out, flow, slot);
    let rest = &mut out[Row::SIZE * count..];
    count + copy_some(&rows[count..], rest, flow, slot, BLOCK)
}

// A whole run. How many rows it has. A flow of fewer jobs than a block has rows has no block, so none is looked for
// at once.
pub fn copy_run(rows: &[[u8; Row::SIZE]], out: &mut [u8], flow: u8, slot: u16, jobs: u8) -> usize
    requires { RunAsked rows.now flow slot (length out.old) }
    ensures { RunCopied rows.now flow slot out.old out.new result }
{
    if BLOCK <= usize::from(jobs) {
        return copy_long(rows, out, flow, slot);
    }
    let count = copy_some(rows, out, flow, slot, FEW);
    if count < FEW {
        return count;
    }
    let rest = &mut out[Row::SIZE * count..];
    count + copy_long(&rows[count..], rest, flow, slot)
}
