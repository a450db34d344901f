// The merge of a table's rows: for each slot that is used, each flow in book order lists its rows of that slot and
// moves its cursor.
ghost use Rattle.std.specs.Prelude.{◌≡◌, ◌*◌, ◌<◌, ◌≤◌, ◌&&◌, length, ltb};
ghost use Rattle.std.proofs.lemmas.List.Edits.{sets};
ghost use Rattle.rules.specs.Fields.{byte};
ghost use Rattle.rules.specs.Book.{flow_count};
ghost use Rattle.rules.specs.Service.{served_before};
ghost use Rattle.rules.specs.Table.{rows_bytes};
ghost use Rattle.rules.specs.Dispatch.{in_list_order};
ghost use Rattle.book.specs.Promise.{DeadlinesOf};
ghost use Rattle.dispatch.specs.Merge.{book_beside, rows_of, InUse, CursorStands, Cursors, halved, FirstRow, FlowAsked, FlowListed, SlotAsked, SlotListed};

use super::accepted::AcceptedTable;
use super::run;
use book::bytes::Field;
use book::row::Row;

// What stands for the slot of a flow's next row where it has none left.
pub const NO_SLOT: u16 = 65535;

// Where a flow stands in the merge: at its first row that is not listed; and the slot of that row. A number, and no
// `Option`, since it is compared with the slot for each flow in each used slot, where two comparisons take longer
// than one; eight bytes in all, for the same loop. The flow's jobs tell how its runs are copied.
#[derive(Clone, Copy, Default)]
pub struct Cursor {
    pub due: u16,
    pub flow: u8,
    pub jobs: u8,
    pub at: u32,
}

impl Cursor {
    // A flow's cursor set to a row of the table.
    pub fn set(&mut self, table: &AcceptedTable, at: usize)
        requires { at ≤ length table.now.rows.now }
        ensures { CursorStands (rows_of table.now) self.old.flow at self.new }
    {
        self.at = at as u32;
        self.due = run::due_at(table.rows, at, self.flow).unwrap_or(NO_SLOT);
    }
}

// Whether a row is of a flow of the book that is served before flow f, by the deadlines of the flows.
// The deadlines are made once and lent, side by side, so that many are compared at a time.
pub fn is_before(table: &AcceptedTable, deadlines: &[u16], row: &[u8; Row::SIZE], f: usize) -> bool
    requires { DeadlinesOf table.now.book.now.bytes.now deadlines.now × (f < flow_count (book_beside table.now)) }
    ensures { result ≡ (ltb (byte row.now 2) (flow_count (book_beside table.now)) && served_before (book_beside table.now) (byte row.now 2) f) }
{
    let g = usize::from(row[2]);
    g < table.book.flow_count() && (deadlines[g], g) < (deadlines[f], f)
}

// The rows among which a flow's first one is looked for.
#[derive(Clone, Copy)]
pub struct Span {
    pub low: usize,
    pub high: usize,
}

// What is left of them, by whether the one in the middle comes earlier.
pub fn halve(low: usize, high: usize, middle: usize, earlier: bool) -> Span
    requires { middle < high }
    ensures { result ≡ halved low high middle earlier }
{
    if earlier {
        return Span {
            low: middle + 1,
            high,
        };
    }
    Span { low, high: middle }
}

// The first row that is not of a flow served before flow f: that flow's own first row, where it has one.
pub fn first_row(table: &AcceptedTable, deadlines: &[u16], f: usize) -> usize
    requires { DeadlinesOf table.now.book.now.bytes.now deadlines.now × (f < flow_count (book_beside table.now)) }
    ensures { FirstRow (book_beside table.now) (rows_of table.now) f result }
{
    let mut low: usize = 0;
    let mut high = table.rows.len();
    while low < high {
        let middle = (low + high) / 2;
        let earlier = is_before(table, deadlines, &table.rows[middle], f);
        let left = halve(low, high, middle, earlier);
        low = left.low;
        high = left.high;
    }
    low
}

// Each flow's cursor at its first row.
pub fn start_cursors(table: &AcceptedTable, cursors: &mut [Cursor])
    requires { length cursors.old ≡ flow_count (book_beside table.now) }
    ensures { Cursors (book_beside table.now) (rows_of table.now) 0 0 cursors.new }
{
    let deadlines = table.book.deadlines();
    for (f, cursor) in cursors.iter_mut().enumerate() {
        cursor.flow = f as u8;
        cursor.jobs = table.book.head(f).jobs;
        cursor.set(table, first_row(table, &deadlines, f));
    }
}

// A flow's rows in a slot, where its cursor stands at one, behind so many rows of the list; how many rows the list
// has then.
// Output and count stay apart: each caller goes on at the count handed back, and a struct of both would have to be lent
// and stored whole at each run.
pub fn list_flow(
    table: &AcceptedTable,
    out: &mut [u8],
    count: usize,
    cursor: &mut Cursor,
    slot: u16,
) -> usize
    requires { FlowAsked table.now slot count cursor.old (length out.old) }
    ensures { FlowListed table.now slot count out.old cursor.old out.new cursor.new result }
{
    if cursor.due != slot {
        return count;
    }
    let at = cursor.at as usize;
    let rows = &table.rows[at..];
    let listed = run::copy_run(
        rows,
        &mut out[Row::SIZE * count..],
        cursor.flow,
        slot,
        cursor.jobs,
    );
    cursor.set(table, at + listed);
    count + listed
}

// The rows of a slot, flow by flow, behind so many rows of the list; how many rows the list has then.
pub fn list_slot(
    table: &AcceptedTable,
    out: &mut [u8],
    count: usize,
    cursors: &mut [Cursor],
    slot: u16,
) -> usize
    requires { SlotAsked table.now slot count cursors.old (length out.old) }
    ensures { SlotListed table.now slot count out.old out.new cursors.new result }
{
    let mut next = count;
    for cursor in cursors.iter_mut() {
        next = list_flow(table, out, next, cursor, slot);
    }
    next
}

// The rows of a slot; a slot that is not in use by the work area has none.
pub fn list_used(
    table: &AcceptedTable,
    work: &[u8],
    out: &mut [u8],
    count: usize,
    cursors: &mut [Cursor],
    slot: u16,
) -> usize
    requires { SlotAsked table.now slot count cursors.old (length out.old) × InUse table.now.book.now.bytes.now table.now.table.now work.now }
    ensures { SlotListed table.now slot count out.old out.new cursors.new result }
{
    if u16::read(work, 2 * usize::from(slot)) == 0 {
        return count;
    }
    list_slot(table, out, count, cursors, slot)
}

// All rows, slot by slot, until each is listed.
pub fn merge(table: &AcceptedTable, work: &[u8], out: &mut [u8], cursors: &mut [Cursor])
    requires { Cursors (book_beside table.now) (rows_of table.now) 0 0 cursors.old × InUse table.now.book.now.bytes.now table.now.table.now work.now × (6 * length (rows_of table.now) ≤ length out.old) }
    ensures { out.new ≡ sets out.old 0 (rows_bytes (in_list_order (rows_of table.now))) }
{
    let mut count = 0;
    let mut slot: u16 = 0;
    // No `for` over the slots: while a row is left a slot is left, so that none needs a test.
    while count < table.rows.len() {
        count = list_used(table, work, out, count, cursors, slot);
        slot += 1;
    }
}
