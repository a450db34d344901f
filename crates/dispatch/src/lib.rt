// The dispatch list of a table: its rows in the order in which the dispatcher works, slot by slot.
#![tactic(auto)]

ghost use Rattle.std.specs.Prelude.{◌≡◌, ◌≤◌, ◌++◌, length, drop};
ghost use Rattle.std.proofs.lemmas.List.Edits.{sets};
ghost use Rattle.rules.specs.Reading.{book_of};
ghost use Rattle.rules.specs.Dispatch.{list_bytes, list_outcome, dispatch_call};
ghost use Rattle.dispatch.specs.Accepted.{Accepted, accepted_rows};
ghost use Rattle.dispatch.specs.Merge.{InUse};
ghost use Rattle.dispatch.specs.Call.{list_head_bytes, ListAsked, answer_by, Leaves};

use accepted::AcceptedTable;
use book::Book;
use book::bytes::{self, Field};
use merge::Cursor;
use rules::{Fault, ListAnswer, Refusal};

pub mod accepted;
pub mod merge;
pub mod run;

// The most flows of a book.
pub const FLOWS: usize = Book::MOST_FLOWS as usize;

// The bytes of a list before its rows.
pub const HEAD_BYTES: usize = 7;

// The version of a list.
pub const VERSION: u8 = 1;

// The head of a list: its whole length, version and processors. The head of a table begins with such three fields too,
// but its writer is no part of what this crate uses: a place for three stores that both could use would be longer.
pub fn put_head(out: &mut [u8], size: u32, processors: u16)
    requires { 7 ≤ length out.old }
    ensures { out.new ≡ sets out.old 0 (list_head_bytes size processors) }
{
    size.write(out, 0);
    out[4] = VERSION;
    processors.write(out, 5);
}

// The list of an accepted table, whose work area is as the check leaves it.
pub fn write_list(book: &[u8], table: &[u8], work: &[u8], out: &mut [u8], size: usize)
    requires { ListAsked book.now table.now work.now size (length out.old) }
    ensures { out.new ≡ list_bytes (book_of book.now) (accepted_rows book.now table.now) ++ drop size out.old }
{
    let book = accepted::passing_book(book);
    let accepted = AcceptedTable::new(&book, table);
    let mut all = [Cursor::default(); FLOWS];
    let cursors = &mut all[..book.flow_count()];
    merge::start_cursors(&accepted, cursors);
    put_head(out, size as u32, book.processors);
    merge::merge(&accepted, work, &mut out[HEAD_BYTES..], cursors);
}

// 13 where the list of an accepted table is longer than the output; otherwise the list, and its length.
// The work area stays a slice with a clause on its length, which `InUse` has too; book's WORK_BYTES says why.
pub fn list_accepted(
    book: &[u8],
    table: &[u8],
    output: &mut [u8],
    work: &mut [u8],
) -> Result<u32, Refusal>
    requires { Accepted book.now table.now × InUse book.now table.now work.old }
    ensures { Leaves (list_outcome (book_of book.now) (accepted_rows book.now table.now) output.old work.old work.old) (answer_by result) output.new work.new }
{
    // A table has 8 bytes, 2 for each flow and 6 for each row, its list 7 and the same 6.
    let flows = usize::from(book[7]);
    let size = table.len() - 2 * flows - 1;
    if output.len() < size {
        bytes::clear(work);
        return Err(Fault::Output.nowhere());
    }
    write_list(book, table, work, output, size);
    Ok(size as u32)
}

// The check first, and then the list of the table that it accepts; its length.
pub fn checked_list(
    book: &[u8],
    calendar: &[u8],
    table: &[u8],
    output: &mut [u8],
    work: &mut [u8],
) -> Result<u32, Refusal>
    ensures { Leaves (dispatch_call book.now calendar.now table.now output.old work.old) (answer_by result) output.new work.new }
{
    table_check::check(book, calendar, table, work)?;
    list_accepted(book, table, output, work)
}

// The whole outcome of a call, for every book, calendar, table, output and work area: the check's refusals first.
pub fn dispatch_table(
    book: &[u8],
    calendar: &[u8],
    table: &[u8],
    output: &mut [u8],
    work: &mut [u8],
) -> ListAnswer
    ensures { Leaves (dispatch_call book.now calendar.now table.now output.old work.old) result output.new work.new }
{
    match checked_list(book, calendar, table, output, work) {
        Ok(length) => ListAnswer::accepted(length),
        Err(refusal) => ListAnswer::from(refusal),
    }
}
