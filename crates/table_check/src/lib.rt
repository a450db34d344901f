// The check of a table against a book and its calendar.
#![tactic(auto)]

ghost use Rattle.std.specs.Prelude.{◌≡◌, ◌+◌, ◌*◌, ◌≤◌, length};
ghost use Rattle.rules.specs.Limits.{work_bytes};
ghost use Rattle.rules.specs.Answers.{◌and_then◌, first_fault};
ghost use Rattle.rules.specs.Calendar.{is_open};
ghost use Rattle.rules.specs.Faults.{verdict_by};
ghost use Rattle.rules.specs.Reading.{book_of};
ghost use Rattle.rules.specs.Check.{check_call};
ghost use Rattle.calendar.specs.Area.{open_by};
ghost use Rattle.calendar.specs.Held.{held_windows};
ghost use Rattle.table_check.specs.Tests.{head_fault};
ghost use Rattle.table_check.specs.Walk.{mismatches_of, finishes_of, mismatches_fault, finish_fault_by, TableJudged, answer_by};

use book::bytes::{Field, WORK_BYTES};
use book::row::Row;
use book::{Book, bytes};
use calendar::Calendar;
use rules::{CheckAnswer, Fault, Refusal};
use walk::{FlowEnd, TABLE_HEAD};

pub mod current;
pub mod row;
pub mod walk;

// A flag for each slot that a calendar can shut.
const FLAGS: usize = 4096;

// 14: the head of a table is the book's, its length is what it says, and whole rows stand behind it.
#[tactic(auto, unfolding(crate::specs::Tests::head_fault))]
pub fn head_verdict(table: &[u8], processors: u16, flows: usize) -> Result<(), Refusal>
    requires { flows ≤ 64 }
    ensures { verdict_by result ≡ head_fault processors flows table.now }
{
    let head = TABLE_HEAD + 2 * flows;
    if table.len() < head {
        return Err(Fault::TableHead.nowhere());
    }
    let stated = u32::read(table, 0) as usize;
    let count = usize::from(table[7]);
    let rest = (table.len() - head) % Row::SIZE;
    if stated != table.len()
        || table[4] != 1
        || u16::read(table, 5) != processors
        || count != flows
        || rest != 0
    {
        return Err(Fault::TableHead.nowhere());
    }
    Ok(())
}

// 20, by book order: of each flow the first job whose total differs from its size.
// The ends of the book's flows, cut from the array: how many count is the slice's length.
pub fn totals_verdict(ends: &[FlowEnd]) -> Result<(), Refusal>
    requires { length ends.now ≤ 64 }
    ensures { verdict_by result ≡ mismatches_fault (mismatches_of ends.now) (length ends.now) }
{
    for (f, end) in ends.iter().enumerate() {
        if let Some(job) = end.mismatch {
            return Err(Fault::Total.at(f as u8, job));
        }
    }
    Ok(())
}

// 21, by book order: the first flow whose finish in the table's head is not the one that its rows give.
// The ends of the book's flows, cut from the array: how many count is the slice's length.
pub fn finishes_verdict(table: &[u8], ends: &[FlowEnd]) -> Result<(), Refusal>
    requires { (length ends.now ≤ 64) × (8 + 2 * length ends.now ≤ length table.now) }
    ensures { verdict_by result ≡ first_fault (finish_fault_by table.now (finishes_of ends.now)) (length ends.now) }
{
    for (f, end) in ends.iter().enumerate() {
        if u16::read(table, TABLE_HEAD + 2 * f) != end.finish {
            return Err(Fault::Finish.at_flow(f as u8));
        }
    }
    Ok(())
}

// 20, the totals, then 21, the finishes, of what the walk handed back.
// The ends of the book's flows, cut from the array: how many count is the slice's length.
pub fn ends_verdict(table: &[u8], ends: &[FlowEnd]) -> Result<(), Refusal>
    requires { (length ends.now ≤ 64) × (8 + 2 * length ends.now ≤ length table.now) }
    ensures { verdict_by result ≡ (mismatches_fault (mismatches_of ends.now) (length ends.now) and_then first_fault (finish_fault_by table.now (finishes_of ends.now)) (length ends.now)) }
{
    totals_verdict(ends)?;
    finishes_verdict(table, ends)
}

// All tests of a table with these slots shut, in order: 14 the head, 15 to 19 and 25 the rows, 20 the totals, 21 the
// finishes; the late flows where they pass.
// The work area stays a slice with a clause on its length; book's WORK_BYTES says why.
pub fn judge_table(book: &Book, shut: &[u8], table: &[u8], work: &mut [u8]) -> Result<u8, Refusal>
    requires { work_bytes ≤ length work.old }
    ensures { TableJudged (book_of book.now.bytes.now) (open_by shut.now) table.now work.old work.new result }
{
    let flows = book.flow_count();
    head_verdict(table, book.processors, flows)?;
    let ends = walk::walk_flows(book, shut, table, work)?;
    ends_verdict(table, &ends[..flows])?;
    Ok(book.late_flows(&walk::finishes(&ends)))
}

// All tests of a table, 14 to 21 and 25, with the slots shut that the calendar shuts; the late flows where they pass.
pub fn judge_with(
    book: &Book,
    calendar: &Calendar,
    table: &[u8],
    work: &mut [u8],
) -> Result<u8, Refusal>
    requires { work_bytes ≤ length work.old }
    ensures { TableJudged (book_of book.now.bytes.now) (is_open (held_windows calendar.now)) table.now work.old work.new result }
{
    let mut shut = [0u8; FLAGS];
    calendar.set_flags(&mut shut);
    judge_table(book, &shut, table, work)
}

// The check of a table against a book and its calendar: the late flows of a table that passes.
pub fn check(book: &[u8], calendar: &[u8], table: &[u8], work: &mut [u8]) -> Result<u8, Refusal>
    ensures answer { answer_by result ≡ (check_call book.now calendar.now table.now work.old).answer }
    ensures area { work.new ≡ (check_call book.now calendar.now table.now work.old).area }
{
    let book = Book::read(book)?;
    let calendar = Calendar::read(calendar)?;
    if work.len() < WORK_BYTES {
        return Err(Fault::WorkArea.nowhere());
    }
    let judged = judge_with(&book, &calendar, table, work);
    if judged.is_err() {
        bytes::clear(work);
    }
    judged
}

// The check of a table against a book and its calendar, as an answer to the caller: accepted with the table's late
// flows, or refused with what was found.
pub fn check_table(book: &[u8], calendar: &[u8], table: &[u8], work: &mut [u8]) -> CheckAnswer
    ensures answer { result ≡ (check_call book.now calendar.now table.now work.old).answer }
    ensures area { work.new ≡ (check_call book.now calendar.now table.now work.old).area }
{
    match check(book, calendar, table, work) {
        Ok(late) => CheckAnswer::accepted(late),
        Err(refusal) => CheckAnswer::from(refusal),
    }
}
