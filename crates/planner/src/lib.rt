// The planner's core: flows placed in service order with their rows, the table, a call.
#![tactic(auto)]

ghost use Rattle.std.specs.Prelude.{◌≡◌, ◌≤◌, length, []};
ghost use Rattle.rules.specs.Limits.{slots, work_bytes};
ghost use Rattle.rules.specs.Book.{flow_count};
ghost use Rattle.rules.specs.Rows.{work_used};
ghost use Rattle.rules.specs.Planner.{plan_call};
ghost use Rattle.place.specs.Order.{shut_rows};
ghost use Rattle.place.specs.Turns.{whole_book};
ghost use Rattle.planner.specs.Call.{Leaves, plan_of, answer_by, Counted, Sized};
ghost use Rattle.planner.specs.Whole.{planned_book, FlowsPlaced, FirstPlaced};

use book::Book;
use book::bytes::{self, WORK_BYTES};
use calendar::Calendar;
use place::Turns;
use rules::{Fault, PlanAnswer, Refusal};

pub mod table;

// Flows that are placed: the offset after the last row, and the finish of each flow; 0, as the rules have it of a flow
// without rows, where it is not among them. An array, since flows are stored in service order.
#[derive(Clone, Copy)]
pub struct Whole {
    pub end: usize,
    pub finishes: [u16; 64],
}

// The first `count` flows in service order, each from its release on beside those before it and the maintenance, which
// the work area holds. Output and work area stay two slices, as the C interface lends them; book's `WORK_BYTES` says why
// each asks for its length. No `ok_or` in the loop: the proof did not close.
pub fn place_flows(
    turns: &Turns,
    out: &mut [u8],
    work: &mut [u8],
    count: usize,
) -> Result<Whole, Refusal>
    requires { (count ≤ flow_count (planned_book turns.now)) × (work_bytes ≤ length work.old) × (work.old ≡ work_used slots (shut_rows (planned_book turns.now)) work.old) }
    ensures { FlowsPlaced (planned_book turns.now) count out.old work.old out.new work.new result }
{
    let mut finishes = [0u16; 64];
    let mut end = table::rows_at(turns.book.flow_count());
    for k in 0..count {
        let flow = turns.flow(k);
        let Some(placed) = turns.place::<true>(k, out, work, end) else {
            return Err(Fault::Infeasible.at_flow(flow));
        };
        finishes[usize::from(flow)] = placed.finish as u16;
        end = placed.next;
    }
    Ok(Whole { end, finishes })
}

// The first `count` flows in service order in open slots: all processors of the shut ones are in use until they are
// placed.
pub fn place_first(
    turns: &Turns,
    out: &mut [u8],
    work: &mut [u8],
    count: usize,
) -> Result<Whole, Refusal>
    requires { (count ≤ flow_count (planned_book turns.now)) × (work_bytes ≤ length work.old) × (work.old ≡ work_used slots [] work.old) }
    ensures { FirstPlaced (planned_book turns.now) count out.old work.old out.new work.new result }
{
    turns.shut(work);
    let whole = place_flows(turns, out, work, count);
    turns.open(work);
    whole
}

// 13 where the table is longer than the output; otherwise the rows once more, now into the output, then finishes and
// head.
pub fn write_table(
    turns: &Turns,
    output: &mut [u8],
    work: &mut [u8],
    size: usize,
) -> Result<PlanAnswer, Refusal>
    requires { (work_bytes ≤ length work.old) × (work.old ≡ work_used slots [] work.old) × Sized (planned_book turns.now) size }
    ensures { Leaves (plan_of (planned_book turns.now) output.old work.old) (answer_by result) output.new work.new }
{
    if output.len() < size {
        return Err(Fault::Output.nowhere());
    }
    let book = turns.book;
    let flows = book.flow_count();
    let whole = place_first(turns, output, work, flows)?;
    table::put_finishes(output, &whole.finishes[..flows]);
    table::put_head(output, size as u32, book.processors, flows as u8);
    let late = book.late_flows(&whole.finishes);
    Ok(PlanAnswer::accepted(late, size as u32))
}

// How many bytes the table of all flows is long: they are placed once, with no output, and the work area is zero before
// and after.
pub fn count_rows(turns: &Turns, output: &mut [u8], work: &mut [u8]) -> Result<usize, Refusal>
    requires { work_bytes ≤ length work.old }
    ensures { Counted (planned_book turns.now) output.old work.old output.new work.new result }
{
    bytes::clear(work);
    let first = place_first(turns, &mut output[..0], work, turns.book.flow_count());
    bytes::clear(work);
    Ok(first?.end)
}

// The plan of a book by its calendar, with a work area that is long enough: 12 by the first placing, before the output
// is touched.
pub fn plan_passing(
    book: &Book,
    calendar: &Calendar,
    output: &mut [u8],
    work: &mut [u8],
) -> Result<PlanAnswer, Refusal>
    requires { work_bytes ≤ length work.old }
    ensures { Leaves (plan_of (whole_book book.now calendar.now) output.old work.old) (answer_by result) output.new work.new }
{
    let turns = Turns::of(book, calendar);
    let size = count_rows(&turns, output, work)?;
    write_table(&turns, output, work, size)
}

// The planner with its refusals as errors: the first fault met ends the call. Its Ok is the C interface's own struct.
pub fn plan(
    book: &[u8],
    calendar: &[u8],
    output: &mut [u8],
    work: &mut [u8],
) -> Result<PlanAnswer, Refusal>
    ensures { Leaves (plan_call book.now calendar.now output.old work.old) (answer_by result) output.new work.new }
{
    let book = Book::read(book)?;
    let calendar = Calendar::read(calendar)?;
    if work.len() < WORK_BYTES {
        return Err(Fault::WorkArea.nowhere());
    }
    plan_passing(&book, &calendar, output, work)
}

// The planner: the whole outcome of a call, for every book, calendar, output and work area.
pub fn plan_book(book: &[u8], calendar: &[u8], output: &mut [u8], work: &mut [u8]) -> PlanAnswer
    ensures { Leaves (plan_call book.now calendar.now output.old work.old) result output.new work.new }
{
    match plan(book, calendar, output, work) {
        Ok(answer) => answer,
        Err(refusal) => refusal.into(),
    }
}
