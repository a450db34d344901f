// The finish of one flow: flows are placed in service order up to the one named, and no rows are made.
#![tactic(auto)]

ghost use Rattle.std.specs.Prelude.{◌≡◌, ◌≤◌, ◌<◌, [], length, OnErr};
ghost use Rattle.rules.specs.Limits.{work_bytes};
ghost use Rattle.rules.specs.Book.{flow_count};
ghost use Rattle.rules.specs.Reading.{book_of};
ghost use Rattle.rules.specs.Finish.{finish_call};
ghost use Rattle.place.specs.Order.{Stands};
ghost use Rattle.place.specs.Turns.{whole_book};
ghost use Rattle.finish.specs.Flows.{NextAsked, NextPlaced, FlowAsked, FlowGoesOn, stepped, PlacedUpTo};
ghost use Rattle.finish.specs.Call.{outcome_up_to, Leaves, answer_by};

use book::Book;
use book::bytes::{self, WORK_BYTES};
use calendar::Calendar;
use place::Turns;
use rules::{Fault, FinishAnswer, Refusal};

// Where placing stands: how many flows are placed, which is the service position of the next one, and the finish of the
// last; 0, as the rules have it of a flow without rows, where there is none.
#[derive(Clone, Copy)]
pub struct Placement {
    pub position: usize,
    pub finish: u16,
}

// The next flow, placed beside those before it: the state after it, or that it is infeasible. No rows are put, so that
// output and offset are empty. No `ok_or`: the proof did not close.
pub fn place_next(turns: &Turns, work: &mut [u8], placement: Placement) -> Result<Placement, Fault>
    requires { NextAsked (whole_book turns.now.book.now turns.now.calendar.now) work.old placement }
    ensures { NextPlaced (whole_book turns.now.book.now turns.now.calendar.now) placement work.old work.new result }
{
    let Some(placed) = turns.place::<false>(placement.position, &mut [], work, 0) else {
        return Err(Fault::Infeasible);
    };
    Ok(Placement {
        position: placement.position + 1,
        finish: placed.finish as u16,
    })
}

// One step: the state that is lent goes on by a flow, and stays as it was where that flow is infeasible.
// A rule of the project names this form: the small state is lent by `&mut` to one thin step over a covered function.
pub fn step(placement: &mut Placement, turns: &Turns, work: &mut [u8]) -> Result<(), Fault>
    requires { NextAsked (whole_book turns.now.book.now turns.now.calendar.now) work.old placement.old }
    ensures placed { NextPlaced (whole_book turns.now.book.now turns.now.calendar.now) placement.old work.old work.new (stepped result placement.new) }
    ensures stays { OnErr result (placement.new ≡ placement.old) }
{
    *placement = place_next(turns, work, *placement)?;
    Ok(())
}

// Flow f, the next one, placed beside those before it in the slots below `limit`, whatever the calendar that it is the
// limit of: the state after it, or that it is infeasible. The bytes are those of a book that passes.
pub fn place_below(
    book: &[u8],
    work: &mut [u8],
    placement: Placement,
    f: usize,
    limit: usize,
) -> Result<Placement, Fault>
    requires { FlowAsked book.now work.old placement f limit }
    ensures { FlowGoesOn book.now f limit placement work.old work.new result }
{
    let Ok(book) = Book::read(book) else {
        return Err(Fault::Infeasible);
    };
    let Some(placed) = place::place_flow::<false>(&book, f, &mut [], work, 0, limit) else {
        return Err(Fault::Infeasible);
    };
    Ok(Placement {
        position: placement.position + 1,
        finish: placed.finish as u16,
    })
}

// The same as a step: the state that is lent goes on by the flow, and stays as it was where that is infeasible.
pub fn step_below(
    placement: &mut Placement,
    book: &[u8],
    work: &mut [u8],
    f: usize,
    limit: usize,
) -> Result<(), Fault>
    requires { FlowAsked book.now work.old placement.old f limit }
    ensures placed { FlowGoesOn book.now f limit placement.old work.old work.new (stepped result placement.new) }
    ensures stays { OnErr result (placement.new ≡ placement.old) }
{
    *placement = place_below(book, work, *placement, f, limit)?;
    Ok(())
}

// The finish of the last of the first `count` flows in service order, each placed beside those before it and the
// maintenance, which the work area holds; the first that is infeasible turns it down.
pub fn place_up_to(turns: &Turns, work: &mut [u8], count: usize) -> Result<u16, Refusal>
    requires within { count ≤ flow_count (book_of turns.now.book.now.bytes.now) }
    requires area_whole { work_bytes ≤ length work.old }
    requires none_yet { Stands (whole_book turns.now.book.now turns.now.calendar.now) 0 [] work.old work.old }
    ensures { PlacedUpTo (whole_book turns.now.book.now turns.now.calendar.now) count work.old work.new result }
{
    let mut placement = Placement {
        position: 0,
        finish: 0,
    };
    for k in 0..count {
        // No `map_err`: its closure would borrow the flow's turn, and the proof did not close.
        if let Err(fault) = step(&mut placement, turns, work) {
            return Err(fault.at_flow(turns.flow(k)));
        }
    }
    Ok(placement.finish)
}

// The finish of a flow of a book and a calendar, with a work area that is long enough (book's `WORK_BYTES`): all processors of the shut slots
// are in use until the flows are placed.
pub fn finish_passing(
    book: &Book,
    calendar: &Calendar,
    flow: usize,
    work: &mut [u8],
) -> Result<u16, Refusal>
    requires { (flow < flow_count (book_of book.now.bytes.now)) × (work_bytes ≤ length work.old) }
    ensures { Leaves (outcome_up_to (whole_book book.now calendar.now) flow work.old) (answer_by result) work.new }
{
    let turns = Turns::of(book, calendar);
    let count = book.position(flow) + 1;
    bytes::clear(work);
    turns.shut(work);
    let finish = place_up_to(&turns, work, count);
    turns.open(work);
    if finish.is_err() {
        bytes::clear(work);
    }
    finish
}

// The finish of a flow, or why there is none: the book, the flow's number, the calendar and the work area are tested
// before flows are placed.
pub fn find_finish(book: &[u8], calendar: &[u8], flow: u32, work: &mut [u8]) -> Result<u16, Refusal>
    ensures { Leaves (finish_call book.now calendar.now flow work.old) (answer_by result) work.new }
{
    let book = Book::read(book)?;
    let f = flow as usize;
    if book.flow_count() <= f {
        return Err(Fault::NoSuchFlow.nowhere());
    }
    let calendar = Calendar::read(calendar)?;
    if work.len() < WORK_BYTES {
        return Err(Fault::WorkArea.nowhere());
    }
    finish_passing(&book, &calendar, f, work)
}

// The finish of one flow: the whole outcome of a call, for every book, calendar, flow number and work area.
pub fn finish_flow(book: &[u8], calendar: &[u8], flow: u32, work: &mut [u8]) -> FinishAnswer
    ensures { Leaves (finish_call book.now calendar.now flow work.old) result work.new }
{
    match find_finish(book, calendar, flow, work) {
        Ok(finish) => FinishAnswer::accepted(finish),
        Err(refusal) => refusal.into(),
    }
}
