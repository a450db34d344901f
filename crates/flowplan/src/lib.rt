// The calls that a dispatcher in C makes. Thin: each that takes slices hands them to the proved core and has the core's
// contract. None has a `requires`: every sequence of bytes is taken.
#![tactic(auto)]

ghost use Rattle.std.specs.Prelude.{◌≡◌};
ghost use Rattle.rules.specs.Check.{check_call};
ghost use Rattle.rules.specs.Dispatch.{dispatch_call};
ghost use Rattle.rules.specs.Finish.{finish_call};
ghost use Rattle.rules.specs.Planner.{plan_call};
ghost use Rattle.rules.specs.Version.{header_version};

use rules::{CheckAnswer, FinishAnswer, ListAnswer, PlanAnswer};

// The version of the C header that the library was built with.
#[unsafe(no_mangle)]
pub extern "C" fn flowplan_version() -> u32
    ensures version { result ≡ header_version }
{
    8
}

// The check of a table against a book and its calendar.
#[unsafe(no_mangle)]
pub extern "C" fn flowplan_check(
    book: &[u8],
    calendar: &[u8],
    table: &[u8],
    work: &mut [u8],
) -> CheckAnswer
    ensures answer { result ≡ (check_call book.now calendar.now table.now work.old).answer }
    ensures area { work.new ≡ (check_call book.now calendar.now table.now work.old).area }
{
    table_check::check_table(book, calendar, table, work)
}

// The plan of a book by its calendar.
#[unsafe(no_mangle)]
pub extern "C" fn flowplan_plan(
    book: &[u8],
    calendar: &[u8],
    output: &mut [u8],
    work: &mut [u8],
) -> PlanAnswer
    ensures answer { result ≡ (plan_call book.now calendar.now output.old work.old).answer }
    ensures output { output.new ≡ (plan_call book.now calendar.now output.old work.old).output }
    ensures area { work.new ≡ (plan_call book.now calendar.now output.old work.old).area }
{
    planner::plan_book(book, calendar, output, work)
}

// The dispatch list of a table that the check accepts.
#[unsafe(no_mangle)]
pub extern "C" fn flowplan_dispatch(
    book: &[u8],
    calendar: &[u8],
    table: &[u8],
    output: &mut [u8],
    work: &mut [u8],
) -> ListAnswer
    ensures answer { result ≡ (dispatch_call book.now calendar.now table.now output.old work.old).answer }
    ensures output { output.new ≡ (dispatch_call book.now calendar.now table.now output.old work.old).output }
    ensures area { work.new ≡ (dispatch_call book.now calendar.now table.now output.old work.old).area }
{
    dispatch::dispatch_table(book, calendar, table, output, work)
}

// The finish of one flow of a book by its calendar.
#[unsafe(no_mangle)]
pub extern "C" fn flowplan_finish(
    book: &[u8],
    calendar: &[u8],
    flow: u32,
    work: &mut [u8],
) -> FinishAnswer
    ensures answer { result ≡ (finish_call book.now calendar.now flow work.old).answer }
    ensures area { work.new ≡ (finish_call book.now calendar.now flow work.old).area }
{
    finish::finish_flow(book, calendar, flow, work)
}
