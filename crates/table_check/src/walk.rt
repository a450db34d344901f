// The walk over a table's rows. Rows of a flow stand together, in service order, so that what is kept of single jobs is
// the current flow's alone; of a flow that the walk has left the first job whose total differs from its size is kept,
// and its finish.
ghost use Rattle.std.specs.Prelude.{◌≡◌, ◌+◌, ◌*◌, ◌<◌, ◌≤◌, ◌==◌, not, position, length};
ghost use Rattle.rules.specs.Reading.{book_of};
ghost use Rattle.calendar.specs.Area.{open_by};
ghost use Rattle.table_check.specs.declared.row.JobState.{JobState};
ghost use Rattle.table_check.specs.Tally.{JobsLoaded};
ghost use Rattle.table_check.specs.Walk.{FlowBegins, RowsWalked, FlowWalked, Ready, finishes_of, TableWalked};

use super::current::Current;
use super::row;
use super::row::JobState;
use book::row::Row;
use book::{Book, bytes};
use rules::{Fault, Refusal};

// The bytes of a table's head, before the finishes, two bytes each; the rows stand behind them.
pub const TABLE_HEAD: usize = 8;

// Where the walk over a flow's rows stopped: the offset after its last row, and its finish.
#[derive(Clone, Copy)]
pub struct Stop {
    pub next: usize,
    pub finish: u16,
}

// What is kept of a flow: the first job whose total differs from its size, and its finish.
#[derive(Clone, Copy)]
pub struct FlowEnd {
    pub mismatch: Option<u8>,
    pub finish: u16,
}

// The finishes of the flows.
// An array, since flows are stored in service order.
pub fn finishes(ends: &[FlowEnd; 64]) -> [u16; 64]
    ensures { result ≡ finishes_of ends.now }
{
    let mut finishes = [0u16; 64];
    for (f, end) in ends.iter().enumerate() {
        finishes[f] = end.finish;
    }
    finishes
}

// Where the walk over a flow stopped, with the flow closed: the offset after its last row, and what is kept of it.
#[derive(Clone, Copy)]
pub struct FlowStop {
    pub next: usize,
    pub end: FlowEnd,
}

// 15 to 19 and 25, for each row of the current flow in order; the first fault met ends the walk. Nested loops over rows
// and predecessors, left by a label: a rule of the project names this form.
pub fn walk_rows(
    current: &Current,
    jobs: &mut [JobState],
    work: &mut [u8],
    from: usize,
) -> Result<Stop, Refusal>
    requires { FlowBegins current.now.book.now.bytes.now (open_by current.now.shut.now) current.now.table.now work.old current.now.flow from × JobsLoaded (book_of current.now.book.now.bytes.now) current.now.flow jobs.old }
    ensures { RowsWalked (book_of current.now.book.now.bytes.now) (open_by current.now.shut.now) current.now.table.now current.now.flow from work.old work.new jobs.new result }
{
    let mut least: u32 = 0;
    let mut finish: u16 = 0;
    let mut at = from;
    'rows: loop {
        if current.table.len() <= at {
            break 'rows Ok(Stop { next: at, finish });
        }
        let r = Row::read(current.table, at);
        if usize::from(r.flow) != current.flow {
            break 'rows Ok(Stop { next: at, finish });
        }
        let tested = match row::test_row(current, jobs, work, least, r) {
            Ok(tested) => tested,
            Err(fault) => break 'rows Err(fault.at(r.flow, r.job)),
        };
        let job = &jobs[usize::from(r.job)];
        let asks = row::predecessors_due(job, current.head.release, r.slot);
        if asks.unreleased {
            break 'rows Err(Fault::Precedence.at(r.flow, r.job));
        }
        let mut bits = asks.bits;
        let mut k: usize = 0;
        while bits != 0 {
            if jobs[k].ready.lacks(bits, r.slot) {
                break 'rows Err(Fault::Precedence.at(r.flow, r.job));
            }
            bits /= 2;
            k += 1;
        }
        row::count_row(jobs, work, tested.used, r);
        finish = r.slot + 1;
        least = row::rank_of(r) + 1;
        at += Row::SIZE;
    }
}

// The first of some jobs whose total differs from its size.
// A function apart from `first_mismatch`: with the search and the narrowing in one, the proof did not close.
fn first_unmet(jobs: &[JobState]) -> Option<usize>
    ensures { result ≡ position (λ (job : JobState). not (job.total == job.job.size)) jobs.now }
{
    jobs.iter().position(|job| job.total != job.job.size)
}

// What is kept of a flow when its rows end: the number of its first job whose total differs from its size.
pub fn first_mismatch(jobs: &[JobState]) -> Option<u8>
    requires { length jobs.now ≤ 64 }
    ensures { result ≡ position (λ (job : JobState). not (job.total == job.job.size)) jobs.now }
{
    let i = first_unmet(jobs)?;
    Some(i as u8)
}

// The rows of the current flow, from its first one at `from` on.
pub fn walk_flow(current: &Current, work: &mut [u8], from: usize) -> Result<FlowStop, Refusal>
    requires { FlowBegins current.now.book.now.bytes.now (open_by current.now.shut.now) current.now.table.now work.old current.now.flow from }
    ensures { FlowWalked (book_of current.now.book.now.bytes.now) (open_by current.now.shut.now) current.now.table.now current.now.flow from work.old work.new result }
{
    let mut room = [JobState::default(); 64];
    let jobs = &mut room[..usize::from(current.head.jobs)];
    row::load_jobs(current, jobs);
    let stop = walk_rows(current, jobs, work, from)?;
    let mismatch = first_mismatch(jobs);
    Ok(FlowStop {
        next: stop.next,
        end: FlowEnd {
            mismatch,
            finish: stop.finish,
        },
    })
}

// The number by which flows stand in service order. As a number it has a next one, which the first row of the next flow
// is to reach; a pair of deadline and flow would need an option beside it before the first row.
pub fn service_key(deadline: u16, flow: u8) -> u32
    ensures { (result ≡ deadline * 64 + flow) × (result < 4194560) }
{
    u32::from(deadline) * 64 + u32::from(flow)
}

// 15 to 19 and 25 of all rows, flow by flow: what is kept of each flow. A flow without rows has its mismatch at job 0.
pub fn walk_flows<'a>(
    book: &'a Book<'a>,
    shut: &'a [u8],
    table: &'a [u8],
    work: &mut [u8],
) -> Result<[FlowEnd; 64], Refusal>
    requires { Ready book.now.bytes.now table.now work.old }
    ensures { TableWalked (book_of book.now.bytes.now) (open_by shut.now) table.now work.old work.new result }
{
    bytes::clear(work);
    let without_rows = FlowEnd {
        mismatch: Some(0),
        finish: 0,
    };
    // An array, since flows are stored in service order.
    let mut ends = [without_rows; 64];
    let flows = book.flow_count();
    let mut least: u32 = 0;
    let mut at = TABLE_HEAD + 2 * flows;
    // No `for` over rows: it goes on where the walk over a flow's rows stopped.
    while at < table.len() {
        let r = Row::read(table, at);
        let flow = usize::from(r.flow);
        if flows <= flow {
            return Err(Fault::RowRange.at(r.flow, r.job));
        }
        let head = book.head(flow);
        let key = service_key(head.deadline, r.flow);
        row::standing_fault(shut, head.jobs, least, key, r).map_err(|fault| fault.at(
            r.flow, r.job,
        ))?;
        let current = Current {
            book,
            shut,
            table,
            flow,
            head,
        };
        let stop = walk_flow(&current, work, at)?;
        ends[flow] = stop.end;
        at = stop.next;
        least = key + 1;
    }
    Ok(ends)
}
