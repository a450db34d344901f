// One row of a table: tested by 15 to 18 and 25, asked for its release and predecessors, counted.
ghost use Rattle.std.specs.Prelude.{◌≡◌, ◌+◌, ◌<◌, ◌≤◌, length, Some};
ghost use Rattle.rules.specs.Limits.{slots, work_bytes};
ghost use Rattle.rules.specs.Reading.{book_of};
ghost use Rattle.calendar.specs.Area.{open_by};
ghost use Rattle.book.specs.Records.{number_by};
ghost use Rattle.book.specs.Rows.{row_from};
ghost use Rattle.table_check.specs.Tests.{rank_of, standing_number, amount_number, not_yet, lacks_at, ready_after};
ghost use Rattle.table_check.specs.Tally.{ready_of, AmountsHeld, JobsLoaded, RowTested, AskedAt, Countable, RowCounted};

use super::current::Current;
use book::JobRecord;
use book::bytes::Field;
use book::row::Row;
use rules::Fault;

// One past the greatest rank of a row in a slot: 8,192 slots of 64 jobs each.
const RANKS: u32 = 524288;

// From which slot on a job is complete: in how many of the last of 65,536 slots, 0 where it is not. A number in place
// of an `Option`, so that one comparison tells whether the job is complete in a slot: a row may ask that of 63.
#[derive(Clone, Copy, Default)]
pub struct Ready {
    last: u32,
}

impl Ready {
    // From this slot on, or not at all.
    #[tactic(auto, unfolding(crate::specs::Tally::ready_of))]
    pub fn of(ready: Option<u16>) -> Ready
        ensures { ready_of result ≡ ready }
    {
        let Some(slot) = ready else {
            return Ready { last: 0 };
        };
        Ready {
            last: 65536 - u32::from(slot),
        }
    }

    // The slot, where the job is complete from one on.
    #[tactic(auto, unfolding(crate::specs::Tally::ready_of))]
    pub fn slot(self) -> Option<u16>
        ensures { result ≡ ready_of self }
    {
        if self.last == 0 {
            return None;
        }
        Some(65536u32.saturating_sub(self.last) as u16)
    }

    // From the slot after this one on.
    pub fn after(slot: u16) -> Ready
        requires { slot < slots }
        ensures { ready_of result ≡ Some (slot + 1) }
    {
        Ready {
            last: 65535 - u32::from(slot),
        }
    }

    // Whether the job is not complete in a slot.
    pub fn is_not_yet(self, slot: u16) -> bool
        ensures { result ≡ not_yet slot (ready_of self) }
    {
        self.last <= 65535 - u32::from(slot)
    }

    // Whether the lowest bit names a predecessor that is not complete in a slot, where this is the predecessor's.
    pub fn lacks(self, bits: u64, slot: u16) -> bool
        ensures { result ≡ lacks_at bits 0 slot (ready_of self) }
    {
        bits % 2 == 1 && self.is_not_yet(slot)
    }
}

// A job of the current flow: as the book has it, and by the rows so far its total and the slot from which it is
// complete, none where it is not.
#[derive(Clone, Copy, Default)]
pub struct JobState {
    pub job: JobRecord,
    pub total: u32,
    pub ready: Ready,
}

impl JobState {
    // Sets the slot from which the job is complete, once its total has come from `before` to what it is by a row in
    // `slot`.
    #[tactic(auto, unfolding(crate::specs::Tests::ready_after))]
    pub fn complete(&mut self, before: u32, slot: u16)
        requires { slot < slots }
        ensures kept { self.new ≡ record self.old { ready = self.new.ready } }
        ensures ready { ready_of self.new.ready ≡ ready_after (ready_of self.old.ready) before self.old.total self.old.job.size slot }
    {
        if before < self.job.size && self.job.size <= self.total {
            self.ready = Ready::after(slot);
        }
    }
}

// The jobs of the current flow, before any row.
pub fn load_jobs(current: &Current, jobs: &mut [JobState])
    requires { length jobs.old ≡ current.now.head.jobs }
    ensures { JobsLoaded (book_of current.now.book.now.bytes.now) current.now.flow jobs.new }
{
    for (i, job) in jobs.iter_mut().enumerate() {
        *job = JobState {
            job: current.book.job(current.flow, i),
            total: 0,
            ready: Ready::default(),
        };
    }
}

// The rank of a row: the number by which the rows of a flow stand in their order. As a number it has a next one, and it
// tells in one test whether the slot is in range; a pair of slot and job would need an option before the first row, and
// a test more.
pub fn rank_of(row: Row) -> u32
    ensures { (result ≡ rank_of (row_from row)) × (result < 4194560) }
{
    u32::from(row.slot) * 64 + u32::from(row.job)
}

// 15, 25 and 16 of a row whose flow is in the book: it is in range, in an open slot, and in order. Once the job is in
// range, the row's rank tells whether the slot is.
#[tactic(auto, unfolding(crate::specs::Tests::standing_number))]
pub fn standing_fault(shut: &[u8], jobs: u8, least: u32, key: u32, row: Row) -> Result<(), Fault>
    requires { jobs ≤ 64 }
    ensures { number_by result ≡ standing_number jobs (open_by shut.now row.slot) least key (row_from row) }
{
    if jobs <= row.job || RANKS <= rank_of(row) || row.processors == 0 {
        return Err(Fault::RowRange);
    }
    if !calendar::is_open(shut, usize::from(row.slot)) {
        return Err(Fault::RowShut);
    }
    if key < least {
        return Err(Fault::RowOrder);
    }
    Ok(())
}

// 17 and 18: a row takes no more processors than its job's cap, and its slot's rows together no more than there are.
#[tactic(auto, unfolding(crate::specs::Tests::amount_number))]
pub fn amount_fault(cap: u16, used: u16, processors: u16, row: Row) -> Result<(), Fault>
    ensures { number_by result ≡ amount_number cap used processors (row_from row) }
{
    if cap < row.processors {
        return Err(Fault::RowCap);
    }
    if u32::from(processors) < u32::from(used) + u32::from(row.processors) {
        return Err(Fault::SlotFull);
    }
    Ok(())
}

// What a row that passes is answered with: the use of its slot so far, and the size of its job.
#[derive(Clone, Copy)]
pub struct Tested {
    pub used: u16,
    pub size: u32,
}

// 15 to 18 and 25 of a row of the current flow, whose rank is to be at least `least`; where they pass, the use of its
// slot so far and the size of its job.
pub fn test_row(
    current: &Current,
    jobs: &[JobState],
    work: &[u8],
    least: u32,
    row: Row,
) -> Result<Tested, Fault>
    requires { AmountsHeld (book_of current.now.book.now.bytes.now) current.now.flow jobs.now × (work_bytes ≤ length work.now) }
    ensures { RowTested (book_of current.now.book.now.bytes.now) (open_by current.now.shut.now) current.now.flow work.now least (row_from row) result }
{
    standing_fault(current.shut, current.head.jobs, least, rank_of(row), row)?;
    let used = u16::read(work, 2 * usize::from(row.slot));
    let job = &jobs[usize::from(row.job)].job;
    amount_fault(job.cap, used, current.book.processors, row)?;
    Ok(Tested {
        used,
        size: job.size,
    })
}

// What 19 asks at a row: whether it stands before the release, and which predecessors are to be complete, a bit each.
#[derive(Clone, Copy)]
pub struct Asks {
    pub unreleased: bool,
    pub bits: u64,
}

// 19 is asked whole at a job's first row, and not at all once the job has a total, since it was asked then and slots
// only rise.
#[tactic(auto, unfolding(crate::specs::Tests::asked_release, crate::specs::Tests::asked))]
pub fn predecessors_due(job: &JobState, release: u16, slot: u16) -> Asks
    ensures { AskedAt job.now release slot result }
{
    if 0 < job.total {
        return Asks {
            unreleased: false,
            bits: 0,
        };
    }
    Asks {
        unreleased: slot < release,
        bits: job.job.predecessors,
    }
}

// Whether a job that is complete from a slot on, or not at all, is not yet so in `slot`.
fn is_not_yet(ready: Option<u16>, slot: u16) -> bool
    ensures { result ≡ not_yet slot ready }
{
    ready.is_none_or(|from| slot < from)
}

// Whether the lowest bit names a predecessor that is not complete, or only from a later slot on: by an `Option`, where
// the walk goes by `Ready::lacks`.
pub fn lacks(bits: u64, slot: u16, ready: Option<u16>) -> bool
    ensures { result ≡ lacks_at bits 0 slot ready }
{
    bits % 2 == 1 && is_not_yet(ready, slot)
}

// A row that passed is counted: in its slot's use, in its job's total, and where that completes the job.
pub fn count_row(jobs: &mut [JobState], work: &mut [u8], used: u16, row: Row)
    requires { Countable jobs.old work.old used (row_from row) }
    ensures { RowCounted used (row_from row) jobs.old work.old jobs.new work.new }
{
    (used + row.processors).write(work, 2 * usize::from(row.slot));
    let job = &mut jobs[usize::from(row.job)];
    let before = job.total;
    job.total += u32::from(row.processors);
    job.complete(before, row.slot);
}
