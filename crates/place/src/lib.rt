// The placing of one flow beside those before it: its pseudo-jobs slot by slot, with rows or without.
#![tactic(auto)]

ghost use Rattle.std.specs.Prelude.{◌≡◌, ℕ, ◌+◌, ◌*◌, ◌-◌, ◌^◌, ◌<◌, ◌≤◌, min, max, length, get_or, [], ◌∷◌};
ghost use Rattle.rules.specs.Limits.{most_jobs, slots, work_bytes};
ghost use Rattle.rules.specs.Reading.{book_of};
ghost use Rattle.rules.specs.Rows.{row_for};
ghost use Rattle.rules.specs.Book.{flow_count, flow_of};
ghost use Rattle.chain.specs.Alone.{names_in, takes_in};
ghost use Rattle.place.specs.Flows.{OutputRoom, RunGoes, FlowHeld, PlacedBeside};
ghost use Rattle.place.specs.Output.{slot_bytes, flow_bytes, Put};
ghost use Rattle.place.specs.Service.{PartsHeld, Packs, PackedTo, packed_row, packed_rows, overlaps};

mod in_service;
mod in_turn;

use book::bytes::Field;
use book::row::Row;
use book::{Book, JobRecord};
use chain::{Chain, IdealJob, Part};
pub use in_service::Service;
pub use in_turn::Turns;

// The most jobs of a flow.
const MOST_JOBS: usize = 64;

// The pseudo-job in service: its flow, and what a slot needs of it.
#[derive(Clone, Copy)]
pub struct Current {
    pub flow: usize,
    pub processors: u16,
    pub first: u32,
    pub width: u32,
    pub rate: u32,
}

impl Current {
    // Its work.
    pub fn work(self) -> u64
        ensures { result ≡ self.width * self.rate }
    {
        u64::from(self.width) * u64::from(self.rate)
    }
}

// How much of the numbers from a to b lies in those from c to d.
pub fn overlap(a: u32, b: u32, c: u32, d: u32) -> u32
    ensures { result ≡ min b d - max a c }
{
    b.min(d).saturating_sub(a.max(c))
}

// What a job has of the units from the o-th of a slot on: its own stand after the first `before` of each slot.
pub fn share_of(o: u32, give: u32, before: u32, take: u32, rate: u32) -> u32
    requires { (o < rate) × (give ≤ rate) × (before + take ≤ rate) × (rate ≤ 262144) }
    ensures { result ≡ overlaps o give before take rate }
{
    overlap(o, o + give, before, before + take)
        + overlap(o, o + give, before + rate, before + rate + take)
}

// A row that has processors, where the output has room for it; the offset after it.
// Output and offset stay apart: a struct of both is no plainer, since callers go on at the offset handed back.
pub fn put_row(out: &mut [u8], at: usize, row: Row) -> usize
    requires { at < 2 ^ 32 }
    ensures { Put out.old at (row_for row.slot row.flow row.job row.processors) out.new result }
{
    if row.processors == 0 {
        return at;
    }
    let end = at + Row::SIZE;
    if out.len() < end {
        return end;
    }
    row.write(out, at);
    end
}

// The four bytes of a part's row after its slot, as one number, so that they are written at once.
pub fn pack(flow: u8, part: Part) -> u32
    requires { part.take ≤ 4096 }
    ensures { Packs result flow part.job part.take }
{
    let [high, low] = (part.take as u16).to_be_bytes();
    u32::from_le_bytes([flow, part.job, high, low])
}

// The rows of as many parts of a pseudo-job as there is room for, in a slot in which each has its take, without the
// slot.
pub fn pack_parts(flow: u8, parts: &[Part], rows: &mut [u32])
    requires { (length rows.old ≤ length parts.now) × ((q : ℕ) → q < length parts.now → get_or (takes_in parts.now) q 0 ≤ 4096) }
    ensures { PackedTo flow parts.now rows.new }
{
    for (q, row) in rows.iter_mut().enumerate() {
        *row = pack(flow, parts[q]);
    }
}

// A packed row of a slot, where the output has room for it; the offset after it.
// Beside put_row, since four bytes are stored at once, and processors that are there are not tested again.
pub fn put_packed(out: &mut [u8], at: usize, slot: u16, row: u32) -> usize
    requires { at < 2 ^ 32 }
    ensures { Put out.old at (packed_row slot row ∷ []) out.new result }
{
    let end = at + Row::SIZE;
    if out.len() < end {
        return end;
    }
    slot.write(out, at);
    out[at + 2..at + 6].copy_from_slice(&row.to_le_bytes());
    end
}

// The rows of a slot in which each part has its take: it is one whole slot of the run; the offset after them.
pub fn put_full(rows: &[u32], out: &mut [u8], at: usize, slot: u16) -> usize
    requires { (length rows.now ≤ most_jobs) × (at + slot_bytes < 2 ^ 32) }
    ensures { Put out.old at (packed_rows slot rows.now (length rows.now)) out.new result }
{
    if out.len() < at + Row::SIZE {
        return at + Row::SIZE * rows.len();
    }
    let mut next = at;
    for row in rows {
        next = put_packed(out, next, slot, *row);
    }
    next
}

// The processors that a slot gives: the least of the rate, the work left and what is free.
pub fn give_of(rate: u32, left: u64, processors: u16, used: u16) -> u32
    ensures { result ≡ min rate (min left (processors - used)) }
{
    // A full slot is left at once: many are passed one after the other, and without this test that takes almost twice
    // as long.
    if processors <= used {
        return 0;
    }
    let most = rate.min(u32::from(processors - used));
    left.min(u64::from(most)) as u32
}

// What a slot gave, and the offset after its rows.
#[derive(Clone, Copy)]
pub struct Served {
    pub next: usize,
    pub give: u32,
}

// Where placing came to: the slot after the last used one, and the offset after the rows.
#[derive(Clone, Copy)]
pub struct Placed {
    pub finish: usize,
    pub next: usize,
}

// The pseudo-job in service with its rows, which are packed first, or without.
pub fn run_as<const LISTED: bool>(
    book: &[u8],
    current: Current,
    parts: &[Part],
    rows: &mut [u32],
    out: &mut [u8],
    area: &mut [u8],
    at: usize,
    from: usize,
    limit: usize,
) -> Option<Placed>
    requires { PartsHeld book.now current (names_in parts.now) (takes_in parts.now) × (length parts.now ≤ length rows.old) × (work_bytes ≤ length area.old) × (from ≤ limit) × (limit ≤ slots) × OutputRoom LISTED (length out.old) (at + slot_bytes * (slots - from)) }
    ensures { RunGoes LISTED book.now current from at limit out.old area.old out.new area.new result }
{
    let packed = if LISTED { parts.len() } else { 0 };
    pack_parts(current.flow as u8, parts, &mut rows[..packed]);
    let service = Service {
        book,
        current,
        parts,
        rows: &rows[..packed],
    };
    service.place_run::<LISTED>(out, area, at, from, limit)
}

// Rules 4 to 6 for flow f, which the chain is of: its pseudo-jobs one after the other, the first from the release on,
// each other from the slot after the one before it; with its rows, or without. Compiled on its own: put into its
// callers it takes longer: usual and full books a twentieth to an eighth, flows that wait up to two fifths.
#[inline(never)]
pub fn place_cuts<const LISTED: bool>(
    book: &Book,
    f: usize,
    chain: &Chain,
    out: &mut [u8],
    area: &mut [u8],
    at: usize,
    release: usize,
    limit: usize,
) -> Option<Placed>
    requires held { FlowHeld book.now.bytes.now f chain.now.jobs.now chain.now.path }
    requires release_is { release ≡ (flow_of (book_of book.now.bytes.now) f).release }
    requires limit_behind { release ≤ limit }
    requires limit_within { limit ≤ slots }
    requires area_whole { work_bytes ≤ length area.old }
    requires room { OutputRoom LISTED (length out.old) (at + flow_bytes) }
    ensures { PlacedBeside LISTED (book_of book.now.bytes.now) f limit out.old area.old at out.new area.new result }
{
    let mut parts = [Part::default(); MOST_JOBS];
    let mut rows = [0; MOST_JOBS];
    let mut from: usize = 0;
    let mut t: u32 = 0;
    let mut finish = release;
    let mut next = at;
    // A pseudo-job is as wide as it is, so that no range goes over them.
    while t < chain.path {
        from = chain::skip_ended(chain.jobs, from, t);
        let run = chain.run_at(from, t, &mut parts);
        let current = Current {
            flow: f,
            processors: book.processors,
            first: t,
            width: run.width,
            rate: run.rate,
        };
        let placed = run_as::<LISTED>(
            book.bytes,
            current,
            &parts[..run.parts],
            &mut rows,
            out,
            area,
            next,
            finish,
            limit,
        )?;
        finish = placed.finish;
        next = placed.next;
        t += run.width;
    }
    Some(Placed { finish, next })
}

// Rules 1 to 6 for flow f in the slots below `limit`: with its rows, or without, where no output is lent.
pub fn place_flow<const LISTED: bool>(
    book: &Book,
    f: usize,
    out: &mut [u8],
    area: &mut [u8],
    at: usize,
    limit: usize,
) -> Option<Placed>
    requires flow_in { f < flow_count (book_of book.now.bytes.now) }
    requires limit_within { limit ≤ slots }
    requires area_whole { work_bytes ≤ length area.old }
    requires room { OutputRoom LISTED (length out.old) (at + flow_bytes) }
    ensures { PlacedBeside LISTED (book_of book.now.bytes.now) f limit out.old area.old at out.new area.new result }
{
    let mut records = [JobRecord::default(); MOST_JOBS];
    let head = book.flow(f, &mut records);
    let release = usize::from(head.release);
    if limit < release {
        return None;
    }
    let mut room = [IdealJob::default(); MOST_JOBS];
    let chain = Chain::of(&records[..usize::from(head.jobs)], &mut room);
    place_cuts::<LISTED>(book, f, &chain, out, area, at, release, limit)
}
