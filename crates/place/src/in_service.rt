// The pseudo-job in service, slot by slot, with rows or without.
ghost use Rattle.place.specs.Service.{InService};

use crate::{Current, Placed, Served, give_of, put_full, put_row, share_of};
use book::bytes::Field;
use book::row::Row;
use chain::Part;

// The pseudo-job in service, and, where rows are put, its parts and their rows, packed.
#[derive(Clone, Copy)]
pub struct Service<'a> {
    // The bytes of its book, read by no code: the promises speak of them.
    pub book: &'a [u8],
    pub current: Current,
    // Two lists side by side, since a whole slot stores the rows alone.
    pub parts: &'a [Part],
    pub rows: &'a [u32],
    pub ghost in_service: { InService book.now current },
}

impl<'a> Service<'a> {
    ghost use Rattle.std.specs.Prelude.{◌≡◌, ℕ, ◌+◌, ◌*◌, ◌-◌, ◌^◌, ◌<◌, ◌≤◌, length, true, false};
    ghost use Rattle.rules.specs.Limits.{slots, work_bytes};
    ghost use Rattle.place.specs.Flows.{SlotServed, RunAnswer, SlotUsed, RunUsed};
    ghost use Rattle.place.specs.Output.{slot_bytes, Put};
    ghost use Rattle.chain.specs.Alone.{names_in, takes_in};
    ghost use Rattle.place.specs.Service.{Serving};
    ghost use Rattle.place.specs.Units.{all_units, units_rows};

    // The rows of one slot, which uses `give` units after the first `done`; the offset after them.
    pub fn put_slot(&self, out: &mut [u8], at: usize, done: u64, give: u32, slot: usize) -> usize
        // A clause, since without rows no parts are asked for, and a struct with ghost fields takes no bool parameter.
        requires serving { Serving self.now.book.now self.now.current (names_in self.now.parts.now) (takes_in self.now.parts.now) self.now.rows.now }
        requires units_within { done + give ≤ all_units self.now }
        requires give_within { give ≤ self.now.current.rate }
        requires slot_within { slot < slots }
        requires room { at + slot_bytes < 2 ^ 32 }
        ensures { Put out.old at (units_rows self.now slot done give) out.new result }
    {
        let rate = self.current.rate;
        let slot = slot as u16;
        if give == rate {
            return put_full(self.rows, out, at, slot);
        }
        let flow = self.current.flow as u8;
        let o = (done % u64::from(rate)) as u32;
        let mut next = at;
        let mut before: u32 = 0;
        for part in self.parts {
            let job = part.job;
            let processors = share_of(o, give, before, part.take, rate) as u16;
            next = put_row(
                out,
                next,
                Row {
                    slot,
                    flow,
                    job,
                    processors,
                },
            );
            before += part.take;
        }
        next
    }

    // Rule 4 in one slot: the pseudo-job, of whose units `left` are not given, gets its processors; with its rows, or
    // without.
    pub fn serve_slot<const LISTED: bool>(
        &self,
        out: &mut [u8],
        area: &mut [u8],
        at: usize,
        left: u64,
        slot: usize,
    ) -> Served
        requires serving { LISTED ≡ true → Serving self.now.book.now self.now.current (names_in self.now.parts.now) (takes_in self.now.parts.now) self.now.rows.now }
        // The work area stays a slice with a clause on its length; book's WORK_BYTES says why.
        requires area_whole { work_bytes ≤ length area.old }
        requires left_within { left ≤ all_units self.now }
        requires slot_within { slot < slots }
        requires room { LISTED ≡ true → at + slot_bytes < 2 ^ 32 }
        ensures give_within { result.give ≤ left }
        ensures listed { LISTED ≡ true → SlotServed self.now.book.now self.now.current at (all_units self.now - left) slot out.old area.old out.new area.new result }
        ensures unlisted { LISTED ≡ false → SlotUsed self.now.book.now self.now.current (all_units self.now - left) slot area.old area.new result.give }
    {
        let current = self.current;
        let used = u16::read(area, 2 * slot);
        let give = give_of(current.rate, left, current.processors, used);
        if give == 0 {
            return Served { next: at, give };
        }
        (used + give as u16).write(area, 2 * slot);
        if LISTED {
            let next = self.put_slot(out, at, current.work() - left, give, slot);
            return Served { next, give };
        }
        Served { next: at, give }
    }

    // Rule 4 slot after slot from `from` on, until the pseudo-job's work is done; none by rule 6 where the limit is
    // reached before.
    pub fn place_run<const LISTED: bool>(
        &self,
        out: &mut [u8],
        area: &mut [u8],
        at: usize,
        from: usize,
        limit: usize,
    ) -> Option<Placed>
        requires serving { LISTED ≡ true → Serving self.now.book.now self.now.current (names_in self.now.parts.now) (takes_in self.now.parts.now) self.now.rows.now }
        requires area_whole { work_bytes ≤ length area.old }
        // Bounds of numbers stay clauses: as types each number would need one of its own.
        requires limit_behind { from ≤ limit }
        requires limit_within { limit ≤ slots }
        requires room { LISTED ≡ true → at + slot_bytes * (slots - from) < 2 ^ 32 }
        ensures listed { LISTED ≡ true → RunAnswer self.now.book.now self.now.current from at limit out.old area.old out.new area.new result }
        ensures unlisted { LISTED ≡ false → RunUsed self.now.book.now self.now.current from limit area.old area.new result }
    {
        let mut left = self.current.work();
        let mut next = at;
        // Counted by hand: over a range a tenth more is spent where many full slots are passed.
        let mut slot = from;
        while slot < limit {
            let served = self.serve_slot::<LISTED>(out, area, next, left, slot);
            next = served.next;
            slot += 1;
            // A full slot gives nothing and leaves the work as it was, so that many are passed at little cost each.
            if served.give != 0 {
                left -= u64::from(served.give);
                if left == 0 {
                    return Some(Placed { finish: slot, next });
                }
            }
        }
        None
    }
}
