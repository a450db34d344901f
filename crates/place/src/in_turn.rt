// The flows of a book in service order, each in its turn.
ghost use Rattle.std.specs.Prelude.{◌≡◌};
ghost use Rattle.rules.specs.Reading.{book_of};
ghost use Rattle.rules.specs.Service.{service_order};

use crate::{Placed, place_flow};
use arrayvec::ArrayVec;
use book::Book;
use calendar::Calendar;

// A book's flows in service order, in the open slots of a calendar.
#[derive(Drop)]
pub struct Turns<'a> {
    pub book: &'a Book<'a>,
    pub calendar: &'a Calendar,
    pub order: ArrayVec<u8, 64>,
    pub ghost in_order: { order.items ≡ service_order (book_of book.now.bytes.now) },
}

impl<'a> Turns<'a> {
    ghost use Rattle.std.specs.Prelude.{ℕ, ◌+◌, ◌<◌, ◌≤◌, List, [], length, IfSome};
    ghost use Rattle.rules.specs.Limits.{slots, work_bytes};
    ghost use Rattle.rules.specs.Book.{flow_count};
    ghost use Rattle.rules.specs.Rows.{Row, used_in, work_used};
    ghost use Rattle.rules.specs.Service.{served_at};
    ghost use Rattle.place.specs.Output.{flow_bytes};
    ghost use Rattle.place.specs.Flows.{OutputRoom};
    ghost use Rattle.place.specs.Order.{shut_rows, Stands};
    ghost use Rattle.place.specs.Turns.{whole_book, TurnGoes, TakenOut};

    // The flows of a book, in the open slots of a calendar.
    pub fn of(book: &'a Book<'a>, calendar: &'a Calendar) -> Self
        ensures book { result.book.now ≡ book.now }
        ensures calendar { result.calendar.now ≡ calendar.now }
    {
        Self {
            book,
            calendar,
            order: book.service_order(),
        }
    }

    // The flow at position k.
    pub fn flow(&self, k: usize) -> u8
        requires { k < flow_count (book_of self.now.book.now.bytes.now) }
        ensures served { result ≡ served_at (whole_book self.now.book.now self.now.calendar.now) k }
        ensures within { result < flow_count (book_of self.now.book.now.bytes.now) }
    {
        self.order.as_slice()[k]
    }

    // The flow at position k, placed beside those before it and the maintenance, which the work area holds; none where
    // it is infeasible.
    pub fn place<const LISTED: bool>(
        &self,
        k: usize,
        out: &mut [u8],
        area: &mut [u8],
        at: usize,
    ) -> Option<Placed>
        requires turn_in { k < flow_count (book_of self.now.book.now.bytes.now) }
        requires area_whole { work_bytes ≤ length area.old }
        requires room { OutputRoom LISTED (length out.old) (at + flow_bytes) }
        ensures turn { (rows : List Row) (bytes : List ℕ) → Stands (whole_book self.now.book.now self.now.calendar.now) k rows bytes area.old → TurnGoes LISTED (whole_book self.now.book.now self.now.calendar.now) k rows bytes out.old at out.new area.new result }
        ensures within { (rows : List Row) (bytes : List ℕ) → area.old ≡ work_used slots rows bytes → ((t : ℕ) → used_in rows t ≤ (book_of self.now.book.now.bytes.now).processors) → IfSome result (λ p. p.finish ≤ slots) }
    {
        let f = usize::from(self.flow(k));
        let limit = self.calendar.limit_of(self.book.head(f).deadline);
        place_flow::<LISTED>(self.book, f, out, area, at, limit)
    }

    // All processors of the shut slots are in use until the flows are placed.
    pub fn shut(&self, area: &mut [u8])
        requires { work_bytes ≤ length area.old }
        ensures { area.old ≡ work_used slots [] area.old → (area.new ≡ work_used slots (shut_rows (whole_book self.now.book.now self.now.calendar.now)) area.old) × Stands (whole_book self.now.book.now self.now.calendar.now) 0 [] area.new area.new }
    {
        self.calendar.set_shut(area, self.book.processors);
    }

    // After the flows are placed, all processors of the shut slots are free again.
    pub fn open(&self, area: &mut [u8])
        requires { work_bytes ≤ length area.old }
        ensures { (bytes : List ℕ) → TakenOut (whole_book self.now.book.now self.now.calendar.now) bytes area.old area.new }
    {
        self.calendar.set_shut(area, 0);
    }
}
