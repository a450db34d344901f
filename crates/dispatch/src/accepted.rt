// A table that the check accepts, beside its book, as the merge reads it.
ghost use Rattle.std.specs.Prelude.{◌≡◌, ◌^◌, ◌<◌, map, length};
ghost use Rattle.rules.specs.Verdicts.{Pass};
ghost use Rattle.rules.specs.Reading.{book_fault};
ghost use Rattle.rules.specs.Table.{row_bytes};
ghost use Rattle.dispatch.specs.Accepted.{Accepted, accepted_rows};

use book::bytes::Field;
use book::row::Row;
use book::{BOOK_HEAD, Book, FlowHead, JobRecord};

// The book in these bytes, which pass: a walk over its heads. The check reads a book and does not hand it out.
// Without the tests, since the check has made them: reading the jobs again takes longer.
pub fn passing_book(bytes: &[u8]) -> Book
    requires { book_fault bytes.now ≡ Pass }
    ensures { result.bytes.now ≡ bytes.now }
{
    let flows = usize::from(bytes[7]);
    let mut starts = [0; 64];
    let mut start = BOOK_HEAD;
    for flow in 0..flows {
        starts[flow] = start;
        let head = FlowHead::at(bytes, start);
        start += FlowHead::size(bytes[4]) + JobRecord::SIZE * usize::from(head.jobs);
    }
    Book {
        bytes,
        processors: u16::read(bytes, 5),
        flows,
        starts,
    }
}

// A table that the check accepts, its book and its rows. The rows are those of the table, each as it stands there; four
// bytes hold how many they are. The work area is lent beside it: with the area in the struct the merge takes longer.
#[derive(Clone, Copy)]
pub struct AcceptedTable<'a> {
    pub book: &'a Book<'a>,
    pub table: &'a [u8],
    pub rows: &'a [[u8; Row::SIZE]],
    ghost accepted: { Accepted book.now.bytes.now table.now },
    ghost short: { length rows.now < 2 ^ 32 },
    ghost rows_are: { rows.now ≡ map row_bytes (accepted_rows book.now.bytes.now table.now) },
}

impl<'a> AcceptedTable<'a> {
    // The table with its rows, which are the bytes behind its head, six for each.
    pub fn new(book: &'a Book<'a>, table: &'a [u8]) -> Self
        requires { Accepted book.now.bytes.now table.now }
        ensures book { result.book.now ≡ book.now }
        ensures table { result.table.now ≡ table.now }
    {
        let (rows, _) = table[8 + 2 * book.flow_count()..].as_chunks();
        Self { book, table, rows }
    }
}
