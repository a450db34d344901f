// The flow whose rows are walked.
ghost use Rattle.std.specs.Prelude.{◌<◌};
ghost use Rattle.rules.specs.Book.{flow_count};
ghost use Rattle.rules.specs.Reading.{book_of};
ghost use Rattle.book.specs.Promise.{HeadOf};

use book::{Book, FlowHead};

// The book, the shut slots and the table, and of the book the flow whose rows are walked: its number and its head.
#[derive(Clone, Copy)]
pub struct Current<'a> {
    pub book: &'a Book<'a>,
    pub shut: &'a [u8],
    pub table: &'a [u8],
    pub flow: usize,
    pub head: FlowHead,
    pub ghost inside: { flow < flow_count (book_of book.now.bytes.now) },
    pub ghost head_is: { HeadOf book.now.bytes.now flow head },
}
