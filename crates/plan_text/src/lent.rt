// Text put into a lent slice at an offset, which keeps the rest of the slice: words are any bytes, and each call returns
// the offset after what it put. A line is the line that the program puts, copied there.
ghost use Rattle.std.specs.Prelude.{◌≡◌, ◌+◌, ◌*◌, ◌≤◌, ◌<◌, length, [], ◌∷◌, ◌++◌};
ghost use Rattle.rules.specs.Table.{row_at};
ghost use Rattle.rules.specs.Text.{digit, digits_of, decimal, table_line, finish_line, row_line, refusal_line};
ghost use Rattle.plan_text.specs.Put.{TextPut, pair_line, longest_line};
ghost use Rattle.plan_text.specs.Lines.{line_text, TableWithin, AnswerStands, table_lines, table_line_at, line_count, line_at, text_of};

use crate::lines::{Line, line_at, line_count};
use arrayvec::ArrayString;
use book::row::Row;
use rules::PlanAnswer;

// The last digit of a number.
pub fn put_digit(out: &mut [u8], at: usize, x: u32) -> usize
    requires { at < length out.old }
    ensures { TextPut out.old at (digit x ∷ []) out.new result }
{
    out[at] = b'0' + (x % 10) as u8;
    at + 1
}

// A number in at most n + 1 digits.
pub fn put_digits(out: &mut [u8], at: usize, n: u8, x: u32) -> usize
    requires { at + n < length out.old }
    ensures { TextPut out.old at (digits_of n x) out.new result }
{
    if n == 0 {
        return put_digit(out, at, x);
    }
    if x < 10 {
        return put_digit(out, at, x);
    }
    let next = put_digits(out, at, n - 1, x / 10);
    put_digit(out, next, x)
}

// A word of a line.
pub fn put_word(out: &mut [u8], at: usize, word: &[u8]) -> usize
    requires { at + length word.now ≤ length out.old }
    ensures { TextPut out.old at word.now out.new result }
{
    let next = at + word.len();
    out[at..next].copy_from_slice(word);
    next
}

// A number in decimal.
pub fn put_decimal(out: &mut [u8], at: usize, x: u32) -> usize
    requires { at + 10 ≤ length out.old }
    ensures { TextPut out.old at (decimal x) out.new result }
{
    put_digits(out, at, 9, x)
}

// A word and the number after it.
pub fn put_number(out: &mut [u8], at: usize, word: &[u8], x: u32) -> usize
    requires { at + (length word.now + 10) ≤ length out.old }
    ensures { TextPut out.old at (word.now ++ decimal x) out.new result }
{
    let next = put_word(out, at, word);
    put_decimal(out, next, x)
}

// Two words, each with the number after it, and the end of the line.
pub fn put_pair(out: &mut [u8], at: usize, first: &[u8], x: u32, second: &[u8], y: u32) -> usize
    requires { at + (length first.now + (length second.now + 21)) ≤ length out.old }
    ensures { TextPut out.old at (pair_line first.now x second.now y) out.new result }
{
    let after_first = put_number(out, at, first, x);
    let after_second = put_number(out, after_first, second, y);
    put_word(out, after_second, b"\n")
}

// Any line.
fn put(out: &mut [u8], at: usize, line: Line) -> usize
    requires { at + longest_line ≤ length out.old }
    ensures { TextPut out.old at (line_text line) out.new result }
{
    let mut text = ArrayString::<64>::new();
    line.put(&mut text);
    put_word(out, at, text.as_str().as_bytes())
}

// `table 66 late 2`
pub fn put_table_line(out: &mut [u8], at: usize, bytes: u32, late: u8) -> usize
    requires { at + longest_line ≤ length out.old }
    ensures { TextPut out.old at (table_line bytes late) out.new result }
{
    put(out, at, Line::Table { bytes, late })
}

// `finish 0 6`
pub fn put_finish_line(out: &mut [u8], at: usize, flow: u8, finish: u16) -> usize
    requires { at + longest_line ≤ length out.old }
    ensures { TextPut out.old at (finish_line flow finish) out.new result }
{
    put(out, at, Line::Finish { flow, finish })
}

// `slot 0 flow 1 job 0 take 2`
pub fn put_row_line(
    out: &mut [u8],
    at: usize,
    slot: u16,
    flow: u8,
    job: u8,
    processors: u16,
) -> usize
    requires { at + longest_line ≤ length out.old }
    ensures { TextPut out.old at (row_line (record { slot = slot; flow = flow; job = job; processors = processors })) out.new result }
{
    let row = Row {
        slot,
        flow,
        job,
        processors,
    };
    put(out, at, Line::Row(row))
}

// `refused 12 flow 0 job 255`
pub fn put_refusal_line(out: &mut [u8], at: usize, number: u8, flow: u8, job: u8) -> usize
    requires { at + longest_line ≤ length out.old }
    ensures { TextPut out.old at (refusal_line number flow job) out.new result }
{
    put(out, at, Line::Refusal { number, flow, job })
}

// The line of the row that stands at `from`.
#[tactic(auto, using(crate::proofs::LentText::lines_put))]
pub fn put_row(out: &mut [u8], at: usize, table: &[u8], from: usize) -> usize
    requires { (at + longest_line ≤ length out.old) × (from + 6 ≤ length table.now) }
    ensures { TextPut out.old at (row_line (row_at table.now from)) out.new result }
{
    put(out, at, Line::Row(Row::read(table, from)))
}

// Line n of a table of so many bytes.
#[tactic(auto, using(crate::proofs::LentText::lines_put), unfolding(crate::specs::Lines::line_count, crate::specs::Lines::line_at))]
pub fn put_table(out: &mut [u8], at: usize, table: &[u8], bytes: u32, late: u8, n: usize) -> usize
    requires { (at + longest_line ≤ length out.old) × (TableWithin table.now bytes) × (n < table_lines table.now bytes) }
    ensures { TextPut out.old at (table_line_at table.now bytes late n) out.new result }
{
    put(
        out,
        at,
        line_at(table, PlanAnswer::accepted(late, bytes), n),
    )
}

// Line n of an answer.
#[tactic(auto, using(crate::proofs::LentText::lines_put))]
pub fn put_line(out: &mut [u8], at: usize, table: &[u8], answer: PlanAnswer, n: usize) -> usize
    requires { (at + longest_line ≤ length out.old) × (AnswerStands table.now answer) × (n < line_count table.now answer) }
    ensures { TextPut out.old at (line_at table.now answer n) out.new result }
{
    put(out, at, line_at(table, answer, n))
}

// The whole text of an answer, from the start of the slice.
#[tactic(auto, using(crate::proofs::LentText::lines_put))]
pub fn put_text(out: &mut [u8], table: &[u8], answer: PlanAnswer) -> usize
    requires { (AnswerStands table.now answer) × (longest_line * line_count table.now answer ≤ length out.old) }
    ensures { (TextPut out.old 0 (text_of table.now answer) out.new result) × (result ≤ length out.old) }
{
    let mut at = 0;
    for n in 0..line_count(table, answer) {
        at = put_line(out, at, table, answer, n);
    }
    at
}
