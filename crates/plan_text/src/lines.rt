// The lines of an answer, read off the table that the planner left.
ghost use Rattle.std.specs.Prelude.{◌≡◌, ◌+◌, ◌*◌, ◌≤◌, ◌<◌, ◌++◌, length};
ghost use Rattle.arrayvec.specs.ArrayString.{array_string_len};
ghost use Rattle.plan_text.specs.Put.{longest_line};
ghost use Rattle.plan_text.specs.Lines.{line_text, AnswerStands, line_count, line_at, text_of};

use arrayvec::ArrayString;
use book::bytes::Field;
use book::row::Row;
use rules::PlanAnswer;

// What is put only into a slice stands under this name too.
pub use crate::lent::{put_line, put_row, put_table};

// A line: the table's bytes and its late flows, the finish of a flow, a row, or a refusal.
#[derive(Clone, Copy)]
pub enum Line {
    Table { bytes: u32, late: u8 },
    Finish { flow: u8, finish: u16 },
    Row(Row),
    Refusal { number: u8, flow: u8, job: u8 },
}

impl Line {
    // The line put at the end of a text.
    pub fn put<const N: usize>(self, text: &mut ArrayString<N>)
        requires { array_string_len text.old + longest_line ≤ N }
        ensures bytes { text.new.bytes ≡ text.old.bytes ++ line_text self }
        ensures length { array_string_len text.new ≤ array_string_len text.old + longest_line }
    {
        match self {
            Line::Table { bytes, late } => super::put_table_line(text, bytes, late),
            Line::Finish { flow, finish } => super::put_finish_line(text, flow, finish),
            Line::Row(row) => super::put_row_line(text, row),
            Line::Refusal { number, flow, job } => super::put_refusal_line(text, number, flow, job),
        }
    }
}

// How many lines an answer has. The answer is the C interface's own struct, where number 0 says that a table stands in
// the output; what ties the two is asked where lines are read off them.
#[tactic(auto, using(crate::proofs::LineCases::cases))]
pub fn line_count(table: &[u8], answer: PlanAnswer) -> usize
    requires { AnswerStands table.now answer }
    ensures { result ≡ line_count table.now answer }
{
    if answer.number != 0 {
        return 1;
    }
    let flows = usize::from(table[7]);
    1 + flows + (answer.length as usize - (8 + 2 * flows)) / Row::SIZE
}

// Line n of an answer. Its number says which it is, as in the rules: first the table, then finishes, then rows.
#[tactic(auto, using(crate::proofs::LineCases::cases))]
pub fn line_at(table: &[u8], answer: PlanAnswer, n: usize) -> Line
    requires { (AnswerStands table.now answer) × (n < line_count table.now answer) }
    ensures { line_text result ≡ line_at table.now answer n }
{
    if answer.number != 0 {
        return Line::Refusal {
            number: answer.number,
            flow: answer.flow,
            job: answer.job,
        };
    }
    if n == 0 {
        return Line::Table {
            bytes: answer.length,
            late: answer.late,
        };
    }
    let flows = usize::from(table[7]);
    if n <= flows {
        return Line::Finish {
            flow: (n - 1) as u8,
            finish: u16::read(table, 6 + 2 * n),
        };
    }
    Line::Row(Row::read(table, 8 + 2 * flows + Row::SIZE * (n - (1 + flows))))
}

// The whole text of an answer put at the end of a text.
#[tactic(auto, using(crate::proofs::LineCases::texts))]
pub fn put_text<const N: usize>(text: &mut ArrayString<N>, table: &[u8], answer: PlanAnswer)
    requires { (AnswerStands table.now answer) × (array_string_len text.old + longest_line * line_count table.now answer ≤ N) }
    ensures { text.new.bytes ≡ text.old.bytes ++ text_of table.now answer }
{
    for n in 0..line_count(table, answer) {
        line_at(table, answer, n).put(text);
    }
}
