// The lines of a printed plan, put one after the other into a text of fixed room. Each line equals its definition.
// Not by `write!`: its contract leaves open when it ends with an error, and what is put here has room and cannot fail.
#![tactic(auto)]

pub mod lent;
pub mod lines;

ghost use Rattle.std.specs.Prelude.{◌≡◌, ◌+◌, ◌≤◌, ◌++◌, length};
ghost use Rattle.arrayvec.specs.ArrayString.{array_string_len};
ghost use Rattle.rules.specs.Text.{decimal, table_line, finish_line, row_line, refusal_line};
ghost use Rattle.book.specs.Rows.{row_from};
ghost use Rattle.plan_text.specs.Put.{pair_line, longest_line};

use arrayvec::ArrayString;
use book::row::Row;
use itoa::Buffer;

// What is put only into a slice stands under this name too.
pub use lent::{put_decimal, put_digit, put_digits, put_word};

// A word and the number after it.
#[inline(always)]
#[tactic(auto, using(crate::proofs::Pieces::pieces))]
pub fn put_number<const N: usize>(text: &mut ArrayString<N>, word: &str, x: u32)
    requires { array_string_len text.old + (length word.now + 10) ≤ N }
    ensures bytes { text.new.bytes ≡ text.old.bytes ++ (word.now ++ decimal x) }
    ensures length { array_string_len text.new ≤ array_string_len text.old + (length word.now + 10) }
{
    text.push_str(word);
    let mut digits = Buffer::new();
    text.push_str(digits.format(x));
}

// Two words, each with the number after it, and the end of the line.
#[inline(always)]
#[tactic(auto, using(crate::proofs::Pieces::pieces), unfolding(rules::specs::Fields::bytes_of))]
pub fn put_pair<const N: usize>(
    text: &mut ArrayString<N>,
    first: &str,
    x: u32,
    second: &str,
    y: u32,
)
    requires { array_string_len text.old + (length first.now + (length second.now + 21)) ≤ N }
    ensures bytes { text.new.bytes ≡ text.old.bytes ++ pair_line first.now x second.now y }
    ensures length { array_string_len text.new ≤ array_string_len text.old + (length first.now + (length second.now + 21)) }
{
    put_number(text, first, x);
    put_number(text, second, y);
    text.push_str("\n");
}

// Each line asks for room by itself: the type of a text says how much it holds, and not how much of that is left.

// `table 66 late 2`
#[tactic(auto, unfolding(rules::specs::Text::table_line, rules::specs::Fields::bytes_of))]
pub fn put_table_line<const N: usize>(text: &mut ArrayString<N>, bytes: u32, late: u8)
    requires { array_string_len text.old + longest_line ≤ N }
    ensures bytes { text.new.bytes ≡ text.old.bytes ++ table_line bytes late }
    ensures length { array_string_len text.new ≤ array_string_len text.old + longest_line }
{
    put_pair(text, "table ", bytes, " late ", u32::from(late));
}

// `finish 0 6`
#[tactic(auto, unfolding(rules::specs::Text::finish_line, rules::specs::Fields::bytes_of))]
pub fn put_finish_line<const N: usize>(text: &mut ArrayString<N>, flow: u8, finish: u16)
    requires { array_string_len text.old + longest_line ≤ N }
    ensures bytes { text.new.bytes ≡ text.old.bytes ++ finish_line flow finish }
    ensures length { array_string_len text.new ≤ array_string_len text.old + longest_line }
{
    put_pair(text, "finish ", u32::from(flow), " ", u32::from(finish));
}

// `slot 0 flow 1 job 0 take 2`
#[tactic(auto, unfolding(rules::specs::Text::row_line, rules::specs::Fields::bytes_of))]
pub fn put_row_line<const N: usize>(text: &mut ArrayString<N>, row: Row)
    requires { array_string_len text.old + longest_line ≤ N }
    ensures bytes { text.new.bytes ≡ text.old.bytes ++ row_line (row_from row) }
    ensures length { array_string_len text.new ≤ array_string_len text.old + longest_line }
{
    put_number(text, "slot ", u32::from(row.slot));
    put_number(text, " flow ", u32::from(row.flow));
    put_pair(
        text,
        " job ",
        u32::from(row.job),
        " take ",
        u32::from(row.processors),
    );
}

// `refused 12 flow 0 job 255`
#[tactic(auto, unfolding(rules::specs::Text::refusal_line, rules::specs::Fields::bytes_of))]
pub fn put_refusal_line<const N: usize>(text: &mut ArrayString<N>, number: u8, flow: u8, job: u8)
    requires { array_string_len text.old + longest_line ≤ N }
    ensures bytes { text.new.bytes ≡ text.old.bytes ++ refusal_line number flow job }
    ensures length { array_string_len text.new ≤ array_string_len text.old + longest_line }
{
    put_number(text, "refused ", u32::from(number));
    put_pair(text, " flow ", u32::from(flow), " job ", u32::from(job));
}
