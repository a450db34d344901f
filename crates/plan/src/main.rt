// Reads a book from standard input and prints the plan. `put_answer` is proved to put the text that the rules give for
// its input. `main`, which reads, calls it and writes, has no contract: it is proved to be safe and to end, and nothing
// says what it reads or writes. A read that fails counts as the end of the input; a book states its length, so one that
// is cut short by it is turned down by 1. A write that fails is told in a line on standard error. The exit status is 0
// in either case.
#![tactic(auto)]

ghost use Rattle.std.specs.Prelude.{◌≡◌, ◌+◌, ◌≤◌, ◌++◌, length};
ghost use Rattle.arrayvec.specs.ArrayString.{array_string_len};
ghost use Rattle.rules.specs.Limits.{work_bytes};
ghost use Rattle.plan_text.specs.Printed.{lent_bytes, text_bytes, printed, Prints};

use arrayvec::ArrayString;
use book::bytes::WORK_BYTES;
use plan_text::lines;
use rules::{Fault, PlanAnswer};

// The descriptors of standard input, standard output and standard error.
const STDIN_FILENO: i32 = 0;

const STDOUT_FILENO: i32 = 1;

const STDERR_FILENO: i32 = 2;

// The bytes lent for a book, and as many for the table.
const LENT_BYTES: usize = 65536;

// One byte more than a book may have tells a longer input.
const INPUT_BYTES: usize = LENT_BYTES + 1;

// Room for the text of any answer.
const TEXT_BYTES: usize = 720896;

// A calendar that has no windows.
const NO_WINDOWS: [u8; 6] = [0, 0, 0, 6, 1, 0];

// The planner's answer to an input, with a calendar that has no windows; one that is longer than the bytes lent for a
// book is turned down by 1.
fn plan_input(input: &[u8], output: &mut [u8], work: &mut [u8]) -> PlanAnswer
    requires { (length output.old ≡ lent_bytes) × (work_bytes ≤ length work.old) }
    ensures { Prints (printed input.now) output.new result }
{
    if LENT_BYTES < input.len() {
        return Fault::BookLength.nowhere().into();
    }
    planner::plan_book(input, &NO_WINDOWS, output, work)
}

// The text for an input, put at the end of a text.
fn put_answer<const N: usize>(input: &[u8], text: &mut ArrayString<N>)
    requires { array_string_len text.old + text_bytes ≤ N }
    ensures { text.new.bytes ≡ text.old.bytes ++ printed input.now }
{
    let mut table = [0u8; LENT_BYTES];
    let mut work = [0u8; WORK_BYTES];
    let answer = plan_input(input, &mut table, &mut work);
    let bytes = answer.length as usize;
    lines::put_text(text, &table[..bytes], answer);
}

// Writes the text, or says on standard error that it could not. Reading and writing are not std's, which try again
// after a signal: what the program prints may not change.
fn write_text(text: &[u8]) {
    if !io::write_all(STDOUT_FILENO, text) {
        io::write_all(STDERR_FILENO, b"plan: could not write the whole answer\n");
    }
}

fn main() {
    let mut input = [0u8; INPUT_BYTES];
    let mut text = ArrayString::<TEXT_BYTES>::new();
    let read = io::read_full(STDIN_FILENO, &mut input);
    put_answer(&input[..read], &mut text);
    write_text(text.as_str().as_bytes());
}
