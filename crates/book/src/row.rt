// A row of a table, and its six bytes.
ghost use Rattle.std.specs.Prelude.{◌≡◌, ◌+◌, ◌≤◌, length};
ghost use Rattle.std.proofs.lemmas.List.Edits.{sets};
ghost use Rattle.rules.specs.Table.{row_at, row_bytes};
ghost use Rattle.book.specs.Rows.{row_from};

use crate::bytes::Field;

// So many processors at work on a job of a flow in a slot.
#[derive(Clone, Copy, PartialEq, Eq)]
pub struct Row {
    pub slot: u16,
    pub flow: u8,
    pub job: u8,
    pub processors: u16,
}

impl Row {
    // The bytes of a row.
    pub const SIZE: usize = 6;

    // The row that stands at `at`.
    #[tactic(auto, unfolding(rules::specs::Table::row_at))]
    pub fn read(s: &[u8], at: usize) -> Self
        requires { at + 6 ≤ length s.now }
        ensures { row_from result ≡ row_at s.now at }
    {
        Self {
            slot: u16::read(s, at),
            flow: s[at + 2],
            job: s[at + 3],
            processors: u16::read(s, at + 4),
        }
    }

    // The row written at `at`.
    pub fn write(self, s: &mut [u8], at: usize)
        requires { at + 6 ≤ length s.old }
        ensures { s.new ≡ sets s.old at (row_bytes (row_from self)) }
    {
        self.slot.write(s, at);
        s[at + 2] = self.flow;
        s[at + 3] = self.job;
        self.processors.write(s, at + 4);
    }
}
