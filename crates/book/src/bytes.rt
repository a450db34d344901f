// Fields of a slice of bytes, big-endian, and the work area.
ghost use Rattle.std.specs.Prelude.{◌≡◌, ◌+◌, ◌≤◌, length, ℕ};
ghost use Rattle.std.proofs.lemmas.List.Edits.{sets};
ghost use Rattle.rules.specs.Fields.{field, bytes_of};
ghost use Rattle.rules.specs.Limits.{slots, work_bytes};
ghost use Rattle.rules.specs.Rows.{work_zero};

// A number that stands in a field of so many bytes.
pub trait Field: Copy {
    ghost width: { ℕ };

    ghost value: { Self → ℕ };

    // The number that stands at `at`.
    fn read(s: &[u8], at: usize) -> Self
        requires { at + width ≤ length s.now }
        ensures { value result ≡ field width s.now at };

    // The number written at `at`.
    fn write(self, s: &mut [u8], at: usize)
        requires { at + width ≤ length s.old }
        ensures { s.new ≡ sets s.old at (bytes_of width (value self)) };
}

#[tactic(auto, unfolding(rules::specs::Fields::field, rules::specs::Fields::bytes_of))]
// The bytes are listed one by one, since a slice is no array, and the conversion of one to the other can fail.
impl Field for u16 {
    ghost width = { 2 };

    ghost value = { λ x. x };

    fn read(s: &[u8], at: usize) -> u16 {
        u16::from_be_bytes([s[at], s[at + 1]])
    }

    fn write(self, s: &mut [u8], at: usize) {
        store(s, at, &self.to_be_bytes());
    }
}

#[tactic(auto, unfolding(rules::specs::Fields::field, rules::specs::Fields::bytes_of))]
impl Field for u32 {
    ghost width = { 4 };

    ghost value = { λ x. x };

    fn read(s: &[u8], at: usize) -> u32 {
        u32::from_be_bytes([s[at], s[at + 1], s[at + 2], s[at + 3]])
    }

    fn write(self, s: &mut [u8], at: usize) {
        store(s, at, &self.to_be_bytes());
    }
}

#[tactic(auto, unfolding(rules::specs::Fields::field, rules::specs::Fields::bytes_of))]
impl Field for u64 {
    ghost width = { 8 };

    ghost value = { λ x. x };

    fn read(s: &[u8], at: usize) -> u64 {
        u64::from_be_bytes([
            s[at],
            s[at + 1],
            s[at + 2],
            s[at + 3],
            s[at + 4],
            s[at + 5],
            s[at + 6],
            s[at + 7],
        ])
    }

    fn write(self, s: &mut [u8], at: usize) {
        store(s, at, &self.to_be_bytes());
    }
}

// Bytes stored one after the other.
fn store(s: &mut [u8], at: usize, bytes: &[u8])
    requires { at + length bytes.now ≤ length s.old }
    ensures { s.new ≡ sets s.old at bytes.now }
{
    s[at..at + bytes.len()].copy_from_slice(bytes);
}

// The bytes of the slots in a work area. Everywhere it stays a lent slice with a clause on its length: in a struct each
// contract would have to say, in place of that clause, that the slice in it is still the same.
pub const WORK_BYTES: usize = 16384;

// The slots of a work area made zero.
pub fn clear(work: &mut [u8])
    requires { work_bytes ≤ length work.old }
    ensures { work.new ≡ work_zero slots work.old }
{
    work[..WORK_BYTES].fill(0);
}
