// What stands in a table before its rows: head and finishes.
ghost use Rattle.std.specs.Prelude.{◌≡◌, ◌+◌, ◌*◌, ◌≤◌, length};
ghost use Rattle.std.proofs.lemmas.List.Edits.{sets};
ghost use Rattle.planner.specs.Head.{table_head_bytes, finish_bytes};

use book::bytes::Field;

// The version of the tables that are written.
const VERSION: u8 = 1;

// Where the rows of so many flows start: behind head and finishes.
pub fn rows_at(flows: usize) -> usize
    requires { flows ≤ 64 }
    ensures { result ≡ 8 + 2 * flows }
{
    8 + 2 * flows
}

// The head of a table: its whole length, version, processors and flows.
#[tactic(auto, using(crate::proofs::Assembly::head_stores))]
pub fn put_head(out: &mut [u8], size: u32, processors: u16, flows: u8)
    requires { 8 ≤ length out.old }
    ensures { out.new ≡ sets out.old 0 (table_head_bytes size processors flows) }
{
    size.write(out, 0);
    out[4] = VERSION;
    processors.write(out, 5);
    out[7] = flows;
}

// The finishes, in book order.
#[tactic(auto, using(crate::proofs::Assembly::finishes))]
pub fn put_finishes(out: &mut [u8], finishes: &[u16])
    requires { (length finishes.now ≤ 64) × (8 + 2 * length finishes.now ≤ length out.old) }
    ensures { out.new ≡ sets out.old 8 (finish_bytes finishes.now (length finishes.now)) }
{
    for (f, finish) in finishes.iter().enumerate() {
        finish.write(out, 8 + 2 * f);
    }
}
