// The chain of pseudo-jobs of a flow, rules 1 to 3.
#![tactic(auto)]

ghost use Rattle.std.specs.Prelude.{◌≡◌, ◌++◌, ℕ, ◌-◌, ◌<◌, ◌≤◌, length, get_or, drop, if◌then◌else◌};
ghost use Rattle.chain.specs.Jobs.{job_with, LastsAs, start_among, ends_by};

pub mod held;
pub mod ideal;

pub use held::Chain;
pub use ideal::{least_from, skip_ended};

// How many slots a job lasts, and what it takes in the last of them.
#[derive(Clone, Copy)]
pub struct Lasting {
    pub slots: u32,
    pub last: u32,
}

// A job of a flow on endless processors: it runs from its start to its end, takes `last` in its last slot and its cap
// in the others; and the least start from it on.
#[derive(Clone, Copy, Default)]
pub struct IdealJob {
    pub start: u32,
    pub end: u32,
    pub last: u32,
    pub cap: u32,
    pub first: u32,
}

// A part of a pseudo-job: a job, and what it takes.
#[derive(Clone, Copy, Default)]
pub struct Part {
    pub job: u8,
    pub take: u32,
}

// A pseudo-job: its width, its rate, and how many jobs take something.
#[derive(Clone, Copy)]
pub struct Run {
    pub width: u32,
    pub rate: u32,
    pub parts: usize,
}

// Rule 1: the whole slots of a job, and the rest in its last slot. One division for both: the rest is what the whole
// slots leave of the size.
pub fn lasts(size: u32, cap: u32) -> Lasting
    requires { (1 ≤ size) × (size ≤ 1000000) × (1 ≤ cap) }
    ensures { (p : ℕ) → LastsAs (job_with size cap p) result }
{
    let whole = size / cap;
    let rest = size - whole * cap;
    if rest == 0 {
        Lasting {
            slots: whole,
            last: cap,
        }
    } else {
        Lasting {
            slots: whole + 1,
            last: rest,
        }
    }
}

// The largest end among the predecessors below n: a step for each of them, from the lowest set bit to the next.
pub fn start_of(ends: &[u32], predecessors: u64, n: usize) -> u32
    requires { (n ≤ 64) × (n ≤ length ends.now) }
    ensures { result ≡ start_among predecessors ends.now n }
{
    let mut start: u32 = 0;
    let mut bits = predecessors;
    while bits != 0 {
        let job = bits.trailing_zeros() as usize;
        if n <= job {
            return start;
        }
        start = start.max(ends[job]);
        bits &= bits - 1;
    }
    start
}

// Rule 2 by itself, for any durations: the ends of the jobs below n, by their predecessors and slots. The ends of lower
// jobs come from the call below.
pub fn ends(predecessors: &[u64], slots: &[u32], n: usize, all: &mut [u32])
    requires { (n ≤ 64) × (n ≤ length predecessors.now) × (n ≤ length slots.now) × (n ≤ length all.old) × ((i : ℕ) → i < n → get_or slots.now i 0 ≤ 1000000) }
    ensures { all.new ≡ ends_by predecessors.now slots.now n ++ drop n all.old }
{
    if n == 0 {
        return;
    }
    let k = n - 1;
    ends(predecessors, slots, k, all);
    let start = start_of(all, predecessors[k], k);
    all[k] = start + slots[k];
}

// The first n jobs' starts: each stands the job's slots before its end.
pub fn starts_of(ends: &[u32], slots: &[u32], n: usize, starts: &mut [u32])
    requires { (n ≤ length ends.now) × (n ≤ length slots.now) × (n ≤ length starts.old) × ((i : ℕ) → i < n → get_or slots.now i 0 ≤ get_or ends.now i 0) }
    ensures { (i : ℕ) → i < n → get_or starts.new i 0 ≡ get_or ends.now i 0 - get_or slots.now i 0 }
{
    for i in 0..n {
        starts[i] = ends[i] - slots[i];
    }
}

// One of two numbers. A choice, not a branch: which job changes next is hard to foresee.
pub fn choose(first: bool, a: u32, b: u32) -> u32
    ensures { result ≡ (if first then a else b) }
{
    if first { a } else { b }
}
