// Rules 1 and 2 for the jobs of a flow: when each starts and ends on endless processors, and what it takes in its
// slots.
ghost use Rattle.std.specs.Prelude.{◌≡◌, ℕ, ◌+◌, ◌<◌, ◌≤◌, map, length, get_or, take, drop};
ghost use Rattle.rules.specs.Walks.{max_to};
ghost use Rattle.rules.specs.Book.{Flow};
ghost use Rattle.chain.specs.Jobs.{start_among};
ghost use Rattle.chain.specs.Runs.{take_between, NextChange, LeastFrom};
ghost use Rattle.chain.specs.Alone.{no_ideal, starts_in, ends_in, with_first, JobsLast, JobsOf, AloneTo};

use crate::{IdealJob, choose, lasts};
use book::JobRecord;

impl IdealJob {
    // What the job takes in ideal slot t.
    pub fn take_at(self, t: u32) -> u32
        ensures { result ≡ take_between self.start self.end self.last self.cap t }
    {
        let left = self.end.wrapping_sub(t);
        let working = choose(left == 1, self.last, self.cap);
        let take = choose(self.end <= t, 0, working);
        choose(t < self.start, 0, take)
    }

    // How many slots from ideal slot t on the job's take is unchanged, where at most `limit` are of interest. The
    // greatest number stands for a change that never comes, so that no branch asks for it.
    pub fn until_change(self, t: u32, limit: u32) -> u32
        requires { (self.start < self.end) × (1 ≤ self.last) × (1 ≤ self.cap) × (1 ≤ limit) × (t + limit ≤ 4294967295) }
        ensures { NextChange (take_between self.start self.end self.last self.cap) t limit result }
    {
        let turn = choose(self.last == self.cap, self.end, self.end - 1);
        let running = choose(t < turn, turn, self.end);
        let next = choose(t < self.start, self.start, running);
        let cut = choose(self.end <= t, u32::MAX, next);
        (cut - t).min(limit)
    }
}

// The largest end among a job's predecessors, of the jobs below it: a step for each of them, from the lowest set bit to
// the next. No iterator goes over the set bits of a number, so they are taken off one by one.
pub fn start_of(jobs: &[IdealJob], predecessors: u64) -> u32
    requires { length jobs.now ≤ 64 }
    ensures { result ≡ start_among predecessors (ends_in jobs.now) (length jobs.now) }
{
    let mut start: u32 = 0;
    let mut bits = predecessors;
    while bits != 0 {
        let Some(job) = jobs.get(bits.trailing_zeros() as usize) else {
            return start;
        };
        start = start.max(job.end);
        bits &= bits - 1;
    }
    start
}

// Rules 1 and 2 for the jobs below n. Those of lower jobs come from the call below: recursion on the job number, a form
// that a rule of the project names.
pub fn ends(jobs: &[JobRecord], n: usize, ideal: &mut [IdealJob])
    requires { JobsLast (take n jobs.now) × (n ≤ length jobs.now) × (n ≤ length ideal.old) }
    ensures alone { (w : Flow) → JobsOf w jobs.now → AloneTo w n ideal.new }
    ensures rest { drop n ideal.new ≡ drop n ideal.old }
{
    if n == 0 {
        return;
    }
    let k = n - 1;
    ends(jobs, k, ideal);
    let job = jobs[k];
    let cap = u32::from(job.cap);
    let start = start_of(&ideal[..k], job.predecessors);
    let lasting = lasts(job.size, cap);
    ideal[k] = IdealJob {
        start,
        end: start + lasting.slots,
        last: lasting.last,
        cap,
        first: start,
    };
}

// The least start from each job on, from the last job down.
pub fn least_from(jobs: &mut [IdealJob])
    ensures kept { map (with_first 0) jobs.new ≡ map (with_first 0) jobs.old }
    ensures least { (i : ℕ) → i < length jobs.old → LeastFrom (starts_in jobs.old) (length jobs.old) i (get_or jobs.new i no_ideal).first }
{
    let mut least = u32::MAX;
    for i in (0..jobs.len()).rev() {
        least = least.min(jobs[i].start);
        jobs[i].first = least;
    }
}

// The first job from `from` on that has not ended at t.
pub fn skip_ended(jobs: &[IdealJob], from: usize, t: u32) -> usize
    requires { from ≤ length jobs.now }
    ensures { (result ≤ length jobs.now) × (from ≤ result) × ((i : ℕ) → from ≤ i → i < result → (get_or jobs.now i no_ideal).end ≤ t) }
{
    for i in from..jobs.len() {
        if t < jobs[i].end {
            return i;
        }
    }
    jobs.len()
}

// The largest end.
#[tactic(auto, using(crate::proofs::Alone::max_none, crate::proofs::Alone::max_more))]
pub fn path_of(jobs: &[IdealJob]) -> u32
    ensures { result ≡ max_to (λ i. (get_or jobs.now i no_ideal).end) (length jobs.now) }
{
    let mut path: u32 = 0;
    for job in jobs {
        path = path.max(job.end);
    }
    path
}
