// A flow on endless processors, and the pseudo-jobs that it is walked through.
ghost use Rattle.chain.specs.Alone.{ChainInRange};

use crate::ideal::{ends, least_from, path_of};
use crate::{IdealJob, Part, Run};
use book::JobRecord;

// A flow's jobs on endless processors, and its path.
#[derive(Clone, Copy)]
pub struct Chain<'a> {
    pub jobs: &'a [IdealJob],
    pub path: u32,
    pub ghost in_range: { ChainInRange jobs.now },
}

impl<'a> Chain<'a> {
    ghost use Rattle.std.specs.Prelude.{◌≡◌, ℕ, ◌<◌, ◌≤◌, length, get_or};
    ghost use Rattle.rules.specs.Book.{Flow};
    ghost use Rattle.chain.specs.Runs.{RunAt};
    ghost use Rattle.chain.specs.Alone.{no_ideal, names_in, takes_in, JobsFit, JobsOf, ChainOf, EndedTo};

    // Rules 1 and 2, made once for a flow: its jobs' values stand in the lent list.
    pub fn of(jobs: &[JobRecord], room: &'a mut [IdealJob]) -> Self
        requires { JobsFit jobs.now × (length jobs.now ≤ length room.old) }
        ensures { (w : Flow) → JobsOf w jobs.now → ChainOf w result.jobs.now result.path }
    {
        let ideal = &mut room[..jobs.len()];
        ends(jobs, jobs.len(), ideal);
        least_from(ideal);
        Chain {
            path: path_of(ideal),
            jobs: ideal,
        }
    }

    // Rule 3: the pseudo-job that begins at ideal slot t, its parts in the lent list. The jobs below `from` have ended;
    // those from which on none has begun are not looked at. A job that takes nothing is stored too and written over by
    // the next: which job takes something is hard to foresee, and so no branch asks for it.
    pub fn run_at(&self, from: usize, t: u32, parts: &mut [Part]) -> Run
        requires { (length self.now.jobs.now ≤ length parts.old) × (t < self.now.path) × EndedTo self.now.jobs.now from t }
        ensures { (w : Flow) → ChainOf w self.now.jobs.now self.now.path → RunAt w t (names_in parts.new) (takes_in parts.new) result }
    {
        let mut width = self.path - t;
        let mut rate: u32 = 0;
        let mut count: usize = 0;
        for i in from..self.jobs.len() {
            let job = self.jobs[i];
            if t < job.first {
                return Run {
                    width: width.min(job.first - t),
                    rate,
                    parts: count,
                };
            }
            let take = job.take_at(t);
            let part = &mut parts[count];
            part.job = i as u8;
            part.take = take;
            count += usize::from(0 < take);
            rate += take;
            width = job.until_change(t, width);
        }
        Run {
            width,
            rate,
            parts: count,
        }
    }
}
