//! What a search is asked for.

ghost use Rattle.std.specs.Prelude.{◌≡◌};
ghost use Rattle.pool_core.specs.Job as jobs;
ghost use Rattle.pool_core.specs.Job.{IsJob};

use dyadic_square::Square;
use site_model::{Instance, Site};
use std::alloc::AllocError;
use std::marker::Model;

/// An instance, and the settings of the search over it.
#[derive(Drop)]
pub struct Job {
    /// The instance whose best site is sought.
    pub instance: Instance,
    /// The gap asked, in cost units, 0 to 2^62: a square is settled where its bound and the gap
    /// reach the least upper cost.
    pub gap: i64,
    /// How many leases may be given, 0 to 1,000,000.
    pub budget: u32,
    /// How many squares may be open, 1 to 1,000,000.
    pub pool: u32,
    /// The starting square of the instance.
    pub root: Square,
    /// A permitted site with its upper cost, in cost units, from which the search
    /// for a better one sets out.
    pub start: Option<(Site, i64)>,
}

impl Model for Job {
    ghost use Rattle.pool_core.specs.Job as jobs;

    ghost Value = { jobs.Job };

    ghost use Rattle.pool_core.specs.JobFields.{job_of, JobFits};

    ghost view = { job_of };

    ghost invariant = { JobFits };
}

/// A copy is the same job. It takes memory, so it may fail.
impl Clone for Job {
    ghost is_clone = { λ job copy. copy ≡ job };

    fn clone(&self) -> Result<Job, AllocError> {
        let instance = self.instance.clone()?;
        Ok(Job {
            instance,
            gap: self.gap,
            budget: self.budget,
            pool: self.pool,
            root: self.root,
            start: self.start,
        })
    }
}

impl Job {
    /// The job of finding the best site of an instance, within the gap, with this many leases and
    /// open squares.
    pub fn new(
        instance: Instance,
        gap: i64,
        budget: u32,
        pool: u32,
        start: Option<(Site, i64)>,
    ) -> Job
        requires { IsJob (record {
          instance = instance;
          gap = gap;
          budget = budget;
          pool = pool;
          start = start;
        }) }
        ensures { result ≡ record {
          instance = instance;
          gap = gap;
          budget = budget;
          pool = pool;
          start = start;
        } }
    {
        let root = instance.root();
        Job {
            instance,
            gap,
            budget,
            pool,
            root,
            start,
        }
    }
}
