// The free slots of the plan: those that a target's cards take, put into its share of the list.
ghost use Rattle.std.specs.Prelude.{◌≡◌, ◌*◌, ◌≤◌, length};
ghost use Rattle.shares.specs.parts.Columns.{columns};
ghost use Rattle.racks.specs.Job.{racks_of, Sound};
ghost use Rattle.racks.specs.parts.Legal.{Legal};
ghost use Rattle.plans.specs.Plan.{plan};
ghost use Rattle.shares.specs.parts.Shares.{start_of, opens_to, Stopped};

use racks::Job;
use spans::parts::Range;

// The free slots of the plan, each target's into its share of the list.
pub fn put_openings(job: Job, places: &[u16], stops: &[u16; Job::MAX_RACKS], lent: &mut [u16])
    requires { Sound job × Legal (racks_of job) places.now × Stopped (racks_of job) places.now stops.now × (2 * length (plan (racks_of job) places.now) ≤ length lent.old) }
    ensures { lent.new ≡ columns 1 (length (racks_of job)) (start_of (racks_of job) places.now) (opens_to (racks_of job) places.now) lent.old }
{
    let mut k: usize = 0;
    let mut low: usize = 0;
    for p in 0..job.racks {
        let stop = stops[p] as usize;
        spans::parts::put_hits(places, low, Range::free(), lent, 1, k, stop);
        k = stop;
        low = job.ends[p] as usize;
    }
}
