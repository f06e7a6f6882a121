//! A trail that waits between two solves goes back to what stands for good.
ghost use Rattle.bs_solve.specs.Pausing.{GoesToRest};

use bs_watch::Watch;

/// Nothing is assigned any more but what stands for good.
pub fn rest(watch: &mut Watch)
    ensures { GoesToRest watch.old watch.new }
{
    watch.cancel_to(0);
}
