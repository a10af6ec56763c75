//! What the rule of the board comes to for the jobs.
ghost use Rattle.native_board.specs.Rules.{Kept};
ghost use Rattle.native_board.specs.Taken.{TakenOnce};
ghost use Rattle.native_board.specs.Lost.{NothingIsLost};

/// Between any two steps of any threads, a worker has begun with each job that was posted to its cell at most once:
/// it has begun with as many as were posted, or with all but the last.
pub fn each_job_is_taken_at_most_once()
    ensures { (s : _) → Kept s → TakenOnce s }
{}

/// Between any two steps of any threads, a result that the hub doesn't know of is behind a raised signal, or its worker
/// will raise it, or the sweep has not reached its cell; and it is what its job comes to.
pub fn no_result_is_lost()
    ensures { (s : _) → Kept s → NothingIsLost s }
{}
