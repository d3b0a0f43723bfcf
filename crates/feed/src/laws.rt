// Each of these functions does nothing but state a law of the jobs in its contract.
ghost use Rattle.feed.specs.Laws.{WholeByAccesses, RefusedJobsWriteNothing, RefusedJobsOnlyRead, OneToSixAccesses, UndoTakesATrimBack, SetpointIsStartPlusPile, LimitsBetweenJobs, FreshIsFit};

pub fn accesses_in_a_row_do_the_job_whole()
    ensures { WholeByAccesses }
{}

pub fn refused_jobs_write_nothing()
    ensures { RefusedJobsWriteNothing }
{}

pub fn refused_jobs_only_read()
    ensures { RefusedJobsOnlyRead }
{}

pub fn a_job_makes_one_to_six_accesses()
    ensures { OneToSixAccesses }
{}

pub fn undo_takes_a_trim_back()
    ensures { UndoTakesATrimBack }
{}

pub fn setpoint_is_start_plus_pile()
    ensures { SetpointIsStartPlusPile }
{}

pub fn limits_hold_between_jobs()
    ensures { LimitsBetweenJobs }
{}

pub fn a_job_can_start_on_a_fresh_board()
    ensures { FreshIsFit }
{}
