// The laws of jobs that are out.

ghost use Rattle.job_laws.specs.Standing.{ClaimsGiveJobsOut, JobsStand, OneIsOut};

/// In a sound run, what is out as a job is out as the same job after every event but a commit of it, accepted or refused.
pub fn jobs_stand()
    ensures { JobsStand }
{}

/// The job that a claim gives out is out with the next number, and no other with that.
pub fn claims_give_jobs_out()
    ensures given { ClaimsGiveJobsOut }
    ensures one { OneIsOut }
{}
