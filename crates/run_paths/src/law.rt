// How a run goes on, and how its log is tested.

ghost use Rattle.run_paths.specs.Handing.{Examples, IsTested};
ghost use Rattle.run_paths.specs.Paths.{NoneCame, NoneLead, OneMoreLeads};

/// For whoever goes on event by event: no events lead from a state to itself, and one event more leads to what comes of it, if what is handed in with it
/// is true of its job.
pub fn paths_go_on()
    ensures none { NoneLead }
    ensures one_more { OneMoreLeads }
{}

/// A run that was reached, and to which no event came yet, is in the first state of its cluster.
pub fn none_came()
    ensures { NoneCame }
{}

/// Whether each job was handed in once can be tested by the log; and what comes of it for worked logs.
pub fn handing_is_tested()
    ensures tested { IsTested }
    ensures examples { Examples }
{}
