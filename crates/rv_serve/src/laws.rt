//! What follows from the clauses of serving: each law is the contract of a function that does nothing.
ghost use Rattle.rv_serve.specs.Properties.{ConnsAreRuns, TalksAreRuns};

use rv_net::Listen;
use rv_turns::Turns;

/// What was answered on a connection is a run of turns, one after another, of what its requests asked.
pub fn talks_are_runs<T: Turns>()
    ensures { TalksAreRuns T.takes }
{}

/// So is all that was answered on the connections of a listener, in the order in which they were served.
pub fn conns_are_runs<T: Turns, L: Listen>()
    ensures { ConnsAreRuns T.takes L.In.Source L.Out.Sink }
{}
