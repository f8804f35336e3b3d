//! What follows of runs over one store, one after the other, whatever each of them does.
ghost use Rattle.rv_laws.specs.Stores.{RunsGoOn};

use rv_keeper::Place;

/// Over a place that tells, the next run over a store begins with the settled book of the run before it: what was in doubt was dropped
/// or entered. The store `memory` alone begins with no entry each time.
pub fn runs_go_on<P: Place>()
    ensures { RunsGoOn P.Place }
{}
