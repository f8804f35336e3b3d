//! What follows from the promise of `import`.
ghost use Rattle.rv_laws.specs.Imports.{ImportsAreRuns, ImportsEnterOnce};

use rv_base::{Sink, Source};
use rv_keeper::Place;

/// A run of `import` over a place and a source that tell did not open its store, or is an import of the bytes that the source held, from
/// the book that the store kept to the one that it keeps. At status 0 each of their records was entered or skipped.
pub fn imports_are_runs<P: Place, S: Source, O: Sink>()
    ensures { ImportsAreRuns P.Place S.Source O.Sink }
{}

/// Let nothing but imports of the same bytes have used the import's client in the book that a run of `import` began with. If that run
/// ended with status 0, and the next run over its store imports the same bytes again, this one begins with the book that was left, in
/// which the client's acts are just what the bytes ask for, and enters nothing, however it ends. The store `memory` alone begins with no
/// entry each time.
pub fn imports_enter_once<P: Place>()
    ensures { ImportsEnterOnce P.Place }
{
    crate::stores::runs_go_on::<P>();
    rv_import::laws::imports_act_once();
    rv_import::laws::imports_add_nothing();
}
