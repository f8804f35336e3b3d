//! What follows from the promise of `make`.
ghost use Rattle.rv_laws.specs.Makes.{SummariesAddUp};

/// The summary that a run of `make` writes at status 0 adds up: each of its requests was run, skipped, answered with a look or with its own
/// cookie, and the book has an entry for each that was run and for each look.
pub fn summaries_add_up()
    ensures { SummariesAddUp }
{}
