//! What follows from the promise of `feed`, and of `retire` and `close-book`, which are `feed` over their one line.
ghost use Rattle.rv_laws.specs.Feeds.{FeedsAreRuns, FeedsKeepLawful, RepliesAreRuns, FedBooksAreLawful, FedPullsAreShown, FedTroublesHaveCauses, FedPushesStand, FedClientsFollow, FedWritesAreRead};

use rv_base::{Sink, Source};
use rv_keeper::Place;

/// A run of `feed` over a place and a source that tell did not open its store, or is the run of a server over the first lines of the
/// source, from the book that the store kept to the one that it keeps; and what was written before the status's own text is the text of
/// its answers, or, where a write failed, a front of it.
pub fn feeds_are_runs<P: Place, S: Source, O: Sink>()
    ensures { FeedsAreRuns P.Place S.Source O.Sink }
{}

/// Over a place that tells, and whatever the source tells, the book at the end of a run of `feed` that opened its store is lawful and goes
/// on from the one that the store kept, and the store keeps it.
pub fn feeds_keep_lawful<P: Place, S: Source, O: Sink>()
    ensures { FeedsKeepLawful P.Place S.Source O.Sink }
{
    crate::runs::books_are_lawful();
}

/// A run of `retire` or of `close-book` over a place that tells did not open its store, or is the run of `feed` over the first line of any
/// bytes that begin with the line that it answers. So each of the other laws of runs of `feed` is one of it too.
pub fn replies_are_runs<P: Place, O: Sink>()
    ensures { RepliesAreRuns P.Place O.Sink }
{}

/// The book of such a run is lawful and goes on from the one that the store kept: each client's acts have the ids 1, 2, 3 and so on, and
/// the orders of each group's looks rise.
pub fn books_are_lawful<P: Place>()
    ensures { FedBooksAreLawful P.Place }
{
    crate::runs::books_are_lawful();
}

/// The patch of each pull that it answers, applied to the view that its cookie names, gives exactly what its user sees at that point.
pub fn pulls_are_shown<P: Place>()
    ensures { FedPullsAreShown P.Place }
{
    crate::runs::pulls_are_shown();
}

/// Where the place's count of faults stayed, and stands below its last value, no answer tells a trouble with what keeps the book.
pub fn troubles_have_causes<P: Place>()
    ensures { FedTroublesHaveCauses P.Place }
{
    crate::runs::troubles_have_causes();
}

/// Each mutation of a push that was answered as done stands in the book at the end, as an act of its user, group and client with its id;
/// but for an id of 0, which is skipped and stands nowhere.
pub fn pushes_stand<P: Place>()
    ensures { FedPushesStand P.Place }
{
    crate::runs::books_are_lawful();
    crate::runs::steps_stand();
    rv_history::laws::mutations_stay();
}

/// A client that begins with nothing, and applies the replies that it got, holds after each of its pulls exactly what its user sees at
/// that point of the run, and its group's last mutation ids there; whatever others asked, and whichever replies it lost.
pub fn clients_follow<P: Place>()
    ensures { FedClientsFollow P.Place }
{
    crate::runs::books_are_lawful();
    crate::runs::steps_show();
    rv_history::laws::closed_books_are_successive();
    rv_history::laws::clients_follow_on();
}

/// What one line wrote a later one reads: at the book at which a pull is answered stands each mutation of each push that was answered as
/// done at a line before it, and among the last mutation ids of its group there its client has one that is not below its own; but for an
/// id of 0, which is skipped and stands nowhere.
pub fn writes_are_read<P: Place>()
    ensures { FedWritesAreRead P.Place }
{
    crate::runs::books_are_lawful();
    crate::runs::pulls_are_shown();
    crate::runs::steps_stand();
    rv_history::laws::mutations_stay();
}
