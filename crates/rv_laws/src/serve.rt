//! What follows from the promise of `serve`.
ghost use Rattle.rv_laws.specs.Serves.{ServesAreRuns, ServeBooksAreLawful, ServePullsAreShown, ServeTroublesHaveCauses, ServeKeepersStay, ServePushesStand, ServeClientsFollow, ServeWritesAreRead};

use rv_base::Sink;
use rv_keeper::{Keeper, Place};
use rv_net::{Listen, Net, PokeListen};

/// A run of `serve` that ended with status 0 or 7 served the listeners of its net side by side, at a desk that was opened with the book
/// that the store kept and closed with the one that it keeps.
pub fn serves_are_runs<
    K: Keeper,
    P: Place<Kept = K>,
    L: Listen,
    W: PokeListen,
    N: Net<Listen = L, Pokes = W>,
    O: Sink,
>()
    ensures { ServesAreRuns P.Place K.Keeper N.Net L.Listen L.In.Source L.Out.Sink W.PokeListen W.Link.PokeLink O.Sink }
{}

/// The book of such a run is lawful and goes on from the one that the store kept: each client's acts have the ids 1, 2, 3 and so on, and
/// the orders of each group's looks rise.
pub fn books_are_lawful<K: Keeper, P: Place<Kept = K>, L: Listen, N: Net<Listen = L>>()
    ensures { ServeBooksAreLawful P.Place K.Keeper N.Net L.Listen L.In.Source L.Out.Sink }
{
    crate::listeners::books_are_lawful::<K, L>();
}

/// The patch of each pull that was answered, applied to the view that its cookie names, gives exactly what its user sees at a point of that
/// book.
pub fn pulls_are_shown<K: Keeper, P: Place<Kept = K>, L: Listen, N: Net<Listen = L>>()
    ensures { ServePullsAreShown P.Place K.Keeper N.Net L.Listen L.In.Source L.Out.Sink }
{
    crate::listeners::pulls_are_shown::<K, L>();
}

/// Where the place's count of faults stayed, and stands below its last value, no answer tells a trouble with what keeps the book.
pub fn troubles_have_causes<K: Keeper, P: Place<Kept = K>, L: Listen, N: Net<Listen = L>>()
    ensures { ServeTroublesHaveCauses P.Place K.Keeper N.Net L.Listen L.In.Source L.Out.Sink }
{
    crate::listeners::troubles_have_causes::<K, L>();
}

/// Where the place tells, no answer says that another changed what is kept.
pub fn keepers_stay<K: Keeper, P: Place<Kept = K>, L: Listen, N: Net<Listen = L>>()
    ensures { ServeKeepersStay P.Place K.Keeper N.Net L.Listen L.In.Source L.Out.Sink }
{
    crate::listeners::keepers_stay::<K, L>();
}

/// Each mutation of a push that was answered as done stands in the book at the end, as an act of its user, group and client with its id;
/// but for an id of 0, which is skipped and stands nowhere.
pub fn pushes_stand<K: Keeper, P: Place<Kept = K>, L: Listen, N: Net<Listen = L>>()
    ensures { ServePushesStand P.Place K.Keeper N.Net L.Listen L.In.Source L.Out.Sink }
{
    crate::listeners::pushes_stand::<K, L>();
}

/// A client that begins with nothing, and applies the replies that it got over any connections, holds after each of its pulls exactly what
/// its user sees at a point of the book at the end that begins with all that its worker had seen, and its group's last mutation ids there.
pub fn clients_follow<K: Keeper, P: Place<Kept = K>, L: Listen, N: Net<Listen = L>>()
    ensures { ServeClientsFollow P.Place K.Keeper N.Net L.Listen L.In.Source L.Out.Sink }
{
    crate::listeners::books_are_lawful::<K, L>();
    crate::listeners::clients_follow::<K, L>();
}

/// What one worker wrote any worker reads: where a pull was answered at the book as it was when a push had been answered as done, or at a
/// longer one, each mutation of the push stands there, and among the last mutation ids of its group there its client has one that is not
/// below its own; but for an id of 0, which is skipped and stands nowhere.
pub fn writes_are_read<K: Keeper, P: Place<Kept = K>, L: Listen, N: Net<Listen = L>>()
    ensures { ServeWritesAreRead P.Place K.Keeper N.Net L.Listen L.In.Source L.Out.Sink }
{
    crate::listeners::writes_are_read::<K, L>();
}
