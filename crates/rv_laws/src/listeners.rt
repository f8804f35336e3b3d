//! What follows of listeners that are served side by side, which is a part of the promise of `serve`.
ghost use Rattle.rv_accounts.specs.File.{AccountsServed};
ghost use Rattle.rv_cli.specs.Serving.{ServedBooksAreLawful, ServedKeepersStay, ServedPullsAreShown, ServedTroublesHaveCauses, TurnsStand};
ghost use Rattle.rv_laws.specs.Listeners.{ServedPushesStand, ServedClientsFollow, ServedWritesAreRead};

use rv_keeper::Keeper;
use rv_net::Listen;

/// What is answered over the connections of listeners that are served side by side stands in one book: each turn began at a front of it
/// that its seat had seen, or a longer one, and ended at one.
pub fn turns_stand<K: Keeper, L: Listen>()
    ensures { (accounts : AccountsServed) → TurnsStand K.Keeper L.Listen L.In.Source L.Out.Sink accounts }
{}

/// In that book each client's acts have the ids 1, 2, 3 and so on, and the orders of each group's looks rise.
pub fn books_are_lawful<K: Keeper, L: Listen>()
    ensures { (accounts : AccountsServed) → ServedBooksAreLawful K.Keeper L.Listen L.In.Source L.Out.Sink accounts }
{
    rv_history::laws::ids_count_up();
    rv_history::laws::orders_rise();
}

/// The patch of each pull that was answered so, applied to the view that its cookie names, gives exactly what the user sees at a point of
/// that book.
pub fn pulls_are_shown<K: Keeper, L: Listen>()
    ensures { (accounts : AccountsServed) → ServedPullsAreShown K.Keeper L.Listen L.In.Source L.Out.Sink accounts }
{
    rv_history::laws::pulls_show();
}

/// An answer that tells a trouble with what keeps the book comes only where a fault of that rose.
pub fn troubles_have_causes<K: Keeper, L: Listen>()
    ensures { (accounts : AccountsServed) → ServedTroublesHaveCauses K.Keeper L.Listen L.In.Source L.Out.Sink accounts }
{}

/// Where the keeper tells what it holds as the room is closed, no answer says that another changed what is kept.
pub fn keepers_stay<K: Keeper, L: Listen>()
    ensures { (accounts : AccountsServed) → ServedKeepersStay K.Keeper L.Listen L.In.Source L.Out.Sink accounts }
{}

/// Each mutation of a push that was answered as done over a connection of listeners that are served side by side stands in the book at the
/// end, as an act of its user, group and client with its id; but for an id of 0, which is skipped and stands nowhere.
pub fn pushes_stand<K: Keeper, L: Listen>()
    ensures { (accounts : AccountsServed) → ServedPushesStand K.Keeper L.Listen L.In.Source L.Out.Sink accounts }
{
    turns_stand::<K, L>();
    rv_history::laws::mutations_stand();
}

/// A client that begins with nothing, and applies the replies that it got over any connections, holds after each of its pulls exactly what
/// its user sees at a point of the book at the end that begins with all that its worker had seen, and its group's last mutation ids there.
pub fn clients_follow<K: Keeper, L: Listen>()
    ensures { (accounts : AccountsServed) → ServedClientsFollow K.Keeper L.Listen L.In.Source L.Out.Sink accounts }
{
    turns_stand::<K, L>();
    rv_history::laws::pulls_show();
    rv_history::laws::clients_follow();
}

/// What one seat wrote any seat reads: where a pull was answered at the book as it was when a push had been answered as done, or at a longer
/// one, each mutation of the push stands there, and among the last mutation ids of its group there its client has one that is not below its
/// own; but for an id of 0, which is skipped and stands nowhere.
pub fn writes_are_read<K: Keeper, L: Listen>()
    ensures { (accounts : AccountsServed) → ServedWritesAreRead K.Keeper L.Listen L.In.Source L.Out.Sink accounts }
{
    turns_stand::<K, L>();
    rv_history::laws::mutations_stand();
    rv_history::laws::pulls_show();
}
