//! What follows from the machine, as contracts of functions that do nothing: a check of the crate proves them.
ghost use Rattle.rv_history.specs.Clients.{ClientsFollow, ClientsFollowOn};
ghost use Rattle.rv_history.specs.Closing.{ClosedBooksGoOn};
ghost use Rattle.rv_history.specs.Machine.{ReplyText};
ghost use Rattle.rv_history.specs.Succession.{ClosedBooksAreSuccessive, MutationsStay};
ghost use Rattle.rv_history.specs.Properties.{IdsCountUp, OrdersRise, GroupsHaveOneUser, ClientsHaveOneGroup, RetiredGroupsRest, EntriesStandOnce, PushesKeepLaw, TurnsKeepLaw, PullsShow, PatchesShow, PatchesArePermitted, MutationsStand, PushesStand};

/// In a lawful book each client's acts have the ids 1, 2, 3 and so on.
pub fn ids_count_up()
    ensures { IdsCountUp }
{}

/// In a lawful book the orders of each group's looks rise, from above the one that its page has of the group.
pub fn orders_rise()
    ensures { OrdersRise }
{}

/// In a lawful book no group has two users.
pub fn groups_have_one_user()
    ensures { GroupsHaveOneUser }
{}

/// In a lawful book no client has two groups.
pub fn clients_have_one_group()
    ensures { ClientsHaveOneGroup }
{}

/// In a lawful book nothing of a group follows its retirement, whether an entry or the page retires it.
pub fn retired_groups_rest()
    ensures { RetiredGroupsRest }
{}

/// In a lawful book no entry stands twice.
pub fn entries_stand_once()
    ensures { EntriesStandOnce }
{}

/// A turn leaves a sound server sound, its book goes on by entries and closings, and its limit stays.
pub fn turns_keep_law()
    ensures { (write : ReplyText) → TurnsKeepLaw write }
{}

/// So do the turns of a push.
pub fn pushes_keep_law()
    ensures { (write : ReplyText) → PushesKeepLaw write }
{}

/// A mutation that is run or skipped stands in the book that is left, as an act of its user, group and client with its id, or the page says
/// that it had run for this user, group and client; but for an id of 0, which is skipped and stands nowhere.
pub fn mutations_stand()
    ensures { (write : ReplyText) → MutationsStand write }
{}

/// So does each mutation of a push that is not refused.
pub fn pushes_stand()
    ensures { (write : ReplyText) → PushesStand write }
{}

/// A patch names only what its user may know: each row that is put is one that the user sees at the book, and each key that is
/// deleted is that of a row that the user saw at the base.
pub fn patches_are_permitted()
    ensures { PatchesArePermitted }
{}

/// The patch since a place of a book, applied to what the user saw there, gives exactly what the user sees at its end; and the
/// patch without a base does so of any view.
pub fn patches_show()
    ensures { PatchesShow }
{}

/// The patch of a pull's reply, applied to the view that the request's cookie names, gives exactly what the user sees; where
/// the cookie names no kept look of the user, it begins with a clear and may be applied to any view. It names only what the user
/// sees, or saw at the base. Each last mutation id of the group is told or known by the cookie. A reply of the request's own cookie
/// tells nothing and leaves the book; any other names the look that it enters, and its order is above the request's and above the
/// group's last. The reply's text is what is written
/// of its cookie, ids and patch.
pub fn pulls_show()
    ensures { (write : ReplyText) → PullsShow write }
{}

/// A client that begins with nothing, applies each patch to the view that it holds under the cookie with which it asked, and keeps the
/// cookie that it is answered, holds after each of its pulls exactly what its user sees at the point of the book at which that pull was
/// answered, and the last mutation ids of its group there: whatever else the book has, and whichever replies it lost.
pub fn clients_follow()
    ensures { (write : ReplyText) → ClientsFollow write }
{}

/// So does a client whose pulls were answered at points of several books, one after another, as they are where a book is closed and a
/// new one goes on in its place: each opens with a page behind the places of those before it. A cookie of one book may be sent to
/// another.
pub fn clients_follow_on()
    ensures { (write : ReplyText) → ClientsFollowOn write }
{}

/// A lawful book goes on from the page that sums it up, one place after its last: the page is sound, ids, orders and versions go on from it, and
/// the rows are what they were.
pub fn closed_books_go_on()
    ensures { ClosedBooksGoOn }
{}

/// Books that go on from one another by entries and by closings are one after another: each opens with a page behind the places of those
/// before it.
pub fn closed_books_are_successive()
    ensures { ClosedBooksAreSuccessive }
{}

/// A mutation that is entered in a lawful book is so in each book that goes on from it by entries and by closings: its act stands there,
/// or the page says that it had run, with its client's group and the user of that.
pub fn mutations_stay()
    ensures { MutationsStay }
{}
