//! What follows for a standby that is given the cells of a book, as contracts of functions that do nothing: a check of the crate proves
//! them.
ghost use Rattle.rv_standby.specs.FollowingProperties.{EntriesAreFollowed, FrontsAreShown, PagesAreFollowed};

/// The page of a sound book is never refused by an empty standby.
pub fn pages_are_followed()
    ensures { PagesAreFollowed }
{}

/// The next entry of a sound book is never refused by a standby at a front of it, whose book is the next front then.
pub fn entries_are_followed()
    ensures { EntriesAreFollowed }
{}

/// A patch of a standby at a front of a book, applied to the view that the cookie names, gives what its user sees of that front.
pub fn fronts_are_shown()
    ensures { FrontsAreShown }
{}
