//! What follows of a run of `follow` that is told the lines of a book.
ghost use Rattle.rv_laws.specs.Follows.{FollowedBooksAreFronts, FollowedPullsAreShown};

/// Each pull that is answered, where the lines before it that tell of the book are the first of a sound book's, is answered at a front of
/// that book: the patch, applied to the view that the cookie names, gives exactly what the user sees of that front, the ids are those of
/// the user's group there, and the order is not below the request's.
pub fn pulls_are_shown()
    ensures { FollowedPullsAreShown }
{}

/// Where all lines that tell of the book are the first of a sound book's, and no page is begun, the book at the end is a front of that book.
pub fn books_are_fronts()
    ensures { FollowedBooksAreFronts }
{}
