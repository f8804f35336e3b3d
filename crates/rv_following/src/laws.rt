//! What follows for a follower that is given the lines of a book, as contracts of functions that do nothing: a check of the crate proves
//! them.
ghost use Rattle.rv_following.specs.FollowProperties.{CellsAreRead, LinesAreFollowed, NoLineIsRefused, ShippedLinesAreRead, WholePagesAreRead};

/// The line of a cell whose key and body are texts is read as that cell.
pub fn cells_are_read()
    ensures { CellsAreRead }
{}

/// The line of a whole page is read as that.
pub fn whole_pages_are_read()
    ensures { WholePagesAreRead }
{}

/// After the first lines of a sound book a follower has gathered some cells of its page, or its book is a front of that book.
pub fn lines_are_followed()
    ensures { LinesAreFollowed }
{}

/// The next line of a sound book is never refused by a follower that took those before it.
pub fn no_line_is_refused()
    ensures { NoLineIsRefused }
{}

/// Wherever the bytes of the lines of a book are cut, the lines that end before are read as the first of what the book says.
pub fn shipped_lines_are_read()
    ensures { ShippedLinesAreRead }
{}
