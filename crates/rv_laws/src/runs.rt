//! What follows of each run over lines, whoever takes it.
ghost use Rattle.rv_cli.specs.Headline.{BooksAreLawful, PullsAreShown, StepsShow, StepsStand, TroublesHaveCauses};

/// In the book of a run from a lawful book each client's acts have the ids 1, 2, 3 and so on, and the orders of each group's looks
/// rise; those after a page go on from what it has.
pub fn books_are_lawful()
    ensures { BooksAreLawful }
{
    rv_history::laws::turns_keep_law();
    rv_history::laws::ids_count_up();
    rv_history::laws::orders_rise();
}

/// The patch of each pull that a run answers, applied to the view that its cookie names, gives exactly what the user sees at
/// that point of the book; without a base it begins with a clear, and the view may be any.
pub fn pulls_are_shown()
    ensures { PullsAreShown }
{
    rv_history::laws::turns_keep_law();
    rv_history::laws::pulls_show();
}

/// The same of each server and each step of it, from whose book the run goes on.
pub fn steps_show()
    ensures { StepsShow }
{
    rv_history::laws::pulls_show();
}

/// Each mutation of a push that is answered as done stands in the book that its step leaves, as an act of its user, group and client with
/// its id, or the page says that it had run for them; but for an id of 0, which is skipped and stands nowhere.
pub fn steps_stand()
    ensures { StepsStand }
{
    rv_history::laws::pushes_stand();
}

/// An answer that tells a trouble with what keeps the book comes only where a fault of that rose.
pub fn troubles_have_causes()
    ensures { TroublesHaveCauses }
{}
