//! What follows of what an accounts file says, as contracts of functions that do nothing: a check of the crate proves
//! them.
ghost use Rattle.rv_accounts.specs.Properties.{AccountsAreFound};

/// No two accounts of a file have one key, and so their order tells nothing: each key finds the user that it finds in
/// the file's own order.
pub fn accounts_are_found()
    ensures { AccountsAreFound }
{}
