//! What follows from the machine for imports, as contracts of functions that do nothing: a check of the crate proves them. Let
//! nothing but imports of one file have used an import's client: then its acts are the first of what the file asks for.
ghost use Rattle.rv_history.specs.Machine.{ReplyText};
ghost use Rattle.rv_import.specs.ActsOnce.{ImportsActOnce, ImportsAddNothing, ImportsGoOn};

/// If each mutation of an import is run or skipped, and the acts of its client were the first of what the file asks for, they are
/// afterwards just what it asks for, each once. If the file is imported again right then, each of its mutations is skipped, and
/// nothing is entered.
pub fn imports_act_once()
    ensures { (write : ReplyText) → ImportsActOnce write }
{}

/// If the acts of an import's client were the first of what the file asks for, they are so after it, however it ends: at a record
/// that is not of the form, at a refusal, or where what keeps the book failed and left an act in doubt. So the file may be imported
/// again until it is through.
pub fn imports_go_on()
    ensures { (write : ReplyText) → ImportsGoOn write }
{}

/// Where the acts of an import's client are just what the file asks for, and nothing is in doubt, an import of the file enters
/// nothing, however it ends, and whatever else the book has.
pub fn imports_add_nothing()
    ensures { (write : ReplyText) → ImportsAddNothing write }
{}
