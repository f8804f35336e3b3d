//! The command line of the server: [`run`] reads the words and does what they say.
//!
//! `feed STORE` reads request lines and writes answer lines. Its theorem is the clause of [`run`]: what is written are the answers of
//! a run over the lines that were read, from the book that the store kept, and the store keeps the book that the run leaves
//! (`specs/Headline.antt`; what is said of runs over lines, whoever takes them, stands in `specs/LineRuns.antt`). `retire STORE GROUP`
//! and `close-book STORE` are one answer so, `lists`, `activity`, `check` and `export STORE USER` are reports of that book, and
//! `ship STORE` writes it as lines.
//! `import STORE USER NAME` reads CSV, whose records are turns at that book (`specs/Importing.antt`). `serve STORE` answers HTTP from
//! it by several workers, and pokes whom an act concerns (`specs/Serving.antt`). `follow --port PORT` takes the lines of a book from one
//! connection and answers its pulls (`specs/FollowPromise.antt`). `make SEED N` is the summary of a run over a fresh
//! store in memory.
#![tactic(auto)]

mod ending;
mod follow;
mod following;
mod import;
mod import_ending;
mod input;
mod input_fault;
mod line;
mod line_taker;
mod lines;
mod make;
mod program;
mod reports;
mod serve;
mod serve_ending;
mod store;
mod texts;

pub use ending::Ending;
pub use follow::run_follow;
pub use import::run_import;
pub use import_ending::ImportEnding;
pub use make::run_make;
pub use program::{run, run_feed, run_retire};
pub use reports::{run_activity, run_check, run_export, run_lists, run_ship};
pub use serve::run_serve;
pub use serve_ending::ServeEnding;
