//! What the trials stand on: how the lines of cases are read, played and answered, texts and numbers in them, cells as texts, calls of
//! keepers that fail, the runtime that a trial is given, and numbers and calls that are drawn.
#![tactic(auto)]

pub mod calls;
mod cells;
mod draws;
mod fails;
mod numbers;
mod player;
mod stage;
mod texts;

pub use cells::store_text;
pub use draws::Draws;
pub use fails::{call_named, number_after};
pub use numbers::{count_lines, fifth_number, four_numbers};
pub use player::{Line, echoed, kind_of, print_answer, silent};
pub use stage::Stage;
pub use texts::{Part, append_parts, first_word, joined, named, number_in, text_of, words_at};
