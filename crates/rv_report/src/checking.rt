ghost use Rattle.rv_report.specs.Checks.{Checks};

use crate::check_answer::CheckAnswer;
use rv_desk::{Desk, OpenFault};
use rv_keeper::Keeper;
use std::alloc::Global;

/// Whether the keeper holds just the cells of a lawful book of a length of at most 4,294,967,295, as a server that opens it would find.
/// Nothing is changed, and the keeper is given back.
pub fn check<K: Keeper>(alloc: Global, keeper: K) -> (CheckAnswer, K)
    ensures { Checks K.Keeper keeper result }
{
    match Desk::open(alloc, keeper, u32::MAX) {
        Ok(desk) => {
            let entries = desk.book().len();
            (CheckAnswer::Sound(entries), desk.close())
        }
        Err((fault, keeper)) => match fault {
            OpenFault::Keeper => (CheckAnswer::Keeper, keeper),
            OpenFault::Damaged(damage) => (CheckAnswer::Damaged(damage), keeper),
            OpenFault::Memory => (CheckAnswer::Memory, keeper),
        },
    }
}
