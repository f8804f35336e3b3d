ghost use Rattle.std.specs.Prelude.{◌≡◌, ℕ, ◌≤◌, length, IfOk};
ghost use Rattle.rv_rows.specs.Held.{rows_in, AreRows};
ghost use Rattle.rv_rows.specs.Changes.{after};
ghost use Rattle.rv_mutators.specs.Staging.{staged, with_staged};

use crate::extents::set_extent;
use crate::lists::{create_list, delete_list};
use crate::shares::{create_share, delete_share, update_share};
use crate::staged::Staged;
use crate::todos::{create_todo, delete_todo, update_todo};
use rv_base::{Memory, User};
use rv_rows::{Call, Tables};
use std::alloc::Global;

/// What the user's call writes and removes. Of the tables it changes nothing but the space that they have, which is enough
/// for [`Staged::apply`].
pub fn stage(alloc: Global, tables: &mut Tables, user: &User, call: &Call) -> Result<Staged, Memory>
    ensures rows { tables.new.rows ≡ tables.old.rows }
    ensures spare { tables.old.spare ≤ tables.new.spare }
    ensures enough { IfOk result (λ s. length s.rows ≤ tables.new.spare) }
    ensures staged { IfOk result (λ s. s ≡ staged (rows_in tables.old.rows) user.now call.now) }
    ensures effect { IfOk result (λ s. (version : ℕ) → with_staged version s tables.old.rows ≡ after tables.old.rows user.now call.now version) }
{
    tables.fits();
    let staged = changes(alloc, tables, user, call)?;
    tables.reserve(staged.rows.len())?;
    Ok(staged)
}

// What the user's call writes and removes.
fn changes(alloc: Global, tables: &Tables, user: &User, call: &Call) -> Result<Staged, Memory>
    requires { AreRows tables.now.rows }
    ensures { IfOk result (λ s. s ≡ staged (rows_in tables.now.rows) user.now call.now) }
{
    match call {
        Call::CreateList { id, name, owner } => create_list(alloc, tables, user, id, name, owner),
        Call::DeleteList { id } => delete_list(alloc, tables, user, id),
        Call::CreateShare {
            id,
            list,
            user: other,
            role,
        } => create_share(alloc, tables, user, id, list, other, *role),
        Call::UpdateShare { id, role } => update_share(alloc, tables, user, id, *role),
        Call::DeleteShare { id } => delete_share(alloc, tables, user, id),
        Call::CreateTodo {
            id,
            list,
            text,
            complete,
        } => create_todo(alloc, tables, user, id, list, text, *complete),
        Call::UpdateTodo {
            id,
            text,
            complete,
            sort,
        } => update_todo(alloc, tables, user, id, text, *complete, *sort),
        Call::DeleteTodo { id } => delete_todo(alloc, tables, user, id),
        Call::SetExtent { lists } => set_extent(alloc, tables, user, lists),
        Call::Void(_) => Ok(Staged::nothing(alloc)),
    }
}
