// What the pushes ask for.
ghost use Rattle.std.specs.Prelude.{◌≡◌, ◌<◌, IfOk, codes, Some, None, true, false};
ghost use Rattle.rv_rows.specs.declared.call.Call.TheVariants as calls;
ghost use Rattle.rv_rows.specs.declared.role.Role.TheVariants as roles;
ghost use Rattle.rv_make.specs.Names.{lettered, user_name};
ghost use Rattle.rv_make.specs.Calls.{call_of};

use crate::names::name;
use rv_base::{Id, Memory, User};
use rv_rows::{Call, Role};
use std::alloc::Global;

// The user of this number.
pub(crate) fn user_of(alloc: Global, user: u32) -> Result<User, Memory>
    ensures { IfOk result (λ made. made ≡ user_name user) }
{
    name(alloc, "u", user)
}

// The list, the share or the todo of this number, by the letter of its kind.
fn list_id(alloc: Global, list: u32) -> Result<Id, Memory>
    ensures { IfOk result (λ id. id ≡ lettered (codes "l") list) }
{
    name(alloc, "l", list)
}

fn share_id(alloc: Global, share: u32) -> Result<Id, Memory>
    ensures { IfOk result (λ id. id ≡ lettered (codes "s") share) }
{
    name(alloc, "s", share)
}

fn todo_id(alloc: Global, todo: u32) -> Result<Id, Memory>
    ensures { IfOk result (λ id. id ≡ lettered (codes "t") todo) }
{
    name(alloc, "t", todo)
}

fn create_list(alloc: Global, user: u32, list: u32) -> Result<Call, Memory>
    ensures { IfOk result (λ call. call ≡ calls.CreateList (lettered (codes "l") list) (lettered (codes "n") list) (user_name user)) }
{
    Ok(Call::CreateList {
        id: list_id(alloc, list)?,
        name: name(alloc, "n", list)?,
        owner: user_of(alloc, user)?,
    })
}

fn create_share(alloc: Global, share: u32, list: u32, user: u32) -> Result<Call, Memory>
    ensures { IfOk result (λ call. call ≡ calls.CreateShare (lettered (codes "s") share) (lettered (codes "l") list) (user_name user) roles.Edit) }
{
    Ok(Call::CreateShare {
        id: share_id(alloc, share)?,
        list: list_id(alloc, list)?,
        user: user_of(alloc, user)?,
        role: Role::Edit,
    })
}

fn create_todo(alloc: Global, todo: u32, list: u32, number: u32) -> Result<Call, Memory>
    ensures { IfOk result (λ call. call ≡ calls.CreateTodo (lettered (codes "t") todo) (lettered (codes "l") list) (lettered (codes "x") number) false) }
{
    Ok(Call::CreateTodo {
        id: todo_id(alloc, todo)?,
        list: list_id(alloc, list)?,
        text: name(alloc, "x", number)?,
        complete: false,
    })
}

fn update_todo(alloc: Global, todo: u32, number: u32) -> Result<Call, Memory>
    ensures { IfOk result (λ call. call ≡ calls.UpdateTodo (lettered (codes "t") todo) (Some (lettered (codes "x") number)) (Some true) None) }
{
    Ok(Call::UpdateTodo {
        id: todo_id(alloc, todo)?,
        text: Some(name(alloc, "x", number)?),
        complete: Some(true),
        sort: None,
    })
}

// The call of a kind, from 0, that the request of this number makes for a user, of the row of this number.
pub(crate) fn call_of(
    alloc: Global,
    kind: u32,
    user: u32,
    row: u32,
    number: u32,
) -> Result<Call, Memory>
    requires { user < 3 }
    ensures { IfOk result (λ call. call ≡ call_of kind user row number) }
{
    let list = row % 5;
    if kind == 0 {
        create_list(alloc, user, list)
    } else if kind == 1 {
        Ok(Call::DeleteList {
            id: list_id(alloc, list)?,
        })
    } else if kind == 2 {
        create_share(alloc, row, list, (user + 1) % 3)
    } else if kind == 3 {
        Ok(Call::DeleteShare {
            id: share_id(alloc, row)?,
        })
    } else if kind == 4 {
        create_todo(alloc, row, list, number)
    } else if kind == 5 {
        update_todo(alloc, row, number)
    } else {
        Ok(Call::DeleteTodo {
            id: todo_id(alloc, row)?,
        })
    }
}
