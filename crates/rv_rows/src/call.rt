ghost use Rattle.std.specs.Prelude.{◌≡◌, IfOk};
ghost use Rattle.rv_rows.specs.declared.call.Call.TheVariants.{CreateList, CreateShare, CreateTodo, UpdateTodo};

use crate::lists::Lists;
use crate::role::Role;
use rv_base::{Id, Memory, Num, Text, User};
use std::alloc::Global;

/// What a mutation asks for.
#[derive(Debug, Drop)]
pub enum Call {
    /// A new list, with this id, name and owner.
    CreateList {
        /// The list's id.
        id: Id,
        /// The list's name.
        name: Text,
        /// The list's owner.
        owner: User,
    },
    /// A list goes, with its shares and its todos.
    DeleteList {
        /// The list's id.
        id: Id,
    },
    /// A new share, with this id and this role, of this list with this user.
    CreateShare {
        /// The share's id.
        id: Id,
        /// The list's id.
        list: Id,
        /// Whom the list is shared with.
        user: User,
        /// What the user may do.
        role: Role,
    },
    /// A share gets another role.
    UpdateShare {
        /// The share's id.
        id: Id,
        /// What its user may do.
        role: Role,
    },
    /// A share goes.
    DeleteShare {
        /// The share's id.
        id: Id,
    },
    /// A new todo at the end of a list.
    CreateTodo {
        /// The todo's id.
        id: Id,
        /// The list's id.
        list: Id,
        /// What is to be done.
        text: Text,
        /// Whether it is done.
        complete: bool,
    },
    /// A todo gets the fields that are named.
    UpdateTodo {
        /// The todo's id.
        id: Id,
        /// What is to be done, where it is named.
        text: Option<Text>,
        /// Whether it is done, where it is named.
        complete: Option<bool>,
        /// Its sort, where it is named.
        sort: Option<Num>,
    },
    /// A todo goes.
    DeleteTodo {
        /// The todo's id.
        id: Id,
    },
    /// The caller's extent becomes these lists, or goes where there are none.
    SetExtent {
        /// The lists that the extent names, where there is to be one.
        lists: Option<Lists>,
    },
    /// Nothing: the name and the arguments spell no call.
    Void(Reason),
}

/// Why a name and arguments spell no call.
#[derive(Clone, Copy, Debug, PartialEq, Eq)]
pub enum Reason {
    /// No mutator has the name.
    UnknownName,
    /// The mutator takes other arguments.
    BadArgs,
}

fn text_copy(alloc: Global, text: &Option<Text>) -> Result<Option<Text>, Memory>
    ensures { IfOk result (λ copy. copy ≡ text.now) }
{
    match text {
        Some(text) => Ok(Some(text.copy(alloc)?)),
        None => Ok(None),
    }
}

fn lists_copy(alloc: Global, lists: &Option<Lists>) -> Result<Option<Lists>, Memory>
    ensures { IfOk result (λ copy. copy ≡ lists.now) }
{
    match lists {
        Some(lists) => Ok(Some(lists.copy(alloc)?)),
        None => Ok(None),
    }
}

// The same call that makes a list.
fn create_list_copy(alloc: Global, id: &Id, name: &Text, owner: &User) -> Result<Call, Memory>
    ensures { IfOk result (λ copy. copy ≡ CreateList id.now name.now owner.now) }
{
    Ok(Call::CreateList {
        id: id.copy(alloc)?,
        name: name.copy(alloc)?,
        owner: owner.copy(alloc)?,
    })
}

// The same call that makes a share.
fn create_share_copy(
    alloc: Global,
    id: &Id,
    list: &Id,
    user: &User,
    role: Role,
) -> Result<Call, Memory>
    ensures { IfOk result (λ copy. copy ≡ CreateShare id.now list.now user.now role) }
{
    Ok(Call::CreateShare {
        id: id.copy(alloc)?,
        list: list.copy(alloc)?,
        user: user.copy(alloc)?,
        role,
    })
}

// The same call that makes a todo.
fn create_todo_copy(
    alloc: Global,
    id: &Id,
    list: &Id,
    text: &Text,
    complete: bool,
) -> Result<Call, Memory>
    ensures { IfOk result (λ copy. copy ≡ CreateTodo id.now list.now text.now complete) }
{
    Ok(Call::CreateTodo {
        id: id.copy(alloc)?,
        list: list.copy(alloc)?,
        text: text.copy(alloc)?,
        complete,
    })
}

// The same call that sets fields of a todo.
fn update_todo_copy(
    alloc: Global,
    id: &Id,
    text: &Option<Text>,
    complete: Option<bool>,
    sort: Option<Num>,
) -> Result<Call, Memory>
    ensures { IfOk result (λ copy. copy ≡ UpdateTodo id.now text.now complete sort) }
{
    Ok(Call::UpdateTodo {
        id: id.copy(alloc)?,
        text: text_copy(alloc, text)?,
        complete,
        sort,
    })
}

impl Call {
    /// The same call, which shares its texts.
    pub fn copy(&self, alloc: Global) -> Result<Call, Memory>
        ensures { IfOk result (λ copy. copy ≡ self.now) }
    {
        match self {
            Call::CreateList { id, name, owner } => create_list_copy(alloc, id, name, owner),
            Call::DeleteList { id } => Ok(Call::DeleteList {
                id: id.copy(alloc)?,
            }),
            Call::CreateShare {
                id,
                list,
                user,
                role,
            } => create_share_copy(alloc, id, list, user, *role),
            Call::UpdateShare { id, role } => Ok(Call::UpdateShare {
                id: id.copy(alloc)?,
                role: *role,
            }),
            Call::DeleteShare { id } => Ok(Call::DeleteShare {
                id: id.copy(alloc)?,
            }),
            Call::CreateTodo {
                id,
                list,
                text,
                complete,
            } => create_todo_copy(alloc, id, list, text, *complete),
            Call::UpdateTodo {
                id,
                text,
                complete,
                sort,
            } => update_todo_copy(alloc, id, text, *complete, *sort),
            Call::DeleteTodo { id } => Ok(Call::DeleteTodo {
                id: id.copy(alloc)?,
            }),
            Call::SetExtent { lists } => Ok(Call::SetExtent {
                lists: lists_copy(alloc, lists)?,
            }),
            Call::Void(reason) => Ok(Call::Void(*reason)),
        }
    }
}
