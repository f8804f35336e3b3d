ghost use Rattle.std.specs.Prelude.{◌≡◌, ◌↔◌, [], IsTrue, IfOk, option_map, unwrap_or};
ghost use Rattle.std.specs.Cmp.Lexicographic.{slice_cmp};
ghost use Rattle.std.specs.Ordering.{nat_cmp};
ghost use Rattle.rv_rows.specs.Keys.{key_text, row_key, row_text};
ghost use Rattle.rv_rows.specs.Sharing.{is_any_extent, belongs, lets_edit, list_of, shares, user_of};
ghost use Rattle.rv_rows.specs.Filed.{is_filed, sort_of, under};
ghost use Rattle.rv_rows.specs.Effects.{sort_after, with_fields, with_role};
ghost use Rattle.rv_rows.specs.declared.filing.Filing.TheVariants as filings;
ghost use Rattle.rv_rows.specs.declared.row.Row.TheVariants.{Share, Todo};

use crate::filing::Filing;
use crate::key::{Key, Kind, compare_keys};
use crate::lists::Lists;
use crate::role::Role;
use rv_base::{Id, Memory, Num, Text, User};
use std::alloc::Global;
use std::cmp::Ordering;

/// An extent: the lists that its user wants to have synced. A user has at most one.
#[derive(Debug, Drop)]
pub struct ExtentRow {
    /// Whose extent it is.
    pub user: User,
    /// The lists that it names, whether they are there or not.
    pub lists: Lists,
}

/// A list, which belongs to its owner.
#[derive(Debug, Drop)]
pub struct ListRow {
    /// The list's name among lists.
    pub id: Id,
    /// What people call it.
    pub name: Text,
    /// Whose list it is.
    pub owner: User,
}

/// A share, by which a user sees a list of another, and may edit its todos where the role is to edit.
#[derive(Debug, Drop)]
pub struct ShareRow {
    /// The share's name among shares.
    pub id: Id,
    /// The list that is shared.
    pub list: Id,
    /// The user that it is shared with.
    pub user: User,
    /// What the user may do.
    pub role: Role,
}

/// A todo of a list.
#[derive(Debug, Drop)]
pub struct TodoRow {
    /// The todo's name among todos.
    pub id: Id,
    /// The list that it belongs to.
    pub list: Id,
    /// What is to be done.
    pub text: Text,
    /// Whether it is done.
    pub complete: bool,
    /// Its place among the todos of its list, from below.
    pub sort: Num,
}

/// A row.
#[derive(Debug, Drop)]
pub enum Row {
    /// An extent of a user.
    Extent(ExtentRow),
    /// A list.
    List(ListRow),
    /// A share of a list with a user.
    Share(ShareRow),
    /// A todo of a list.
    Todo(TodoRow),
}

impl Row {
    /// The kind of the row's key.
    pub fn kind(&self) -> Kind
        ensures { result ≡ (row_key self.now).kind }
    {
        match self {
            Row::Extent(_) => Kind::Extent,
            Row::List(_) => Kind::List,
            Row::Share(_) => Kind::Share,
            Row::Todo(_) => Kind::Todo,
        }
    }

    /// The text of the id of the row's key.
    pub fn id(&self) -> &str
        ensures { result.now ≡ (row_key self.now).id }
    {
        match self {
            Row::Extent(row) => row.user.as_str(),
            Row::List(row) => row.id.as_str(),
            Row::Share(row) => row.id.as_str(),
            Row::Todo(row) => row.id.as_str(),
        }
    }

    // The id of the row's key, which shares its text.
    fn id_copy(&self, alloc: Global) -> Result<Id, Memory>
        ensures { IfOk result (λ id. id ≡ (row_key self.now).id) }
    {
        match self {
            Row::Extent(row) => row.user.to_id(alloc),
            Row::List(row) => row.id.copy(alloc),
            Row::Share(row) => row.id.copy(alloc),
            Row::Todo(row) => row.id.copy(alloc),
        }
    }

    /// The list that the row is or belongs to, where it has one.
    pub fn list(&self) -> Option<&Id>
        ensures { option_map (λ list. list.now) result ≡ list_of self.now }
    {
        match self {
            Row::Extent(_) => None,
            Row::List(row) => Some(&row.id),
            Row::Share(row) => Some(&row.list),
            Row::Todo(row) => Some(&row.list),
        }
    }

    /// Whether the row is this list, or belongs to it.
    pub fn belongs(&self, list: &Id) -> bool
        ensures { result ≡ belongs list.now self.now }
    {
        match self {
            Row::Extent(_) => false,
            Row::List(row) => row.id == *list,
            Row::Share(row) => row.list == *list,
            Row::Todo(row) => row.list == *list,
        }
    }

    /// The row's key, which shares its text.
    pub fn key(&self, alloc: Global) -> Result<Key, Memory>
        ensures { IfOk result (λ key. key ≡ row_key self.now) }
    {
        Ok(Key {
            kind: self.kind(),
            id: self.id_copy(alloc)?,
        })
    }

    /// How the row's key stands to another, by the bytes of their texts.
    pub fn compare_key(&self, kind: Kind, id: &str) -> Ordering
        ensures { result ≡ slice_cmp nat_cmp (row_text self.now) (key_text (record { kind = kind; id = id.now })) }
    {
        compare_keys(self.kind(), self.id(), kind, id)
    }

    // The user whom the row names; a todo names none.
    fn user(&self) -> &str
        ensures { result.now ≡ user_of self.now }
    {
        match self {
            Row::Extent(row) => row.user.as_str(),
            Row::List(row) => row.owner.as_str(),
            Row::Share(row) => row.user.as_str(),
            Row::Todo(_) => "",
        }
    }

    // The text of the row's list, and nothing where it has none.
    fn list_text(&self) -> &str
        ensures { result.now ≡ unwrap_or (list_of self.now) [] }
    {
        match self {
            Row::Extent(_) => "",
            Row::List(row) => row.id.as_str(),
            Row::Share(row) => row.list.as_str(),
            Row::Todo(row) => row.list.as_str(),
        }
    }

    // What the row is filed under.
    pub(crate) fn under(&self, by: Filing) -> &str
        ensures { result.now ≡ under by self.now }
    {
        match by {
            Filing::List => self.list_text(),
            Filing::User => self.user(),
            Filing::Sort => self.list_text(),
        }
    }

    // Whether the row is filed in an order: under something.
    pub(crate) fn is_filed(&self, by: Filing) -> bool
        ensures { result ≡ is_filed by self.now }
    {
        !self.under(by).is_empty()
    }

    // Whether the row is filed as another in each order: under the same list and the same user, and with the same sort.
    pub(crate) fn is_filed_as(&self, other: &Row) -> bool
        ensures { IsTrue result ↔ ((under filings.List self.now ≡ under filings.List other.now) × (user_of self.now ≡ user_of other.now) × (sort_of self.now ≡ sort_of other.now)) }
    {
        self.list_text() == other.list_text()
            && self.user() == other.user()
            && self.sort() == other.sort()
    }

    // Whether the row is an extent.
    pub(crate) fn is_extent(&self) -> bool
        ensures { result ≡ is_any_extent self.now }
    {
        match self {
            Row::Extent(_) => true,
            Row::List(_) => false,
            Row::Share(_) => false,
            Row::Todo(_) => false,
        }
    }

    /// Whether the row is a share of the list that names the user.
    pub fn shares(&self, user: &User, list: &Id) -> bool
        ensures { result ≡ shares user.now list.now self.now }
    {
        match self {
            Row::Extent(_) => false,
            Row::List(_) => false,
            Row::Share(row) => row.list == *list && row.user == *user,
            Row::Todo(_) => false,
        }
    }

    /// Whether the row is a share of the list that names the user and lets the user edit.
    pub fn lets_edit(&self, user: &User, list: &Id) -> bool
        ensures { result ≡ lets_edit user.now list.now self.now }
    {
        match self {
            Row::Extent(_) => false,
            Row::List(_) => false,
            Row::Share(row) => row.list == *list && row.user == *user && row.role == Role::Edit,
            Row::Todo(_) => false,
        }
    }

    // The sort of a todo, and 0 of any other row.
    pub(crate) fn sort(&self) -> u64
        ensures { result ≡ sort_of self.now }
    {
        match self {
            Row::Extent(_) => 0,
            Row::List(_) => 0,
            Row::Share(_) => 0,
            Row::Todo(row) => row.sort.get(),
        }
    }

    /// The same row, which shares its texts.
    pub fn copy(&self, alloc: Global) -> Result<Row, Memory>
        ensures { IfOk result (λ copy. copy ≡ self.now) }
    {
        match self {
            Row::Extent(row) => Ok(Row::Extent(row.copy(alloc)?)),
            Row::List(row) => Ok(Row::List(row.copy(alloc)?)),
            Row::Share(row) => Ok(Row::Share(row.copy(alloc)?)),
            Row::Todo(row) => Ok(Row::Todo(row.copy(alloc)?)),
        }
    }
}

impl ExtentRow {
    /// The same row, which shares its texts.
    pub fn copy(&self, alloc: Global) -> Result<ExtentRow, Memory>
        ensures { IfOk result (λ copy. copy ≡ self.now) }
    {
        Ok(ExtentRow {
            user: self.user.copy(alloc)?,
            lists: self.lists.copy(alloc)?,
        })
    }
}

impl ListRow {
    /// The same row, which shares its texts.
    pub fn copy(&self, alloc: Global) -> Result<ListRow, Memory>
        ensures { IfOk result (λ copy. copy ≡ self.now) }
    {
        Ok(ListRow {
            id: self.id.copy(alloc)?,
            name: self.name.copy(alloc)?,
            owner: self.owner.copy(alloc)?,
        })
    }
}

impl ShareRow {
    /// The same row, which shares its texts.
    pub fn copy(&self, alloc: Global) -> Result<ShareRow, Memory>
        ensures { IfOk result (λ copy. copy ≡ self.now) }
    {
        Ok(ShareRow {
            id: self.id.copy(alloc)?,
            list: self.list.copy(alloc)?,
            user: self.user.copy(alloc)?,
            role: self.role,
        })
    }

    /// The share with this role; it shares the texts.
    pub fn with_role(&self, alloc: Global, role: Role) -> Result<ShareRow, Memory>
        ensures { IfOk result (λ new. Share new ≡ with_role role (Share self.now)) }
    {
        Ok(ShareRow {
            id: self.id.copy(alloc)?,
            list: self.list.copy(alloc)?,
            user: self.user.copy(alloc)?,
            role,
        })
    }
}

impl TodoRow {
    /// The same row, which shares its texts.
    pub fn copy(&self, alloc: Global) -> Result<TodoRow, Memory>
        ensures { IfOk result (λ copy. copy ≡ self.now) }
    {
        Ok(TodoRow {
            id: self.id.copy(alloc)?,
            list: self.list.copy(alloc)?,
            text: self.text.copy(alloc)?,
            complete: self.complete,
            sort: self.sort,
        })
    }

    /// The todo with the fields that are named; it shares the texts of the others.
    pub fn with_fields(
        &self,
        alloc: Global,
        text: &Option<Text>,
        complete: Option<bool>,
        sort: Option<Num>,
    ) -> Result<TodoRow, Memory>
        ensures { IfOk result (λ new. Todo new ≡ with_fields text.now complete sort (Todo self.now)) }
    {
        Ok(TodoRow {
            id: self.id.copy(alloc)?,
            list: self.list.copy(alloc)?,
            text: text.as_ref().unwrap_or(&self.text).copy(alloc)?,
            complete: complete.unwrap_or(self.complete),
            sort: sort.unwrap_or(self.sort),
        })
    }

    /// The sort of a todo that comes after one with this sort: one more, and at most 2^53 - 1.
    pub fn sort_after(sort: u64) -> Num
        ensures { result ≡ sort_after sort }
    {
        if sort < Num::MAX {
            Num::from_u64(sort + 1)
        } else {
            Num::from_u64(Num::MAX)
        }
    }
}
