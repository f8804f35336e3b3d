// What stands in the cells of entries, rows, clients and groups, as JSON. Where memory is refused, some first part may
// have been written.
ghost use Rattle.std.specs.Prelude.{◌≡◌, [], ◌∷◌};
ghost use Rattle.json.specs.Token.{begin_array, string};
ghost use Rattle.json.specs.Tree.{items_tokens};
ghost use Rattle.serde_json.specs.Data as values;
ghost use Rattle.serde_json.specs.View.{items_of};
ghost use Rattle.serde_json.specs.Written.{items_outline};
ghost use Rattle.rv_rows.specs.declared.call.Call.TheVariants as calls;
ghost use Rattle.rv_rows.specs.Additions.{AddsValue, AddsTokens};
ghost use Rattle.rv_book.specs.declared.entry.Entry.TheVariants as entries;
ghost use Rattle.rv_record.specs.CallTexts.{array_of, text_or_null, flag_or_null, number_or_null, lists_or_null, reason_text, role_items, call_data};
ghost use Rattle.rv_record.specs.EntryTexts.{entry_data};
ghost use Rattle.rv_record.specs.CellTexts.{row_body, group_body};

use json::Writer;
use rv_base::{Id, Memory, Num, Text, User};
use rv_rows::{Call, Lists, Reason, Role, Row, write_ids, write_row};

// Writes a text, or null where there is none.
fn write_text_or_null(out: &mut Writer, text: &Option<Text>) -> Result<(), Memory>
    ensures { AddsValue result out.old out.new (text_or_null text.now) }
{
    match text {
        Some(text) => Ok(out.string(text.as_str())?),
        None => Ok(out.null()?),
    }
}

// Writes true or false, or null where there is neither.
fn write_flag_or_null(out: &mut Writer, flag: Option<bool>) -> Result<(), Memory>
    ensures { AddsValue result out.old out.new (flag_or_null flag) }
{
    match flag {
        Some(flag) => Ok(out.boolean(flag)?),
        None => Ok(out.null()?),
    }
}

// Writes a number, or null where there is none.
fn write_num_or_null(out: &mut Writer, num: Option<Num>) -> Result<(), Memory>
    ensures { AddsValue result out.old out.new (number_or_null num) }
{
    match num {
        Some(num) => Ok(out.u64(num.get())?),
        None => Ok(out.null()?),
    }
}

// Writes a place, or null where there is none.
fn write_place_or_null(out: &mut Writer, place: Option<u32>) -> Result<(), Memory>
    ensures { AddsValue result out.old out.new (number_or_null place) }
{
    match place {
        Some(place) => Ok(out.u64(u64::from(place))?),
        None => Ok(out.null()?),
    }
}

// Writes a text and a number, as `[TEXT,NUMBER]`.
pub(crate) fn write_pair(out: &mut Writer, text: &str, num: u64) -> Result<(), Memory>
    ensures { AddsValue result out.old out.new (array_of (values.string text.now ∷ values.number (values.unsigned num) ∷ [])) }
{
    out.begin_array()?;
    out.string(text)?;
    out.u64(num)?;
    out.end_array()?;
    Ok(())
}

// Begins the array of a call: its name, and the id that each call names first.
fn begin_call(out: &mut Writer, name: &str, id: &Id) -> Result<(), Memory>
    ensures { AddsTokens result out.old out.new (begin_array ∷ string name.now ∷ string id.now ∷ []) }
{
    out.begin_array()?;
    out.string(name)?;
    out.string(id.as_str())?;
    Ok(())
}

fn write_create_list(out: &mut Writer, id: &Id, name: &Text, owner: &User) -> Result<(), Memory>
    ensures { AddsValue result out.old out.new (call_data (calls.CreateList id.now name.now owner.now)) }
{
    begin_call(out, "createList", id)?;
    out.string(name.as_str())?;
    out.string(owner.as_str())?;
    out.end_array()?;
    Ok(())
}

// Ends the array of a new share: its role before, where it lets see alone.
fn end_create_share(out: &mut Writer, role: Role) -> Result<(), Memory>
    ensures { AddsTokens result out.old out.new (items_tokens (items_outline (items_of (role_items role)))) }
{
    match role {
        Role::View => {
            out.string("view")?;
            Ok(out.end_array()?)
        }
        Role::Edit => Ok(out.end_array()?),
    }
}

fn write_create_share(
    out: &mut Writer,
    id: &Id,
    list: &Id,
    user: &User,
    role: Role,
) -> Result<(), Memory>
    ensures { AddsValue result out.old out.new (call_data (calls.CreateShare id.now list.now user.now role)) }
{
    begin_call(out, "createShare", id)?;
    out.string(list.as_str())?;
    out.string(user.as_str())?;
    end_create_share(out, role)?;
    Ok(())
}

fn write_update_share(out: &mut Writer, id: &Id, role: Role) -> Result<(), Memory>
    ensures { AddsValue result out.old out.new (call_data (calls.UpdateShare id.now role)) }
{
    begin_call(out, "updateShare", id)?;
    out.string(role.text())?;
    out.end_array()?;
    Ok(())
}

fn write_create_todo(
    out: &mut Writer,
    id: &Id,
    list: &Id,
    text: &Text,
    complete: bool,
) -> Result<(), Memory>
    ensures { AddsValue result out.old out.new (call_data (calls.CreateTodo id.now list.now text.now complete)) }
{
    begin_call(out, "createTodo", id)?;
    out.string(list.as_str())?;
    out.string(text.as_str())?;
    out.boolean(complete)?;
    out.end_array()?;
    Ok(())
}

fn write_update_todo(
    out: &mut Writer,
    id: &Id,
    text: &Option<Text>,
    complete: Option<bool>,
    sort: Option<Num>,
) -> Result<(), Memory>
    ensures { AddsValue result out.old out.new (call_data (calls.UpdateTodo id.now text.now complete sort)) }
{
    begin_call(out, "updateTodo", id)?;
    write_text_or_null(out, text)?;
    write_flag_or_null(out, complete)?;
    write_num_or_null(out, sort)?;
    out.end_array()?;
    Ok(())
}

// Writes a call that names an id and nothing else.
fn write_removal(out: &mut Writer, name: &str, id: &Id) -> Result<(), Memory>
    ensures { AddsValue result out.old out.new (array_of (values.string name.now ∷ values.string id.now ∷ [])) }
{
    begin_call(out, name, id)?;
    out.end_array()?;
    Ok(())
}

// Writes an extent's lists, or null where there are none.
fn write_lists_or_null(out: &mut Writer, lists: &Option<Lists>) -> Result<(), Memory>
    ensures { AddsValue result out.old out.new (lists_or_null lists.now) }
{
    match lists {
        Some(lists) => write_ids(out, lists.as_slice()),
        None => Ok(out.null()?),
    }
}

fn write_set_extent(out: &mut Writer, lists: &Option<Lists>) -> Result<(), Memory>
    ensures { AddsValue result out.old out.new (call_data (calls.SetExtent lists.now)) }
{
    out.begin_array()?;
    out.string("setExtent")?;
    write_lists_or_null(out, lists)?;
    out.end_array()?;
    Ok(())
}

fn reason_text(reason: Reason) -> &'static str
    ensures { result.now ≡ reason_text reason }
{
    match reason {
        Reason::UnknownName => "UnknownName",
        Reason::BadArgs => "BadArgs",
    }
}

fn write_void(out: &mut Writer, reason: Reason) -> Result<(), Memory>
    ensures { AddsValue result out.old out.new (call_data (calls.Void reason)) }
{
    out.begin_array()?;
    out.string("void")?;
    out.string(reason_text(reason))?;
    out.end_array()?;
    Ok(())
}

// Writes a call, as an array of its name and its arguments.
fn write_call(out: &mut Writer, call: &Call) -> Result<(), Memory>
    ensures { AddsValue result out.old out.new (call_data call.now) }
{
    match call {
        Call::CreateList { id, name, owner } => write_create_list(out, id, name, owner),
        Call::DeleteList { id } => write_removal(out, "deleteList", id),
        Call::CreateShare {
            id,
            list,
            user,
            role,
        } => write_create_share(out, id, list, user, *role),
        Call::UpdateShare { id, role } => write_update_share(out, id, *role),
        Call::DeleteShare { id } => write_removal(out, "deleteShare", id),
        Call::CreateTodo {
            id,
            list,
            text,
            complete,
        } => write_create_todo(out, id, list, text, *complete),
        Call::UpdateTodo {
            id,
            text,
            complete,
            sort,
        } => write_update_todo(out, id, text, *complete, *sort),
        Call::DeleteTodo { id } => write_removal(out, "deleteTodo", id),
        Call::SetExtent { lists } => write_set_extent(out, lists),
        Call::Void(reason) => write_void(out, *reason),
    }
}

// Begins the array of an act or a look: its kind, who sent it, and the client group.
fn begin_entry(out: &mut Writer, kind: &str, user: &User, group: &Id) -> Result<(), Memory>
    ensures { AddsTokens result out.old out.new (begin_array ∷ string kind.now ∷ string user.now ∷ string group.now ∷ []) }
{
    out.begin_array()?;
    out.string(kind)?;
    out.string(user.as_str())?;
    out.string(group.as_str())?;
    Ok(())
}

// Writes an act.
pub(crate) fn write_act(
    out: &mut Writer,
    user: &User,
    group: &Id,
    client: &Id,
    id: Num,
    call: &Call,
) -> Result<(), Memory>
    ensures { AddsValue result out.old out.new (entry_data (entries.Act user.now group.now client.now id call.now)) }
{
    begin_entry(out, "act", user, group)?;
    out.string(client.as_str())?;
    out.u64(id.get())?;
    write_call(out, call)?;
    out.end_array()?;
    Ok(())
}

// Writes a look.
pub(crate) fn write_look(
    out: &mut Writer,
    user: &User,
    group: &Id,
    order: Num,
    base: Option<u32>,
) -> Result<(), Memory>
    ensures { AddsValue result out.old out.new (entry_data (entries.Look user.now group.now order base)) }
{
    begin_entry(out, "look", user, group)?;
    out.u64(order.get())?;
    write_place_or_null(out, base)?;
    out.end_array()?;
    Ok(())
}

// Writes a retirement.
pub(crate) fn write_retirement(out: &mut Writer, group: &Id) -> Result<(), Memory>
    ensures { AddsValue result out.old out.new (entry_data (entries.Retire group.now)) }
{
    out.begin_array()?;
    out.string("retire")?;
    out.string(group.as_str())?;
    out.end_array()?;
    Ok(())
}

// Writes the place of a page.
pub(crate) fn write_place(out: &mut Writer, place: u32) -> Result<(), Memory>
    ensures { AddsValue result out.old out.new (values.number (values.unsigned place)) }
{
    Ok(out.u64(u64::from(place))?)
}

// Writes a row with its version, as `[VERSION,ROW]`.
pub(crate) fn write_row_body(out: &mut Writer, row: &Row, version: u32) -> Result<(), Memory>
    ensures { AddsValue result out.old out.new (row_body row.now version) }
{
    out.begin_array()?;
    out.u64(u64::from(version))?;
    write_row(out, row)?;
    out.end_array()?;
    Ok(())
}

// Writes what is kept of a group, as `[USER,LASTORDER,RETIRED]`.
pub(crate) fn write_group_body(
    out: &mut Writer,
    user: &User,
    order: Num,
    retired: bool,
) -> Result<(), Memory>
    ensures { AddsValue result out.old out.new (group_body user.now order retired) }
{
    out.begin_array()?;
    out.string(user.as_str())?;
    out.u64(order.get())?;
    out.boolean(retired)?;
    out.end_array()?;
    Ok(())
}
