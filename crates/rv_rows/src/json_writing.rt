// Members of JSON objects, and rows, written one after another. Where memory is refused, some first part may have been
// written.
ghost use Rattle.std.specs.Prelude.{◌∷◌, [], decimal};
ghost use Rattle.json.specs.Token.{key, string, number, boolean};
ghost use Rattle.rv_rows.specs.declared.row.Row.TheVariants as variants;
ghost use Rattle.rv_rows.specs.Additions.{AddsTokens, AddsValue, role_tokens};
ghost use Rattle.rv_rows.specs.RowTexts.{ids_data, row_data};

use crate::role::Role;
use crate::row::{ExtentRow, ListRow, Row, ShareRow, TodoRow};
use json::Writer;
use rv_base::{Id, Memory, Num};

/// Writes a member whose value is a text.
pub fn write_text_member(out: &mut Writer, name: &str, text: &str) -> Result<(), Memory>
    ensures { AddsTokens result out.old out.new (key name.now ∷ string text.now ∷ []) }
{
    out.key(name)?;
    out.string(text)?;
    Ok(())
}

/// Writes a member whose value is a number.
pub fn write_num_member(out: &mut Writer, name: &str, num: Num) -> Result<(), Memory>
    ensures { AddsTokens result out.old out.new (key name.now ∷ number (decimal num) ∷ []) }
{
    out.key(name)?;
    out.u64(num.get())?;
    Ok(())
}

/// Writes a member whose value is true or false.
pub fn write_bool_member(out: &mut Writer, name: &str, flag: bool) -> Result<(), Memory>
    ensures { AddsTokens result out.old out.new (key name.now ∷ boolean flag ∷ []) }
{
    out.key(name)?;
    out.boolean(flag)?;
    Ok(())
}

/// Writes ids, as `[ID,..]`.
pub fn write_ids(out: &mut Writer, ids: &[Id]) -> Result<(), Memory>
    ensures { AddsValue result out.old out.new (ids_data ids.now) }
{
    out.begin_array()?;
    for id in ids {
        out.string(id.as_str())?;
    }
    out.end_array()?;
    Ok(())
}

fn write_extent(out: &mut Writer, row: &ExtentRow) -> Result<(), Memory>
    ensures { AddsValue result out.old out.new (row_data (variants.Extent row.now)) }
{
    out.begin_object()?;
    out.key("lists")?;
    write_ids(out, row.lists.as_slice())?;
    write_text_member(out, "user", row.user.as_str())?;
    out.end_object()?;
    Ok(())
}

fn write_list(out: &mut Writer, row: &ListRow) -> Result<(), Memory>
    ensures { AddsValue result out.old out.new (row_data (variants.List row.now)) }
{
    out.begin_object()?;
    write_text_member(out, "id", row.id.as_str())?;
    write_text_member(out, "name", row.name.as_str())?;
    write_text_member(out, "ownerID", row.owner.as_str())?;
    out.end_object()?;
    Ok(())
}

// Writes the member of a share's role: of one that lets edit there is none.
fn write_role(out: &mut Writer, role: Role) -> Result<(), Memory>
    ensures { AddsTokens result out.old out.new (role_tokens role) }
{
    match role {
        Role::View => write_text_member(out, "role", "view"),
        Role::Edit => Ok(()),
    }
}

fn write_share(out: &mut Writer, row: &ShareRow) -> Result<(), Memory>
    ensures { AddsValue result out.old out.new (row_data (variants.Share row.now)) }
{
    out.begin_object()?;
    write_text_member(out, "id", row.id.as_str())?;
    write_text_member(out, "listID", row.list.as_str())?;
    write_role(out, row.role)?;
    write_text_member(out, "userID", row.user.as_str())?;
    out.end_object()?;
    Ok(())
}

fn write_todo(out: &mut Writer, row: &TodoRow) -> Result<(), Memory>
    ensures { AddsValue result out.old out.new (row_data (variants.Todo row.now)) }
{
    out.begin_object()?;
    write_bool_member(out, "complete", row.complete)?;
    write_text_member(out, "id", row.id.as_str())?;
    write_text_member(out, "listID", row.list.as_str())?;
    write_num_member(out, "sort", row.sort)?;
    write_text_member(out, "text", row.text.as_str())?;
    out.end_object()?;
    Ok(())
}

/// Writes the row as JSON: an extent is `{"lists":[I,..],"user":U}`, a list is `{"id":I,"name":T,"ownerID":U}`, a share that
/// lets edit is `{"id":I,"listID":I,"userID":U}`, one that lets see alone `{"id":I,"listID":I,"role":"view","userID":U}`, and a
/// todo is `{"complete":B,"id":I,"listID":I,"sort":N,"text":T}`. Where memory is refused, some first part of it may have been
/// written.
pub fn write_row(out: &mut Writer, row: &Row) -> Result<(), Memory>
    ensures { AddsValue result out.old out.new (row_data row.now) }
{
    match row {
        Row::Extent(row) => write_extent(out, row),
        Row::List(row) => write_list(out, row),
        Row::Share(row) => write_share(out, row),
        Row::Todo(row) => write_todo(out, row),
    }
}
