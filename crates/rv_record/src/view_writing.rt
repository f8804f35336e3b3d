// View records as JSON: the keys that were seen and the group's clients, each with its number.
ghost use Rattle.std.specs.Prelude.{map};
ghost use Rattle.rv_rows.specs.Additions.{AddsValue};
ghost use Rattle.rv_record.specs.CallTexts.{array_of};
ghost use Rattle.rv_record.specs.CellTexts.{seen_data, client_data, view_body};

use crate::writing::write_pair;
use json::Writer;
use rv_base::{Id, Memory, Num};
use rv_rows::Key;
use rv_views::ViewRecord;

// Writes a key with the version of its row. The key is spelled in the buffer.
fn write_seen(
    out: &mut Writer,
    key_text: &mut String,
    key: &Key,
    version: u32,
) -> Result<(), Memory>
    ensures { AddsValue result out.old out.new (seen_data (key.now, version)) }
{
    key.kind.put_key_text(key_text, key.id.as_str())?;
    write_pair(out, key_text.as_str(), u64::from(version))
}

// Each key is spelled in the same buffer, so that none takes memory of its own.
fn write_rows(out: &mut Writer, key_text: &mut String, rows: &[(Key, u32)]) -> Result<(), Memory>
    ensures { AddsValue result out.old out.new (array_of (map seen_data rows.now)) }
{
    out.begin_array()?;
    for (key, version) in rows {
        write_seen(out, key_text, key, *version)?;
    }
    out.end_array()?;
    Ok(())
}

fn write_clients(out: &mut Writer, clients: &[(Id, Num)]) -> Result<(), Memory>
    ensures { AddsValue result out.old out.new (array_of (map client_data clients.now)) }
{
    out.begin_array()?;
    for (client, last) in clients {
        write_pair(out, client.as_str(), last.get())?;
    }
    out.end_array()?;
    Ok(())
}

// Writes a view record, as `[[[KEY,VERSION],..],[[CLIENT,LAST],..]]`.
pub(crate) fn write_view(
    out: &mut Writer,
    key_text: &mut String,
    view: &ViewRecord,
) -> Result<(), Memory>
    ensures { AddsValue result out.old out.new (view_body view.now) }
{
    out.begin_array()?;
    write_rows(out, key_text, view.rows())?;
    write_clients(out, view.clients())?;
    out.end_array()?;
    Ok(())
}
