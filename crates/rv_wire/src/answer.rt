ghost use Rattle.std.specs.Prelude.{◌≡◌, IfOk, map};
ghost use Rattle.serde_json.specs.Data.{object, array};
ghost use Rattle.serde_json.specs.View.{items_of};
ghost use Rattle.rv_base.specs.Sorted.{InOrder};
ghost use Rattle.rv_rows.specs.Additions.{AddsValue};
ghost use Rattle.rv_rows.specs.RowTexts.{row_data};
ghost use Rattle.rv_views.specs.declared.cookie.Cookie.TheVariants.{Named};
ghost use Rattle.rv_turns.specs.declared.op.Op.TheVariants.{Clear};
ghost use Rattle.rv_wire.specs.Answers.{cookie_data, id_members, del_data, put_data, op_data, pull_data, pull_json};

use json::Writer;
use rv_base::{Bytes, Id, Memory, Num, Sequence, Text};
use rv_rows::{Clients, Row, write_num_member, write_row, write_text_member};
use rv_turns::{Op, Ops};
use rv_views::Cookie;
use std::alloc::Global;

fn write_named_cookie(out: &mut Writer, place_text: &Text, order: Num) -> Result<(), Memory>
    ensures { AddsValue result out.old out.new (cookie_data (Named place_text.now order)) }
{
    out.begin_object()?;
    write_text_member(out, "cvrID", place_text.as_str())?;
    write_num_member(out, "order", order)?;
    out.end_object()?;
    Ok(())
}

fn write_cookie(out: &mut Writer, cookie: &Cookie) -> Result<(), Memory>
    ensures { AddsValue result out.old out.new (cookie_data cookie.now) }
{
    match cookie {
        Cookie::Null => Ok(out.null()?),
        Cookie::Bare(order) => Ok(out.u64(order.get())?),
        Cookie::Named { place_text, order } => write_named_cookie(out, place_text, *order),
    }
}

fn write_id_changes(out: &mut Writer, ids: &[(Id, Num)]) -> Result<(), Memory>
    ensures { AddsValue result out.old out.new (object (id_members ids.now)) }
{
    out.begin_object()?;
    for (id, last) in ids {
        write_num_member(out, id.as_str(), *last)?;
    }
    out.end_object()?;
    Ok(())
}

fn write_clear(out: &mut Writer) -> Result<(), Memory>
    ensures { AddsValue result out.old out.new (op_data Clear) }
{
    out.begin_object()?;
    write_text_member(out, "op", "clear")?;
    out.end_object()?;
    Ok(())
}

fn write_del(out: &mut Writer, key: &str) -> Result<(), Memory>
    ensures { AddsValue result out.old out.new (del_data key.now) }
{
    out.begin_object()?;
    write_text_member(out, "key", key)?;
    write_text_member(out, "op", "del")?;
    out.end_object()?;
    Ok(())
}

fn write_put(out: &mut Writer, key: &str, row: &Row) -> Result<(), Memory>
    ensures { AddsValue result out.old out.new (put_data key.now (row_data row.now)) }
{
    out.begin_object()?;
    write_text_member(out, "key", key)?;
    write_text_member(out, "op", "put")?;
    out.key("value")?;
    write_row(out, row)?;
    out.end_object()?;
    Ok(())
}

// Each key is spelled in the same buffer, so that no operation takes memory for it.
fn write_op(out: &mut Writer, key_text: &mut String, op: &Op) -> Result<(), Memory>
    ensures { AddsValue result out.old out.new (op_data op.now) }
{
    match op {
        Op::Clear => write_clear(out),
        Op::Del(key) => {
            key.kind.put_key_text(key_text, key.id.as_str())?;
            write_del(out, key_text.as_str())
        }
        Op::Put(row) => {
            row.kind().put_key_text(key_text, row.id())?;
            write_put(out, key_text.as_str(), row)
        }
    }
}

fn write_patch(out: &mut Writer, key_text: &mut String, ops: &[Op]) -> Result<(), Memory>
    ensures { AddsValue result out.old out.new (array (items_of (map op_data ops.now))) }
{
    out.begin_array()?;
    for op in ops {
        write_op(out, key_text, op)?;
    }
    out.end_array()?;
    Ok(())
}

fn write_pull(
    out: &mut Writer,
    key_text: &mut String,
    cookie: &Cookie,
    ids: &Clients,
    ops: &Ops,
) -> Result<(), Memory>
    ensures { AddsValue result out.old out.new (pull_data cookie.now ids.now ops.now) }
{
    out.begin_object()?;
    out.key("cookie")?;
    write_cookie(out, cookie)?;
    out.key("lastMutationIDChanges")?;
    write_id_changes(out, ids.as_slice())?;
    out.key("patch")?;
    write_patch(out, key_text, ops.as_slice())?;
    out.end_object()?;
    Ok(())
}

// Room for most answers with so many operations, so that their text is seldom moved while it grows.
fn likely_length(ops: usize) -> usize {
    ops.saturating_add(1).saturating_mul(128)
}

/// The JSON text of the answer to a pull: its cookie, the last mutation ids of clients, which are in the order of their
/// bytes and each once, and the patch.
pub fn pull_text(alloc: Global, cookie: &Cookie, ids: &Clients, ops: &Ops) -> Result<Bytes, Memory>
    requires { InOrder (λ p. p.0) ids.now }
    ensures { IfOk result (λ s. s ≡ pull_json cookie.now ids.now ops.now) }
{
    let mut key_text = String::new(alloc);
    let mut out = Writer::new(Vec::with_capacity(alloc, likely_length(ops.len()))?);
    write_pull(&mut out, &mut key_text, cookie, ids, ops)?;
    Ok(Sequence::from_vec(out.into_inner()))
}
