// The row that a record is of.
ghost use Rattle.std.specs.Prelude.{◌≡◌, ◌↔◌, ◌∷◌, [], List, ℕ, IfOk, IfSome, IfNone, IsTrue};
ghost use Rattle.rv_json.specs.ValueData.{value_data};
ghost use Rattle.serde_json.specs.Written.{compact_text};
ghost use Rattle.rv_rows.specs.declared.row.Row.{Row};
ghost use Rattle.rv_rows.specs.Keys.{row_text};
ghost use Rattle.rv_rows.specs.RowTexts.{row_data, row_in};
ghost use Rattle.csv.specs.Records.{fields_of};
ghost use Rattle.rv_csv.specs.Views.{IsRow, row_record};
ghost use Rattle.rv_csv.specs.RowReading.{row_text_in};

use crate::texts::row_json;
use csv::ByteRecord;
use json::{Scratch, Value};
use rv_base::Memory;
use rv_json::read_json;
use rv_record::texts_fit;
use rv_rows::{Row, read_row};
use std::alloc::Global;

// Every row's texts are UTF-8 and within their bounds.
pub(crate) fn is_row(row: &Row)
    ensures { IsRow row.now }
{
    texts_fit(row);
}

// The row that a value is, where it is exactly the value of one.
fn row_of_value(alloc: Global, value: &Value<'_>) -> Result<Option<Row>, Memory>
    ensures { IfOk result (λ o. o ≡ row_in (value_data value.now)) }
{
    read_row(alloc, value)
}

// The row whose JSON the text is, spaced and spelled in any way.
fn row_of_json(alloc: Global, text: &[u8], scratch: &mut Scratch) -> Result<Option<Row>, Memory>
    ensures { IfOk result (λ o. o ≡ row_text_in text.now) }
{
    match read_json(alloc, text, scratch)? {
        Some(value) => row_of_value(alloc, &value),
        None => Ok(None),
    }
}

// Whether the bytes are the same.
fn is_same(one: &[u8], other: &[u8]) -> bool
    ensures { IsTrue result ↔ (one.now ≡ other.now) }
{
    one == other
}

// The row whose text this is, if it is that of one.
fn row_of_text(alloc: Global, text: &[u8], scratch: &mut Scratch) -> Result<Option<Row>, Memory>
    ensures found { IfOk result (λ o. IfSome o (λ row. IsRow row × (text.now ≡ compact_text (row_data row)))) }
    ensures none { IfOk result (λ o. IfNone o ((row : Row) → IsRow row → ¬ (text.now ≡ compact_text (row_data row)))) }
{
    let Some(row) = row_of_json(alloc, text, scratch)? else {
        return Ok(None);
    };
    is_row(&row);
    let again = row_json(alloc, &row)?;
    if is_same(text, again.as_slice()) {
        Ok(Some(row))
    } else {
        Ok(None)
    }
}

// The two fields of a record that has two.
pub(crate) fn two_fields(fields: &ByteRecord) -> Option<(&[u8], &[u8])>
    ensures found { IfSome result (λ pair. fields_of fields.now ≡ pair.0.now ∷ pair.1.now ∷ []) }
    ensures none { IfNone result ((first second : List ℕ) → ¬ (fields_of fields.now ≡ first ∷ second ∷ [])) }
{
    if fields.len() != 2 {
        return None;
    }
    let first = fields.get(0)?;
    let second = fields.get(1)?;
    Some((first, second))
}

// The row whose record this is, if it is that of one.
pub(crate) fn row_of_record(
    alloc: Global,
    fields: &ByteRecord,
    scratch: &mut Scratch,
) -> Result<Option<Row>, Memory>
    ensures found { IfOk result (λ o. IfSome o (λ row. IsRow row × (fields_of fields.now ≡ row_record row))) }
    ensures none { IfOk result (λ o. IfNone o ((row : Row) → IsRow row → ¬ (fields_of fields.now ≡ row_record row))) }
{
    let Some((key, value)) = two_fields(fields) else {
        return Ok(None);
    };
    let Some(row) = row_of_text(alloc, value, scratch)? else {
        return Ok(None);
    };
    let own = row.kind().key_text(alloc, row.id())?;
    if is_same(key, own.as_bytes()) {
        Ok(Some(row))
    } else {
        Ok(None)
    }
}
