// Views as CSV.
ghost use Rattle.std.specs.Prelude.{◌≡◌, ◌++◌, ◌∷◌, List, ℕ, [], IfOk, OnOk, map};
ghost use Rattle.csv.specs.Writing as csv_texts;
ghost use Rattle.rv_base.specs.Sorted.{InOrder};
ghost use Rattle.rv_rows.specs.Keys.{row_text};
ghost use Rattle.rv_csv.specs.Views.{header, row_record, view_text, IsRow, IsView};
ghost use Rattle.rv_csv.specs.Writing.{HasWritten};

use crate::errors::memory_of;
use crate::row_reading::is_row;
use crate::texts::row_json;
use csv::{Writer, WriterBuilder};
use rv_base::{Bytes, Memory};
use rv_rows::Row;
use std::alloc::Global;

// Adds a record of two fields.
fn add_record(out: &mut Writer<Vec<u8>>, first: &[u8], second: &[u8]) -> Result<(), Memory>
    ensures { OnOk result ((text : List ℕ) → HasWritten (λ v. v.items) out.old text → HasWritten (λ v. v.items) out.new (text ++ csv_texts.row_text csv_texts.default_writer (first.now ∷ second.now ∷ []))) }
{
    match out.write_fields(&[first, second]) {
        Ok(()) => Ok(()),
        Err(error) => Err(memory_of(error)),
    }
}

// Adds the record of a row.
fn add_row(alloc: Global, out: &mut Writer<Vec<u8>>, row: &Row) -> Result<(), Memory>
    ensures written { OnOk result ((text : List ℕ) → HasWritten (λ v. v.items) out.old text → HasWritten (λ v. v.items) out.new (text ++ csv_texts.row_text csv_texts.default_writer (row_record row.now))) }
    ensures row { IsRow row.now }
{
    is_row(row);
    let key = row.kind().key_text(alloc, row.id())?;
    let value = row_json(alloc, row)?;
    add_record(out, key.as_bytes(), &value)
}

/// The rows as CSV: the record `key,value`, and for each row, as they come, the text of its key and its compact JSON.
pub fn view_text(alloc: Global, rows: &[(&Row, u32)]) -> Result<Bytes, Memory>
    ensures text { IfOk result (λ text. text ≡ view_text (map (λ pair. pair.0.now) rows.now)) }
    // Where they come in the order of their keys they are a view, so that `read_view` gives them again.
    ensures view { OnOk result (InOrder row_text (map (λ pair. pair.0.now) rows.now) → IsView (map (λ pair. pair.0.now) rows.now)) }
{
    let mut out = WriterBuilder::new().from_writer(Vec::new(alloc));
    add_record(&mut out, b"key", b"value")?;
    for pair in rows {
        add_row(alloc, &mut out, pair.0)?;
    }
    match out.into_inner() {
        Ok(text) => Ok(Bytes::from_vec(text)),
        Err(error) => Err(memory_of(error.into_error())),
    }
}
