// Views from CSV.
ghost use Rattle.std.specs.Prelude.{◌≡◌, ◌++◌, ◌∷◌, [], List, ℕ, Bool, true, false, IfOk, OnOk, IfSome, IfNone, IsTrue, ◌↔◌};
ghost use Rattle.csv.specs.Records.{fields_of};
ghost use Rattle.std.specs.Cmp.Lexicographic.{slice_cmp};
ghost use Rattle.std.specs.Ordering.{nat_cmp};
ghost use Rattle.rv_rows.specs.Keys.{row_text};
ghost use Rattle.rv_rows.specs.declared.row.Row.{Row};
ghost use Rattle.rv_csv.specs.Records.{records_of};
ghost use Rattle.rv_csv.specs.Views.{header, row_record, view_records, view_text, IsRow, IsView, CantFollow, HasNoHeader, IsBadAt, ReadsView, GivesRows, BlamesRecord};
ghost use Rattle.rv_csv.specs.Left.{HasHeader, NextRow};

use crate::records::Records;
use crate::row_reading::{row_of_record, two_fields};
use crate::view::View;
use crate::view_fault::ViewFault;
use csv::ByteRecord;
use json::Scratch;
use rv_base::{Memory, Sequence};
use rv_rows::Row;
use std::alloc::Global;
use std::cmp::Ordering;

// Whether the record is the header.
fn is_header(fields: &ByteRecord) -> bool
    ensures { IsTrue result ↔ (fields_of fields.now ≡ header) }
{
    match two_fields(fields) {
        Some((first, second)) => first == b"key".as_slice() && second == b"value".as_slice(),
        None => false,
    }
}

// How a row's key stands to another's.
fn compare(row: &Row, other: &Row) -> Ordering
    ensures { result ≡ slice_cmp nat_cmp (row_text row.now) (row_text other.now) }
{
    row.compare_key(other.kind(), other.id())
}

// Whether the row's key is above that of the last of these, if there is one.
fn may_follow(rows: &[Row], row: &Row) -> bool
    ensures { IsView rows.now → IsRow row.now → IsTrue result ↔ IsView (rows.now ++ row.now ∷ []) }
{
    match rows.split_last() {
        None => true,
        Some((last, _before)) => compare(last, row).is_lt(),
    }
}

// The row whose record this is, where it may come after these rows.
fn row_after(
    alloc: Global,
    rows: &[Row],
    fields: &ByteRecord,
    scratch: &mut Scratch,
) -> Result<Option<Row>, Memory>
    ensures found { IsView rows.now → IfOk result (λ o. IfSome o (λ row. IsView (rows.now ++ row ∷ []) × (fields_of fields.now ≡ row_record row))) }
    ensures none { IsView rows.now → IfOk result (λ o. IfNone o (CantFollow rows.now (fields_of fields.now))) }
{
    let Some(row) = row_of_record(alloc, fields, scratch)? else {
        return Ok(None);
    };
    if may_follow(rows, &row) {
        Ok(Some(row))
    } else {
        Ok(None)
    }
}

// One more row, at the end.
fn add(rows: &mut Vec<Row>, row: Row) -> Result<(), Memory>
    ensures { OnOk result (rows.new.items ≡ rows.old.items ++ row ∷ []) }
{
    rows.push(row)?;
    Ok(())
}

// Goes past the header, where it is the next record.
fn go_past_header(records: &mut Records<'_>, fields: &mut ByteRecord) -> Result<bool, Memory>
    ensures { IfOk result (λ found. HasHeader found records.old records.new) }
{
    Ok(records.read(fields)? && is_header(fields))
}

// The row of the next record, where there is one.
fn next_row(
    alloc: Global,
    records: &mut Records<'_>,
    fields: &mut ByteRecord,
    rows: &[Row],
    scratch: &mut Scratch,
) -> Result<Option<Row>, ViewFault>
    ensures { IsView rows.now → NextRow rows.now records.old records.new result }
{
    if !records.read(fields)? {
        return Ok(None);
    }
    match row_after(alloc, rows, fields, scratch)? {
        Some(row) => Ok(Some(row)),
        None => Err(ViewFault::BadRecord(rows.len() as u64 + 1)),
    }
}

// The rows whose records these are.
fn rows_of(alloc: Global, bytes: &[u8]) -> Result<View, ViewFault>
    ensures { ReadsView bytes.now result }
{
    let mut records = Records::new(alloc, bytes);
    let mut fields = ByteRecord::new(alloc);
    let mut scratch = Scratch::new(alloc);
    if !go_past_header(&mut records, &mut fields)? {
        return Err(ViewFault::BadRecord(0));
    }
    let mut rows = Vec::new(alloc);
    while let Some(row) = next_row(alloc, &mut records, &mut fields, &rows, &mut scratch)? {
        add(&mut rows, row)?;
    }
    Ok(Sequence::from_vec(rows))
}

/// The rows whose view's text has these records: the header `key,value`, and then for each row the text of its key and its
/// compact JSON, keys rising by their bytes.
///
/// `BadRecord` names the first record that is not of that form, and `Memory` may come at any bytes.
pub fn read_view(alloc: Global, bytes: &[u8]) -> Result<View, ViewFault>
    // What is read, and what is not.
    ensures reads { ReadsView bytes.now result }
    // Such bytes are read, and those of a view's text are.
    ensures only { (rows : List Row) → IsView rows → records_of bytes.now ≡ view_records rows → GivesRows rows result }
    ensures again { (rows : List Row) → IsView rows → bytes.now ≡ view_text rows → GivesRows rows result }
    // At any others the first record that is not of the form is named.
    ensures bad { (n : ℕ) → IsBadAt n (records_of bytes.now) → BlamesRecord n result }
{
    rows_of(alloc, bytes)
}
