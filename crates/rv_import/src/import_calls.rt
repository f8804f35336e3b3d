// The calls of an import's records.
ghost use Rattle.std.specs.Prelude.{◌≡◌, ◌≢◌, ◌∷◌, [], Some, None, IfOk, IfSome, IfNone, length, true, false};
ghost use Rattle.std.specs.Str.{is_utf8};
ghost use Rattle.csv.specs.Records.{fields_of};
ghost use Rattle.rv_import.specs.Imports.{flag_in, create_in, texts_in, call_of_record, is_import_header};

use csv::ByteRecord;
use rv_base::{Id, Memory};
use rv_rows::{Call, Reason, text_within};
use std::alloc::Global;

// Whether the text is `true` or `false`, where it is one of them.
fn flag_of(text: &str) -> Option<bool>
    ensures { result ≡ flag_in text.now }
{
    match text {
        "true" => Some(true),
        "false" => Some(false),
        _ => None,
    }
}

// A new todo of this id, where the texts are of the sizes and forms.
#[tactic(auto, unfolding(crate::specs::Imports::create_in))]
fn create(
    alloc: Global,
    id: Id,
    list: &str,
    text: &str,
    complete: &str,
) -> Result<Option<Call>, Memory>
    ensures { IfOk result (λ o. o ≡ create_in id list.now text.now complete.now) }
{
    let Some(list) = text_within(alloc, list)? else {
        return Ok(None);
    };
    let Some(text) = text_within(alloc, text)? else {
        return Ok(None);
    };
    let Some(complete) = flag_of(complete) else {
        return Ok(None);
    };
    Ok(Some(Call::CreateTodo {
        id,
        list,
        text,
        complete,
    }))
}

// The three fields of a record that has three.
fn three_fields(fields: &ByteRecord) -> Option<(&[u8], &[u8], &[u8])>
    ensures found { IfSome result (λ t. fields_of fields.now ≡ t.0.now ∷ t.1.now ∷ t.2.now ∷ []) }
    ensures none { IfNone result (length (fields_of fields.now) ≢ 3) }
{
    if fields.len() != 3 {
        return None;
    }
    let list = fields.get(0)?;
    let text = fields.get(1)?;
    let complete = fields.get(2)?;
    Some((list, text, complete))
}

// Whether the record is the header.
pub(crate) fn is_import_header(fields: &ByteRecord) -> bool
    ensures { result ≡ is_import_header (fields_of fields.now) }
{
    match three_fields(fields) {
        Some((list, text, complete)) => {
            list == b"list".as_slice()
                && text == b"text".as_slice()
                && complete == b"complete".as_slice()
        }
        None => false,
    }
}

// The text of these bytes, where they are UTF-8.
#[tactic(auto, using(rv_csv::proofs::FieldLaws::is_text, rv_csv::proofs::FieldLaws::no_text))]
fn text_of(bytes: &[u8]) -> Option<&str>
    ensures found { IfSome result (λ text. (text.now ≡ bytes.now) × (is_utf8 bytes.now ≡ true)) }
    ensures none { IfNone result (is_utf8 bytes.now ≡ false) }
{
    match str::from_utf8(bytes) {
        Ok(text) => Some(text),
        Err(_) => None,
    }
}

// The three texts of a record of three fields of UTF-8.
fn three_texts(fields: &ByteRecord) -> Option<(&str, &str, &str)>
    ensures found { IfSome result (λ t. texts_in (fields_of fields.now) ≡ Some (t.0.now, t.1.now, t.2.now)) }
    ensures none { IfNone result (texts_in (fields_of fields.now) ≡ None) }
{
    let (list, text, complete) = three_fields(fields)?;
    let list = text_of(list)?;
    let text = text_of(text)?;
    let complete = text_of(complete)?;
    Some((list, text, complete))
}

// The call of a record for the todo of this id: a new todo of the list, the text and the flag that its three fields are, or
// `Void(BadArgs)` where they are not of the sizes and forms. A record that is not three fields of UTF-8 has none.
pub(crate) fn call_of_record(
    alloc: Global,
    id: Id,
    fields: &ByteRecord,
) -> Result<Option<Call>, Memory>
    ensures { IfOk result (λ o. o ≡ call_of_record id (fields_of fields.now)) }
{
    let Some((list, text, complete)) = three_texts(fields) else {
        return Ok(None);
    };
    match create(alloc, id, list, text, complete)? {
        Some(call) => Ok(Some(call)),
        None => Ok(Some(Call::Void(Reason::BadArgs))),
    }
}
