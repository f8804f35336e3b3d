// The text of a row.
ghost use Rattle.std.specs.Prelude.{◌≡◌, IfOk};
ghost use Rattle.serde_json.specs.Written.{compact_text};
ghost use Rattle.rv_rows.specs.RowTexts.{row_data};

use json::Writer;
use rv_base::Memory;
use rv_rows::{Row, write_row};
use std::alloc::Global;

// The row as compact JSON.
pub(crate) fn row_json(alloc: Global, row: &Row) -> Result<Vec<u8>, Memory>
    ensures { IfOk result (λ text. text.items ≡ compact_text (row_data row.now)) }
{
    let mut out = Writer::new(Vec::new(alloc));
    write_row(&mut out, row)?;
    Ok(out.into_inner())
}
