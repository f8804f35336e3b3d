// What a user sees, as CSV.
ghost use Rattle.std.specs.Prelude.{◌≡◌, ◌<◌, IfOk, OnOk};
ghost use Rattle.rv_rows.specs.Held.{rows_in};
ghost use Rattle.rv_rows.specs.Sharing.{seen};
ghost use Rattle.rv_csv.specs.Views.{view_text, IsView};
ghost use Rattle.rv_csv.specs.Exports.{ReadsBack};

use rv_base::{Bytes, Memory, Steps, User};
use rv_csv::view_text;
use rv_rows::Tables;
use rv_sharing::rows_seen;
use std::alloc::Global;
use std::marker::Brand;
use std::sync::ledger::{Blank, Ledger};

// The text of what a user sees, with a count of the rows that are read.
fn text_from<L: Ledger>(
    alloc: Global,
    tables: &Tables,
    user: &User,
    blank: Blank,
) -> Result<Bytes, Memory>
    requires name { blank.name ≡ L.name }
    requires parts { (blank.parts ≡ L.parts) × (0 < L.parts) }
    ensures text { IfOk result (λ text. text ≡ view_text (seen user.now (rows_in tables.now.rows))) }
    ensures view { OnOk result (IsView (seen user.now (rows_in tables.now.rows))) }
{
    tables.fits();
    let mut steps = Steps::<L>::new(blank);
    let rows = rows_seen(alloc, tables, user, &mut steps)?;
    view_text(alloc, &rows)
}

/// The rows that the user sees, as [`view_text`] writes a view: the user's extent, and those of the lists that the user sees, in
/// the order of their keys.
pub fn export_text(alloc: Global, tables: &Tables, user: &User) -> Result<Bytes, Memory>
    // The text is that of exactly the rows that the user sees.
    ensures text { IfOk result (λ text. text ≡ view_text (seen user.now (rows_in tables.now.rows))) }

    // They are a view, and what reads the text as one gives them again.
    ensures view { OnOk result (IsView (seen user.now (rows_in tables.now.rows))) }
    ensures again { IfOk result (ReadsBack (seen user.now (rows_in tables.now.rows))) }
{
    text_from::<Brand>(alloc, tables, user, Blank::new(1))
}
