// What a schema has under the name of the table.
ghost use Rattle.std.specs.Prelude.{◌≡◌, ◌↔◌, codes, None};
ghost use Rattle.sqlite_schema.specs.Names.{table_named};
ghost use Rattle.rv_sqlite.specs.Table.{FindsForm};

use crate::exact::has_form;
use sqlite_schema::schema::Schema;

/// What a schema has under the name of the table.
#[derive(Clone, Copy, Debug)]
pub(crate) enum TableFound {
    /// No table.
    Missing,
    /// A table of the form in which it is made.
    Fits,
    /// Another table.
    Other,
}

/// What the schema has under the name of the table.
pub(crate) fn find_table(schema: &Schema) -> TableFound
    ensures missing { (result ≡ TableFound.Missing) ↔ (table_named schema.now (codes "cell") ≡ None) }
    ensures form { (result ≡ TableFound.Fits) ↔ FindsForm schema.now }
{
    let Some(at) = schema.table_named(b"cell".as_slice()) else {
        return TableFound::Missing;
    };
    match schema.tables.get(at) {
        Some(table) if has_form(table) => TableFound::Fits,
        _ => TableFound::Other,
    }
}
