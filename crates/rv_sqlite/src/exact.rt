// Whether a schema has the table, apart from what stands beside it, or nothing of its name.
ghost use Rattle.std.specs.Prelude.{◌≡◌, ◌↔◌, ◌==◌, ◌^◌, ◌&&◌, ◌||◌, ◌∷◌, [], IsTrue, codes, nat_lt, not};
ghost use Rattle.std.specs.List.{list_all, list_any, position_from};
ghost use Rattle.sqlite_value.specs.Keys.{plain};
ghost use Rattle.sqlite_schema.specs.Names.{same_name, table_named};
ghost use Rattle.sqlite_schema.specs.Rules.{guards};
ghost use Rattle.rv_sqlite.specs.Shape.{HasCellColumns, HasNoRules, cell_columns};
ghost use Rattle.rv_sqlite.specs.Table.{HasCellForm, KnownAt, cell_in, has_counts, is_alone, is_apart, is_first, is_guarded, is_of_key, is_of_table, is_unused, leads_elsewhere, names_cell, strict_column};

use sqlite_items::Items;
use sqlite_schema::code::Terms;
use sqlite_schema::names::same_name;
use sqlite_schema::schema::{Column, Index, Kind, Reference, Schema, Stamps, Table};
use sqlite_value::keys::{Collation, Order};
use sqlite_value::value::Value;

// A column of this name and kind that takes values of its kind alone, and no null.
fn is_column(column: &Column, name: &[u8], kind: Kind) -> bool
    ensures { IsTrue result ↔ (column.now ≡ record (strict_column name.now kind) { default = column.now.default }) }
{
    column.name.as_slice() == name
        && column.kind == kind
        && column.is_strict
        && column.not_null
        && column.collation == Collation::Binary
}

// The same, with no default.
fn is_strict_column(column: &Column, name: &[u8], kind: Kind) -> bool
    ensures { IsTrue result ↔ (column.now ≡ strict_column name.now kind) }
{
    is_column(column, name, kind) && matches!(column.default, Value::Null)
}

// The columns `shelf`, `k` and `body`.
fn are_all_columns(columns: &[Column]) -> bool
    ensures { IsTrue result ↔ (columns.now ≡ cell_columns) }
{
    match columns {
        [shelf, key, body] => {
            is_strict_column(shelf, b"shelf".as_slice(), Kind::Integer)
                && is_strict_column(key, b"k".as_slice(), Kind::Blob)
                && is_strict_column(body, b"body".as_slice(), Kind::Blob)
        }
        _ => false,
    }
}

// The columns 1 and 2: `shelf` and then `k`.
fn is_key(places: &Items<usize>) -> bool
    ensures { IsTrue result ↔ (places.now ≡ 1 ∷ 2 ∷ []) }
{
    places.as_slice() == [1, 2].as_slice()
}

// That key is the only one.
fn is_only_key(keys: &[Items<usize>]) -> bool
    ensures { IsTrue result ↔ (keys.now ≡ (1 ∷ 2 ∷ []) ∷ []) }
{
    match keys {
        [key] => is_key(key),
        _ => false,
    }
}

// Each column of the key ascends by its bytes.
fn is_plain_order(orders: &[Order]) -> bool
    ensures { IsTrue result ↔ (orders.now ≡ plain ∷ []) }
{
    match orders {
        [order] => order.digits == 0,
        _ => false,
    }
}

// There are none.
fn are_no_terms(terms: &Terms) -> bool
    ensures { IsTrue result ↔ (terms.now ≡ []) }
{
    terms.roots.is_empty()
}

// No default reads the time.
fn are_no_stamps(stamps: &Stamps) -> bool
    ensures { IsTrue result ↔ (stamps.now ≡ record { places = []; terms = []; formats = [] }) }
{
    stamps.places.is_empty() && are_no_terms(&stamps.terms) && stamps.formats.is_empty()
}

// The table has the three columns and the key, and no other.
fn has_columns(table: &Table) -> bool
    ensures { IsTrue result ↔ HasCellColumns table.now }
{
    are_all_columns(table.columns.as_slice())
        && table.key.is_none()
        && is_key(&table.primary)
        && is_only_key(table.uniques.as_slice())
        && is_plain_order(table.orders.as_slice())
}

// The table has no rule but its columns and its key.
fn has_no_rules(table: &Table) -> bool
    ensures { IsTrue result ↔ HasNoRules table.now }
{
    are_no_terms(&table.checks)
        && table.references.is_empty()
        && table.computed.is_empty()
        && are_no_stamps(&table.stamps)
        && !table.is_counted
}

/// The table is of the form in which `cell` is made, wherever its rows stand.
pub(crate) fn has_form(table: &Table) -> bool
    ensures { IsTrue result ↔ HasCellForm table.now }
{
    table.name.as_slice() == b"cell".as_slice() && has_columns(table) && has_no_rules(table)
}

// The foreign key names the table.
fn names_cell(reference: &Reference) -> bool
    ensures { result ≡ names_cell reference.now }
{
    same_name(b"cell".as_slice(), reference.parent.as_slice())
}

// No foreign key of the table names it.
fn names_no_cell(table: &Table) -> bool
    ensures { result ≡ list_all (λ reference. not (names_cell reference)) table.now.references }
{
    table
        .references
        .as_slice()
        .iter()
        .all(|reference| !names_cell(reference))
}

// The index is of a table of the schema.
fn is_of_table(schema: &Schema, index: &Index) -> bool
    ensures { result ≡ is_of_table schema.now index.now }
{
    schema
        .tables
        .as_slice()
        .iter()
        .any(|table| table.tree == index.table)
}

// No table of them counts its rows.
fn count_nothing(tables: &[Table]) -> bool
    ensures { result ≡ list_all (λ table. not table.is_counted) tables.now }
{
    tables.iter().all(|table| !table.is_counted)
}

// Where a table counts its rows, the schema has the table for such counts.
fn has_counts(schema: &Schema) -> bool
    ensures { result ≡ has_counts schema.now }
{
    schema.table_named(b"sqlite_sequence".as_slice()).is_some()
        || count_nothing(schema.tables.as_slice())
}

// Each index is of a table of the schema.
fn are_of_tables(schema: &Schema) -> bool
    ensures { result ≡ list_all (is_of_table schema.now) schema.now.indexes }
{
    schema
        .indexes
        .as_slice()
        .iter()
        .all(|index| is_of_table(schema, index))
}

// No foreign key names the table.
fn name_no_cell(tables: &[Table]) -> bool
    ensures { result ≡ list_all (λ table. list_all (λ reference. not (names_cell reference)) table.references) tables.now }
{
    tables.iter().all(names_no_cell)
}

// No index and no view has the name.
fn is_alone(schema: &Schema) -> bool
    ensures { result ≡ is_alone schema.now }
{
    let name = b"cell".as_slice();
    schema.index_named(name).is_none() && schema.view_named(name).is_none()
}

// Nothing of the schema has the name, no foreign key names it, and each index and each count has its table.
fn is_unused(schema: &Schema) -> bool
    ensures { result ≡ is_unused schema.now }
{
    schema.table_named(b"cell".as_slice()).is_none()
        && is_alone(schema)
        && has_counts(schema)
        && are_of_tables(schema)
        && name_no_cell(schema.tables.as_slice())
}

// The index is a unique one of the table with its rows in this tree.
fn guards(index: &Index, tree: u32) -> bool
    ensures { result ≡ guards index.now (cell_in tree) }
{
    index.is_unique && index.table == tree
}

// The index has the columns and the order of the table's key.
fn is_of_key(index: &Index) -> bool
    ensures { result ≡ is_of_key index.now }
{
    index.columns.as_slice() == [1, 2].as_slice() && index.order.digits == 0
}

// One of them is such an index.
fn have_guard(indexes: &[Index], tree: u32) -> bool
    ensures { result ≡ list_any (λ index. guards index (cell_in tree)) indexes.now }
{
    indexes.iter().any(|index| guards(index, tree))
}

// The index is none such, or of the table's key.
fn guards_key(index: &Index, tree: u32) -> bool
    ensures { result ≡ (not (guards index.now (cell_in tree)) || is_of_key index.now) }
{
    !guards(index, tree) || is_of_key(index)
}

// So is each of them.
fn guard_key(indexes: &[Index], tree: u32) -> bool
    ensures { result ≡ list_all (λ index. not (guards index (cell_in tree)) || is_of_key index) indexes.now }
{
    indexes.iter().all(|index| guards_key(index, tree))
}

// The table's unique indexes are of its key, and there is one.
fn is_guarded(schema: &Schema, tree: u32) -> bool
    ensures { result ≡ is_guarded schema.now tree }
{
    let indexes = schema.indexes.as_slice();
    have_guard(indexes, tree) && guard_key(indexes, tree)
}

// The table has the name, and its rows are in this tree.
fn is_parent(table: &Table, name: &[u8], tree: u32) -> bool
    ensures { result ≡ (same_name table.now.name name.now && (table.now.tree == tree)) }
{
    table.is_named(name) && table.tree == tree
}

// The foreign key leads to no table with its rows in this tree.
fn leads_elsewhere(schema: &Schema, tree: u32, reference: &Reference) -> bool
    ensures { result ≡ leads_elsewhere schema.now tree reference.now }
{
    schema.tables.as_slice().iter().all(|table| !is_parent(
        table,
        reference.parent.as_slice(),
        tree,
    ))
}

// Each foreign key of the table does so.
fn lead_elsewhere(schema: &Schema, tree: u32, table: &Table) -> bool
    ensures { result ≡ list_all (leads_elsewhere schema.now tree) table.now.references }
{
    table
        .references
        .as_slice()
        .iter()
        .all(|reference| leads_elsewhere(schema, tree, reference))
}

// So does each foreign key of each table.
fn all_lead_elsewhere(schema: &Schema, tree: u32) -> bool
    ensures { result ≡ list_all (λ table. list_all (leads_elsewhere schema.now tree) table.references) schema.now.tables }
{
    schema
        .tables
        .as_slice()
        .iter()
        .all(|table| lead_elsewhere(schema, tree, table))
}

// The position of the first table with its rows in this tree.
fn position_of(tables: &[Table], tree: u32) -> Option<usize>
    ensures { result ≡ position_from (λ table. table.tree == tree) 0 tables.now }
{
    tables.iter().position(|table| table.tree == tree)
}

// The first table with its rows in this tree stands at this position.
fn is_first(schema: &Schema, at: usize, tree: u32) -> bool
    ensures { result ≡ is_first schema.now at tree }
{
    match position_of(schema.tables.as_slice(), tree) {
        Some(first) => first == at,
        None => false,
    }
}

// The tree is below 2^31.
fn is_low(tree: u32) -> bool
    ensures { result ≡ nat_lt tree (2 ^ 31) }
{
    tree < 0x8000_0000
}

// Nothing else of the schema has a part in what is written into the table's tree.
fn is_apart(schema: &Schema, at: usize, tree: u32) -> bool
    ensures { result ≡ is_apart schema.now at tree }
{
    is_first(schema, at, tree)
        && is_low(tree)
        && is_guarded(schema, tree)
        && all_lead_elsewhere(schema, tree)
        && is_alone(schema)
}

/// The schema has nothing of the name, or the table `cell`, whatever stands beside it.
pub(crate) fn is_known(schema: &Schema) -> bool
    ensures { IsTrue result ↔ KnownAt schema.now (table_named schema.now (codes "cell")) }
{
    let Some(at) = schema.table_named(b"cell".as_slice()) else {
        return is_unused(schema);
    };
    match schema.tables.get(at) {
        Some(table) => has_form(table) && is_apart(schema, at, table.tree),
        None => false,
    }
}
