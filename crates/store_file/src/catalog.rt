//! The three tables of a store's file.
ghost use Rattle.std.specs.Prelude.{◌≡◌, ◌↔◌, ℤ, IfNone, IfSome, IsTrue, MatchResult, map};
ghost use Rattle.sqlite_store.specs.Catalog.{wanted_of};
ghost use Rattle.store_file.specs.Catalog.{AreOfFormat, IsTableRow, Lists, ListsTwo, RefusesTables, laid_out};

use crate::fault::StoreFault;
use sqlite_trees::schema::Object;
use sqlite_trees::store::Shape;
use sqlite_value::keys::Order;
use sqlite_value::order::is_same;
use sqlite_value::row::Row;
use sqlite_value::value::ValueRef;

/// The number of the tree of entries.
pub const ENTRIES: u32 = 0;

/// The number of the tree that says whose store it is, and in which format.
pub const ABOUT: u32 = 1;

/// The number of the tree of cells, in which `store_tree` keeps the Merkle tree of the latest rows.
pub const CELLS: u32 = 2;

/// How the table of entries is made.
pub const ENTRIES_SQL: &str =
    "CREATE TABLE entry (key TEXT NOT NULL, time INTEGER NOT NULL, writer TEXT NOT NULL, value ANY NOT NULL, PRIMARY KEY (key, time, writer, value)) STRICT, WITHOUT ROWID";

/// How the table of the format, the writer and the hash key is made.
pub const ABOUT_SQL: &str =
    "CREATE TABLE about (id INTEGER PRIMARY KEY, format INTEGER NOT NULL, writer TEXT NOT NULL, hash_key BLOB NOT NULL) STRICT";

/// How the table of cells is made.
pub const CELLS_SQL: &str =
    "CREATE TABLE cell (level INTEGER NOT NULL, front ANY NOT NULL, digest ANY, count INTEGER, PRIMARY KEY (level, front)) STRICT, WITHOUT ROWID";

/// How the table of the format and the writer was made in formats 1 and 2.
pub const FORMER_ABOUT_SQL: &str =
    "CREATE TABLE about (id INTEGER PRIMARY KEY, format INTEGER NOT NULL, writer TEXT NOT NULL) STRICT";

/// How the table of entries was made in format 1.
pub const FORMER_ENTRIES_SQL: &str =
    "CREATE TABLE entry (id INTEGER PRIMARY KEY, key TEXT NOT NULL, time INTEGER NOT NULL, writer TEXT NOT NULL, value TEXT) STRICT";

/// The three tables, each at its number.
pub fn objects() -> [Object<'static>; 3]
    ensures { map wanted_of result ≡ laid_out }
{
    [
        Object {
            shape: Shape::Index(Order::PLAIN),
            kind: "table",
            name: "entry",
            table: "entry",
            reals: 0,
            sql: Some(ENTRIES_SQL),
        },
        Object {
            shape: Shape::Table,
            kind: "table",
            name: "about",
            table: "about",
            reals: 0,
            sql: Some(ABOUT_SQL),
        },
        Object {
            shape: Shape::Index(Order::PLAIN),
            kind: "table",
            name: "cell",
            table: "cell",
            reals: 0,
            sql: Some(CELLS_SQL),
        },
    ]
}

/// Whether a row of `sqlite_schema` is that of a table which is made so.
fn is_table(row: &Row, name: &[u8], sql: &[u8]) -> bool
    ensures { IsTrue result ↔ IsTableRow name.now sql.now row.now }
{
    is_same(row.get(1), ValueRef::Text(b"table"))
        && is_same(row.get(2), ValueRef::Text(name))
        && is_same(row.get(3), ValueRef::Text(name))
        && is_same(row.get(5), ValueRef::Text(sql))
}

/// Whether these rows of `sqlite_schema` are those of a store in an earlier format, whose two tables are made so.
fn lists_two(rows: &[Row], entries: &str, about: &str) -> bool
    ensures { IsTrue result ↔ ListsTwo entries.now about.now rows.now }
{
    match rows {
        [first, second] => is_table(first, b"entry", entries.as_bytes())
            && is_table(second, b"about", about.as_bytes()),
        _ => false,
    }
}

/// Whether these rows of `sqlite_schema` are those of a store.
fn lists(rows: &[Row]) -> bool
    ensures { IsTrue result ↔ Lists rows.now }
{
    match rows {
        [first, second, third] => is_table(first, b"entry", ENTRIES_SQL.as_bytes())
            && is_table(second, b"about", ABOUT_SQL.as_bytes())
            && is_table(third, b"cell", CELLS_SQL.as_bytes()),
        _ => false,
    }
}

/// The earlier format of a store whose rows they are.
fn former_format(rows: &[Row]) -> Option<i64>
    ensures told { IfSome result (λ format. AreOfFormat format rows.now) }
    ensures other { IfNone result ((format : ℤ) → ¬ AreOfFormat format rows.now) }
{
    if lists_two(rows, FORMER_ENTRIES_SQL, FORMER_ABOUT_SQL) {
        return Some(1);
    }
    if lists_two(rows, ENTRIES_SQL, FORMER_ABOUT_SQL) {
        return Some(2);
    }
    if lists_two(rows, ENTRIES_SQL, ABOUT_SQL) {
        return Some(3);
    }
    None
}

/// Refuses the rows of `sqlite_schema` that aren't those of a store.
///
/// # Errors
///
/// [`StoreFault::Format`] for those of a store in an earlier format, and [`StoreFault::Foreign`] for others.
pub fn expect_tables(rows: &[Row]) -> Result<(), StoreFault>
    ensures { MatchResult result (λ _. Lists rows.now) (RefusesTables rows.now) }
{
    if lists(rows) {
        return Ok(());
    }
    match former_format(rows) {
        Some(format) => Err(StoreFault::Format(format)),
        None => Err(StoreFault::Foreign),
    }
}
