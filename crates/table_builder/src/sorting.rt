// Whether the rows of tables are sorted.
ghost use Rattle.std.specs.Prelude.{◌≡◌, ◌≤◌, ◌<◌, ◌^◌, ◌↔◌, IsTrue};
ghost use Rattle.index_pages.specs.Keys.{low_for};
ghost use Rattle.table_builder.specs.Image.{AreRows};
ghost use Rattle.table_builder.specs.Plan.{AreSorted};

use history::Rows;
use record_slots::{Name, Value};

/// Whether the keys of each table rise strictly.
pub fn are_sorted(tables: &[(Name, Rows)]) -> bool
    ensures { IsTrue result ↔ AreSorted tables.now }
{
    for table in tables {
        // What is kept as a name is one.
        let _name = table.0.as_bytes();
        if !are_rows(table.1.as_slice()) {
            return false;
        }
    }
    true
}

// Whether the keys of rows rise strictly.
fn are_rows(rows: &[(u64, Value)]) -> bool
    ensures { IsTrue result ↔ AreRows 0 rows.now }
{
    let mut last = None;
    for row in rows {
        // What is kept as a value is one.
        let _text = row.1.as_bytes();
        if !may_follow(last, row.0) {
            return false;
        }
        last = Some(row.0);
    }
    true
}

// Whether a key may come behind the last one, or be the first.
fn may_follow(last: Option<u64>, key: u64) -> bool
    ensures rises { IsTrue result ↔ (low_for 0 last ≤ key) }
    ensures small { key < 2 ^ 64 }
{
    match last {
        None => true,
        Some(last) => last < key,
    }
}
