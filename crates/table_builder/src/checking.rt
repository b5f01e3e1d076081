// Whether tables are such as an array may have.
ghost use Rattle.std.specs.Prelude.{◌<◌, ◌↔◌, ℕ, IsTrue, length};
ghost use Rattle.table_builder.specs.Plan.{BeginsWithMain, HasOwnName};

use history::Rows;
use record_slots::Name;

const MAIN: &[u8] = b"main";

/// Whether the first table is `main`.
pub fn has_main(tables: &[(Name, Rows)]) -> bool
    ensures { IsTrue result ↔ BeginsWithMain tables.now }
{
    match tables.first() {
        Some(table) => table.0.as_bytes() == MAIN,
        None => false,
    }
}

/// Whether no two tables have one name.
pub fn are_apart(tables: &[(Name, Rows)]) -> bool
    ensures { IsTrue result ↔ ((j : ℕ) → HasOwnName tables.now j) }
{
    for j in 0..tables.len() {
        if !has_own_name(tables, j) {
            return false;
        }
    }
    true
}

// Whether no table before table `j` has its name.
fn has_own_name(tables: &[(Name, Rows)], j: usize) -> bool
    requires { j < length tables.now }
    ensures { IsTrue result ↔ HasOwnName tables.now j }
{
    for i in 0..j {
        if tables[i].0.as_bytes() == tables[j].0.as_bytes() {
            return false;
        }
    }
    true
}
