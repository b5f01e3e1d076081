// How many rows tables have, and how many pages their indexes take.
ghost use Rattle.std.specs.Prelude.{◌≡◌, ◌*◌, ◌≤◌, ◌<◌, ◌^◌, ℕ, List, IfSome, length};
ghost use Rattle.page_store.specs.Pairs.{Pair};
ghost use Rattle.table_builder.specs.Plan.{index_for, level_bytes, levels_of, pages_of, page_size, rows_count};

use history::Rows;
use index_pages::{HALF, LEVEL_MAX, PAIRS_MAX};
use record_slots::Name;

/// How many rows the tables have, if that can be counted.
pub fn count_rows(tables: &[(Name, Rows)]) -> Option<u64>
    ensures { IfSome result (λ count. count ≡ rows_count tables.now) }
{
    let mut count: u64 = 0;
    for table in tables {
        match count.checked_add(table.1.as_slice().len() as u64) {
            Some(more) => count = more,
            None => return None,
        }
    }
    Some(count)
}

/// How many pages the index of these tables takes, the super page and the roots among them.
pub fn pages_needed(fill: usize, tables: &[(Name, Rows)]) -> u64
    requires some { 15 ≤ fill }
    requires most { fill ≤ 30 }
    requires few { length tables.now ≤ 8 }
    ensures { result ≡ length (index_for fill tables.now) }
{
    let mut pages = 1 + tables.len() as u64;
    for table in tables {
        pages += count_below(fill, LEVEL_MAX, table.1.as_slice().len()) as u64;
    }
    pages
}

// How many pages the levels of so many pairs have below a root, where there are `left` levels at most.
fn count_below(fill: usize, left: u8, pairs: usize) -> usize
    requires some { 15 ≤ fill }
    requires most { fill ≤ 30 }
    requires small { pairs < 2 ^ 63 }
    ensures count { (level first : ℕ) (ps : List Pair) → length ps ≡ pairs → result ≡ length (level_bytes level (levels_of fill left first ps)) }
    ensures few { 14 * result ≤ pairs }
    ensures small { result < 2 ^ 60 }
{
    if left == 0 {
        return 0;
    }
    if pairs <= PAIRS_MAX {
        return 0;
    }
    let pages = count_pages(fill, pairs);
    pages + count_below(fill, left - 1, pages)
}

// How many pages a level of so many pairs has.
fn count_pages(fill: usize, pairs: usize) -> usize
    requires some { 15 ≤ fill }
    requires most { fill ≤ 30 }
    requires many { 30 < pairs }
    requires small { pairs < 2 ^ 63 }
    ensures count { (ps : List Pair) → length ps ≡ pairs → result ≡ length (pages_of fill ps) }
    ensures few { 15 * result ≤ pairs }
{
    let mut left = pairs;
    let mut pages = 0;
    while left > 0 {
        left -= page_size(fill, left);
        pages += 1;
    }
    pages
}

/// How many pairs the next page gets, where so many are left.
pub fn page_size(fill: usize, left: usize) -> usize
    requires some { 15 ≤ fill }
    requires most { fill ≤ 30 }
    ensures size { result ≡ page_size fill left }
    ensures most { result ≤ left }
{
    if left <= fill {
        return left;
    }
    if left < PAIRS_MAX {
        return left;
    }
    if left < fill + HALF {
        return left / 2;
    }
    fill
}
