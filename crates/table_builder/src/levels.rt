// The levels of a tree, from its leaves up.
ghost use Rattle.std.specs.Prelude.{◌≡◌, ◌+◌, ◌-◌, ◌≤◌, ◌<◌, ◌^◌, ◌++◌, IfOk, OnOk, length, map, take, drop, nat_lt, if◌then◌else◌};
ghost use Rattle.index_pages.specs.Written.{written_page};
ghost use Rattle.table_builder.specs.Built.{first_key, named};
ghost use Rattle.table_builder.specs.Image.{pairs_for};
ghost use Rattle.table_builder.specs.Plan.{levels_of, level_bytes, page_size, pages_of, top_of};

use crate::counting::page_size;
use index_pages::{PAIRS_MAX, write_page};
use mars_base::NoMemory;
use record_slots::Value;
use std::alloc::Global;

/// The key of each row with its slot: the slots rise from one on.
pub fn pairs_of(
    alloc: Global,
    slot: u64,
    rows: &[(u64, Value)],
) -> Result<Vec<(u64, u64)>, NoMemory>
    requires { slot + length rows.now < 2 ^ 32 }
    ensures { IfOk result (λ pairs. pairs.items ≡ pairs_for slot rows.now) }
{
    let mut pairs = Vec::new(alloc);
    for (j, row) in rows.iter().enumerate() {
        pairs.push((row.0, slot + j as u64))?;
    }
    Ok(pairs)
}

/// Writes levels of these pairs behind the pages that there are, whose numbers rise from `first`, from this level on, `left` at most, until
/// few enough are left for a root. Returns the root's level, and its pairs.
pub fn push_levels(
    alloc: Global,
    pages: &mut Vec<[u8; 512]>,
    first: usize,
    fill: usize,
    level: u8,
    left: u8,
    pairs: Vec<(u64, u64)>,
) -> Result<(u8, Vec<(u64, u64)>), NoMemory>
    requires some { 15 ≤ fill }
    requires most { fill ≤ 30 }
    requires first { first < 2 ^ 32 }
    requires low { level + left ≤ 7 }
    ensures pages { OnOk result (pages.new.items ≡ pages.old.items ++ level_bytes level (levels_of fill left (first + length pages.old.items) pairs.items)) }
    ensures level { IfOk result (λ top. top.0 ≡ level + length (levels_of fill left (first + length pages.old.items) pairs.items)) }
    ensures top { IfOk result (λ top. top.1.items ≡ top_of (first + length pages.old.items) pairs.items
        (levels_of fill left (first + length pages.old.items) pairs.items)) }
{
    if left == 0 {
        return Ok((level, pairs));
    }
    if pairs.len() <= PAIRS_MAX {
        return Ok((level, pairs));
    }
    let names = push_level(alloc, pages, first, fill, level, &pairs)?;
    push_levels(alloc, pages, first, fill, level + 1, left - 1, names)
}

// Writes one level, and returns the pairs that name its pages.
fn push_level(
    alloc: Global,
    pages: &mut Vec<[u8; 512]>,
    first: usize,
    fill: usize,
    level: u8,
    pairs: &[(u64, u64)],
) -> Result<Vec<(u64, u64)>, NoMemory>
    requires some { 15 ≤ fill }
    requires most { fill ≤ 30 }
    requires first { first < 2 ^ 32 }
    ensures pages { OnOk result (pages.new.items ≡ pages.old.items ++ map (written_page level 0) (pages_of fill pairs.now)) }
    ensures names { IfOk result (λ names. names.items ≡ named 0 (first + length pages.old.items) (pages_of fill pairs.now)) }
{
    let mut names = Vec::new(alloc);
    let mut at = 0;
    while at < pairs.len() {
        let page = page_from(pairs, at, fill);
        names.push((low_of(pairs, at), (first + pages.len()) as u64))?;
        pages.push(page_of(level, page))?;
        at += page.len();
    }
    Ok(names)
}

// The pairs of the page that begins at this place.
fn page_from(pairs: &[(u64, u64)], at: usize, fill: usize) -> &[(u64, u64)]
    requires inside { at < length pairs.now }
    requires some { 15 ≤ fill }
    requires most { fill ≤ 30 }
    ensures { result.now ≡ take (page_size fill (length (drop at pairs.now))) (drop at pairs.now) }
{
    &pairs[at..at + page_size(fill, pairs.len() - at)]
}

// The low key of that page.
fn low_of(pairs: &[(u64, u64)], at: usize) -> u64
    requires { at < length pairs.now }
    ensures { result ≡ (if nat_lt 0 at then first_key (drop at pairs.now) else 0) }
{
    if at > 0 { pairs[at].0 } else { 0 }
}

/// A page of this level with these pairs.
pub fn page_of(level: u8, pairs: &[(u64, u64)]) -> [u8; 512]
    requires { length pairs.now ≤ 30 }
    ensures { result ≡ written_page level 0 pairs.now }
{
    let mut page = [0; 512];
    write_page(level, 0, pairs, &mut page);
    page
}
