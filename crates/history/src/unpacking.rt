// Calls with their replies, read from a run of bytes.
ghost use Rattle.std.specs.Prelude.{◌≡◌, ◌≢◌, [], ◌∷◌, length, MatchOption, IfOk};
ghost use Rattle.record_slots.specs.Text.{IsName, IsValue};
ghost use Rattle.history.specs.Packed.{word_at, text_at, name_at, call_at, get_at, put_at, del_at, scan_at, back_at, CanCall, row_at, rows_at, found_at, listed_at, log_full_at, number_reply, reply_of, reply_at, CanReply};
ghost use Rattle.history.specs.Told.{told_reply};

use crate::{Reply, Rows, TableCall, main_table};
use mars_base::NoMemory;
use record_slots::{Name, Value};
use std::alloc::Global;
use std::marker::Model;

/// Rows of a scan that are kept among other bytes.
#[derive(Drop)]
pub struct KeptRows<'a> {
    count: u64,
    bytes: &'a [u8],
}

impl<'a> Model for KeptRows<'a> {
    ghost use Rattle.std.specs.Prelude.{List, ℕ, All};
    ghost use Rattle.history.specs.Packed.{rows_at, CanRow};

    ghost Value = { List (ℕ × List ℕ) };

    ghost view = { λ r. (rows_at r.count r.bytes.now).0 };

    ghost invariant = { λ r. All CanRow (rows_at r.count r.bytes.now).0 };
}

impl<'a> KeptRows<'a> {
    pub fn len(&self) -> u64
        ensures { result ≡ length self.now }
    {
        self.count
    }

    /// The first row, and those behind it.
    pub fn next(&self) -> Option<(u64, Value, KeptRows<'a>)>
        ensures { MatchOption result (self.now ≡ []) (λ p. self.now ≡ (p.0, p.1) ∷ p.2) }
    {
        if self.count == 0 {
            return None;
        }
        let (key, value, rest) = read_row(self.bytes);
        let count = self.count - 1;
        Some((key, value, KeptRows { count, bytes: rest }))
    }

    /// The same rows once more.
    pub fn all(&self) -> KeptRows<'a>
        ensures { result ≡ self.now }
    {
        KeptRows {
            count: self.count,
            bytes: self.bytes,
        }
    }

    fn to_rows(&self, alloc: Global) -> Result<Rows, NoMemory>
        ensures { IfOk result (λ rows. rows ≡ self.now) }
    {
        let mut rows = Rows::new(alloc);
        let mut left = self.all();
        while let Some((key, value, rest)) = left.next() {
            rows.push(key, value)?;
            left = rest;
        }
        Ok(rows)
    }
}

/// A reply that is kept: the rows of a scan, or another reply.
#[derive(Drop)]
pub enum Told<'a> {
    Rows(KeptRows<'a>),
    Plain(Reply),
}

impl<'a> Told<'a> {
    /// The reply, with rows of its own.
    pub fn into_reply(self, alloc: Global) -> Result<Reply, NoMemory>
        ensures { IfOk result (λ reply. reply ≡ told_reply self.entry) }
    {
        match self {
            Told::Rows(rows) => Ok(Reply::Listed(rows.to_rows(alloc)?)),
            Told::Plain(reply) => Ok(reply),
        }
    }
}

fn read_word(bytes: &[u8]) -> (u64, &[u8])
    ensures number { result.0 ≡ (word_at bytes.now).0 }
    ensures rest { result.1.now ≡ (word_at bytes.now).1 }
{
    if bytes.len() < 8 {
        return (0, bytes);
    }
    let mut word = [0; 8];
    word.copy_from_slice(&bytes[..8]);
    (u64::from_le_bytes(word), &bytes[8..])
}

fn read_text(bytes: &[u8]) -> (&[u8], &[u8])
    ensures text { result.0.now ≡ (text_at bytes.now).0 }
    ensures rest { result.1.now ≡ (text_at bytes.now).1 }
{
    let Some((len, rest)) = bytes.split_first() else {
        return (&[], &[]);
    };
    let len = usize::from(*len).min(rest.len());
    (&rest[..len], &rest[len..])
}

fn read_value(bytes: &[u8]) -> (Value, &[u8])
    requires { IsValue (text_at bytes.now).0 }
    ensures value { result.0 ≡ (text_at bytes.now).0 }
    ensures rest { result.1.now ≡ (text_at bytes.now).1 }
{
    let (text, rest) = read_text(bytes);
    let Some(value) = Value::of(text) else {
        unreachable!();
    };
    (value, rest)
}

fn read_name(bytes: &[u8]) -> (Name, &[u8])
    requires { IsName (name_at bytes.now).0 }
    ensures name { result.0 ≡ (name_at bytes.now).0 }
    ensures rest { result.1.now ≡ (name_at bytes.now).1 }
{
    let (text, rest) = read_text(bytes);
    if text.is_empty() {
        return (main_table(), rest);
    }
    let Some(name) = Name::of(text) else {
        unreachable!();
    };
    (name, rest)
}

fn read_get(bytes: &[u8]) -> (TableCall, &[u8])
    requires { CanCall (get_at bytes.now).0 }
    ensures call { result.0 ≡ (get_at bytes.now).0 }
    ensures rest { result.1.now ≡ (get_at bytes.now).1 }
{
    let (table, rest) = read_name(bytes);
    let (key, rest) = read_word(rest);
    (TableCall::Get { table, key }, rest)
}

fn read_put(bytes: &[u8]) -> (TableCall, &[u8])
    requires { CanCall (put_at bytes.now).0 }
    ensures call { result.0 ≡ (put_at bytes.now).0 }
    ensures rest { result.1.now ≡ (put_at bytes.now).1 }
{
    let (table, rest) = read_name(bytes);
    let (key, rest) = read_word(rest);
    let (value, rest) = read_value(rest);
    (TableCall::Put { table, key, value }, rest)
}

fn read_del(bytes: &[u8]) -> (TableCall, &[u8])
    requires { CanCall (del_at bytes.now).0 }
    ensures call { result.0 ≡ (del_at bytes.now).0 }
    ensures rest { result.1.now ≡ (del_at bytes.now).1 }
{
    let (table, rest) = read_name(bytes);
    let (key, rest) = read_word(rest);
    (TableCall::Del { table, key }, rest)
}

fn read_scan(bytes: &[u8]) -> (TableCall, &[u8])
    requires { CanCall (scan_at bytes.now).0 }
    ensures call { result.0 ≡ (scan_at bytes.now).0 }
    ensures rest { result.1.now ≡ (scan_at bytes.now).1 }
{
    let (table, rest) = read_name(bytes);
    let (low, rest) = read_word(rest);
    let (high, rest) = read_word(rest);
    (TableCall::Scan { table, low, high }, rest)
}

fn read_back(bytes: &[u8]) -> (TableCall, &[u8])
    requires { CanCall (back_at bytes.now).0 }
    ensures call { result.0 ≡ (back_at bytes.now).0 }
    ensures rest { result.1.now ≡ (back_at bytes.now).1 }
{
    let (save, rest) = read_word(bytes);
    (TableCall::Back { save: save as u32 }, rest)
}

/// The call at the front, and what is behind it.
pub(crate) fn read_call(bytes: &[u8]) -> (TableCall, &[u8])
    requires { CanCall (call_at bytes.now).0 }
    ensures call { result.0 ≡ (call_at bytes.now).0 }
    ensures rest { result.1.now ≡ (call_at bytes.now).1 }
{
    let Some((kind, rest)) = bytes.split_first() else {
        return (TableCall::Save, bytes);
    };
    match *kind {
        1 => read_get(rest),
        2 => read_put(rest),
        3 => read_del(rest),
        4 => read_scan(rest),
        5 => read_back(rest),
        _ => (TableCall::Save, rest),
    }
}

// What is behind a number.
fn behind_word(bytes: &[u8]) -> &[u8]
    ensures { result.now ≡ (word_at bytes.now).1 }
{
    if bytes.len() < 8 {
        return bytes;
    }
    &bytes[8..]
}

// What is behind a text.
fn behind_text(bytes: &[u8]) -> &[u8]
    ensures { result.now ≡ (text_at bytes.now).1 }
{
    let (_text, rest) = read_text(bytes);
    rest
}

// What is behind the name of a table and a number.
fn behind_placed(bytes: &[u8]) -> &[u8]
    ensures { result.now ≡ (get_at bytes.now).1 }
{
    behind_word(behind_text(bytes))
}

/// What is behind the call at the front. Nothing that the call names is read but the lengths of its texts.
pub(crate) fn behind_call(bytes: &[u8]) -> &[u8]
    ensures { result.now ≡ (call_at bytes.now).1 }
{
    let Some((kind, rest)) = bytes.split_first() else {
        return bytes;
    };
    match *kind {
        1 | 3 => behind_placed(rest),
        2 => behind_text(behind_placed(rest)),
        4 => behind_word(behind_placed(rest)),
        5 => behind_word(rest),
        _ => rest,
    }
}

// The key and the value of the row at the front, and what is behind it.
fn read_row(bytes: &[u8]) -> (u64, Value, &[u8])
    requires { IsValue (row_at bytes.now).0.1 }
    ensures key { result.0 ≡ (row_at bytes.now).0.0 }
    ensures value { result.1 ≡ (row_at bytes.now).0.1 }
    ensures rest { result.2.now ≡ (row_at bytes.now).1 }
{
    let (key, rest) = read_word(bytes);
    let (value, rest) = read_value(rest);
    (key, value, rest)
}

// What is behind a row.
fn behind_row(bytes: &[u8]) -> &[u8]
    ensures { result.now ≡ (row_at bytes.now).1 }
{
    behind_text(behind_word(bytes))
}

// What is behind so many rows.
fn behind_rows(count: u64, bytes: &[u8]) -> &[u8]
    ensures { result.now ≡ (rows_at count bytes.now).1 }
{
    let mut rest = bytes;
    for _row in 0..count {
        rest = behind_row(rest);
    }
    rest
}

fn read_listed(bytes: &[u8]) -> (Told<'_>, &[u8])
    requires { CanReply (listed_at bytes.now).0 }
    ensures told { told_reply result.0 ≡ (listed_at bytes.now).0 }
    ensures rest { result.1.now ≡ (listed_at bytes.now).1 }
{
    let (count, bytes) = read_word(bytes);
    let rest = behind_rows(count, bytes);
    (Told::Rows(KeptRows { count, bytes }), rest)
}

fn read_found(bytes: &[u8]) -> (Told<'_>, &[u8])
    requires { CanReply (found_at bytes.now).0 }
    ensures told { told_reply result.0 ≡ (found_at bytes.now).0 }
    ensures rest { result.1.now ≡ (found_at bytes.now).1 }
{
    let (value, rest) = read_value(bytes);
    (Told::Plain(Reply::Found(value)), rest)
}

fn read_log_full(bytes: &[u8]) -> (Reply, &[u8])
    requires { CanReply (log_full_at bytes.now).0 }
    ensures reply { result.0 ≡ (log_full_at bytes.now).0 }
    ensures rest { result.1.now ≡ (log_full_at bytes.now).1 }
{
    let (logger, rest) = read_word(bytes);
    let (held, rest) = read_word(rest);
    let (needed, rest) = read_word(rest);
    let reply = Reply::LogFull {
        logger: logger as u8,
        held: held as u16,
        needed: needed as u16,
    };
    (reply, rest)
}

// The reply of this kind that tells one number.
fn numbered(kind: u8, n: u64) -> Reply
    requires able { CanReply (number_reply kind n) }
    ensures { result ≡ number_reply kind n }
{
    match kind {
        4 => Reply::Saved(n as u32),
        5 => Reply::Committed(n),
        9 => Reply::NoSave { save: n as u32 },
        11 => Reply::Busy { holder: n as u8 },
        13 => Reply::SlotsFull { slots: n as u32 },
        14 => Reply::PagesFull { pages: n as u32 },
        18 => Reply::Damaged { page: n as u32 },
        _ => Reply::Purged(n as u32),
    }
}

fn read_number(kind: u8, bytes: &[u8]) -> (Reply, &[u8])
    requires able { CanReply (number_reply kind (word_at bytes.now).0) }
    ensures reply { result.0 ≡ number_reply kind (word_at bytes.now).0 }
    ensures rest { result.1.now ≡ (word_at bytes.now).1 }
{
    let (n, rest) = read_word(bytes);
    (numbered(kind, n), rest)
}

// A reply of a kind that is neither a found value nor rows.
fn read_plain(kind: u8, bytes: &[u8]) -> (Reply, &[u8])
    requires not_found { kind ≢ 1 }
    requires not_listed { kind ≢ 3 }
    requires able { CanReply (reply_of kind bytes.now).0 }
    ensures reply { result.0 ≡ (reply_of kind bytes.now).0 }
    ensures rest { result.1.now ≡ (reply_of kind bytes.now).1 }
{
    match kind {
        2 => (Reply::Absent, bytes),
        4 => read_number(4, bytes),
        5 => read_number(5, bytes),
        6 => (Reply::NoTransaction, bytes),
        7 => (Reply::NoTable, bytes),
        8 => (Reply::Already, bytes),
        9 => read_number(9, bytes),
        10 => (Reply::SavesFull, bytes),
        11 => read_number(11, bytes),
        12 => read_log_full(bytes),
        13 => read_number(13, bytes),
        14 => read_number(14, bytes),
        15 => (Reply::Media, bytes),
        16 => (Reply::Dead, bytes),
        17 => (Reply::NoMemory, bytes),
        18 => read_number(18, bytes),
        19 => read_number(19, bytes),
        _ => (Reply::Fine, bytes),
    }
}

/// The reply at the front, and what is behind it.
pub(crate) fn read_told(bytes: &[u8]) -> (Told<'_>, &[u8])
    requires { CanReply (reply_at bytes.now).0 }
    ensures told { told_reply result.0 ≡ (reply_at bytes.now).0 }
    ensures rest { result.1.now ≡ (reply_at bytes.now).1 }
{
    let Some((kind, rest)) = bytes.split_first() else {
        return (Told::Plain(Reply::Fine), bytes);
    };
    match *kind {
        1 => read_found(rest),
        3 => read_listed(rest),
        other => {
            let (reply, behind) = read_plain(other, rest);
            (Told::Plain(reply), behind)
        }
    }
}
