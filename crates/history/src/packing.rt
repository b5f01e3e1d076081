// Calls with their replies, written one behind the other into a run of bytes.
ghost use Rattle.std.specs.Prelude.{◌≡◌, ◌+◌, ◌<◌, ◌≤◌, ◌∷◌, ◌++◌, ◌^◌, [], IsFalse, length, List, ℕ, vec_capacity, OnOk, OnErr};
ghost use Rattle.record_slots.specs.Text.{IsName, IsValue};
ghost use Rattle.history.specs.Writes.{Row};
ghost use Rattle.history.specs.Packed.{word, texted, kept_name, call_bytes, CanCall, CanRow, row_bytes, reply_bytes, CanReply, is_listed, entries_in, ArePacked};
ghost use Rattle.history.specs.declared.call.Reply.TheVariants.{Found, Listed, LogFull};

use crate::{Reply, TableCall};
use mars_base::NoMemory;
use record_slots::{Name, Value};

/// The most bytes that a call takes with a reply that lists no rows.
pub(crate) const MOST: usize = 137;

// The most bytes that a row takes.
const ROW_MOST: usize = 63;

fn append(bytes: &mut Vec<u8>, more: &[u8])
    requires { length bytes.old.items + length more.now ≤ vec_capacity bytes.old }
    ensures items { bytes.new.items ≡ bytes.old.items ++ more.now }
    ensures room { vec_capacity bytes.old ≤ vec_capacity bytes.new }
{
    let _done = bytes.extend_from_slice(more);
}

fn append_word(bytes: &mut Vec<u8>, n: u64)
    requires { length bytes.old.items + 8 ≤ vec_capacity bytes.old }
    ensures items { bytes.new.items ≡ bytes.old.items ++ word n }
    ensures room { vec_capacity bytes.old ≤ vec_capacity bytes.new }
{
    append(bytes, &n.to_le_bytes());
}

fn append_text(bytes: &mut Vec<u8>, text: &[u8])
    requires short { length text.now < 256 }
    requires room { length bytes.old.items + (1 + length text.now) ≤ vec_capacity bytes.old }
    ensures items { bytes.new.items ≡ bytes.old.items ++ texted text.now }
    ensures room { vec_capacity bytes.old ≤ vec_capacity bytes.new }
{
    append(bytes, &[text.len() as u8]);
    append(bytes, text);
}

// A table's name as it is kept.
fn kept(name: &Name) -> &[u8]
    ensures kept { result.now ≡ kept_name name.now }
    ensures short { length result.now ≤ 16 }
    ensures name { IsName name.now }
{
    let text = name.as_bytes();
    if text == b"main".as_slice() {
        &[]
    } else {
        text
    }
}

// A kind, the name of a table, and a number.
fn append_placed(bytes: &mut Vec<u8>, kind: u8, table: &Name, key: u64)
    requires { length bytes.old.items + 26 ≤ vec_capacity bytes.old }
    ensures items { bytes.new.items ≡ bytes.old.items ++ (kind ∷ texted (kept_name table.now) ++ word key) }
    ensures room { vec_capacity bytes.old ≤ vec_capacity bytes.new }
    ensures most { length bytes.new.items ≤ length bytes.old.items + 26 }
    ensures name { IsName table.now }
{
    append(bytes, &[kind]);
    append_text(bytes, kept(table));
    append_word(bytes, key);
}

// A kind and a number.
fn append_number(bytes: &mut Vec<u8>, kind: u8, n: u64)
    requires { length bytes.old.items + 9 ≤ vec_capacity bytes.old }
    ensures items { bytes.new.items ≡ bytes.old.items ++ kind ∷ word n }
    ensures room { vec_capacity bytes.old ≤ vec_capacity bytes.new }
{
    append(bytes, &[kind]);
    append_word(bytes, n);
}

fn append_call(bytes: &mut Vec<u8>, call: &TableCall)
    requires { length bytes.old.items + 81 ≤ vec_capacity bytes.old }
    ensures items { bytes.new.items ≡ bytes.old.items ++ call_bytes call.now }
    ensures room { vec_capacity bytes.old ≤ vec_capacity bytes.new }
    ensures most { length bytes.new.items ≤ length bytes.old.items + 81 }
    ensures able { CanCall call.now }
{
    match call {
        TableCall::Get { table, key } => append_placed(bytes, 1, table, *key),
        TableCall::Put { table, key, value } => {
            append_placed(bytes, 2, table, *key);
            append_text(bytes, value.as_bytes());
        }
        TableCall::Del { table, key } => append_placed(bytes, 3, table, *key),
        TableCall::Scan { table, low, high } => {
            append_placed(bytes, 4, table, *low);
            append_word(bytes, *high);
        }
        TableCall::Save => append(bytes, &[0]),
        TableCall::Back { save } => append_number(bytes, 5, u64::from(*save)),
    }
}

fn append_row(bytes: &mut Vec<u8>, key: u64, value: &Value) -> Result<(), NoMemory>
    ensures ok { OnOk result (bytes.new.items ≡ bytes.old.items ++ row_bytes (key, value.now)) }
    ensures able { OnOk result (CanRow (key, value.now)) }
    ensures err { OnErr result (bytes.new.items ≡ bytes.old.items) }
{
    bytes.reserve(ROW_MOST)?;
    append_word(bytes, key);
    append_text(bytes, value.as_bytes());
    Ok(())
}

// The reply that lists rows.
fn append_rows(bytes: &mut Vec<u8>, rows: &[(u64, Value)]) -> Result<(), NoMemory>
    requires { length bytes.old.items + 9 ≤ vec_capacity bytes.old }
    ensures ok { OnOk result (bytes.new.items ≡ bytes.old.items ++ reply_bytes (Listed rows.now)) }
    ensures able { OnOk result (CanReply (Listed rows.now)) }
    ensures err { OnErr result ((more : List ℕ) × (bytes.new.items ≡ bytes.old.items ++ more)) }
{
    append_number(bytes, 3, rows.len() as u64);
    for i in 0..rows.len() {
        let row = &rows[i];
        append_row(bytes, row.0, &row.1)?;
    }
    Ok(())
}

// A reply that lists no rows.
fn append_plain(bytes: &mut Vec<u8>, reply: &Reply)
    requires plain { IsFalse (is_listed reply.now) }
    requires room { length bytes.old.items + 56 ≤ vec_capacity bytes.old }
    ensures items { bytes.new.items ≡ bytes.old.items ++ reply_bytes reply.now }
    ensures able { CanReply reply.now }
{
    match reply {
        Reply::Fine => append(bytes, &[0]),
        Reply::Found(value) => append_found(bytes, value),
        Reply::Absent => append(bytes, &[2]),
        Reply::Listed(_) => unreachable!(),
        Reply::Saved(n) => append_number(bytes, 4, u64::from(*n)),
        Reply::Committed(n) => append_number(bytes, 5, *n),
        Reply::NoTransaction => append(bytes, &[6]),
        Reply::NoTable => append(bytes, &[7]),
        Reply::Already => append(bytes, &[8]),
        Reply::NoSave { save } => append_number(bytes, 9, u64::from(*save)),
        Reply::SavesFull => append(bytes, &[10]),
        Reply::Busy { holder } => append_number(bytes, 11, u64::from(*holder)),
        Reply::LogFull {
            logger,
            held,
            needed,
        } => append_log_full(bytes, *logger, *held, *needed),
        Reply::SlotsFull { slots } => append_number(bytes, 13, u64::from(*slots)),
        Reply::PagesFull { pages } => append_number(bytes, 14, u64::from(*pages)),
        Reply::Media => append(bytes, &[15]),
        Reply::Dead => append(bytes, &[16]),
        Reply::NoMemory => append(bytes, &[17]),
        Reply::Damaged { page } => append_number(bytes, 18, u64::from(*page)),
        Reply::Purged(n) => append_number(bytes, 19, u64::from(*n)),
    }
}

fn append_found(bytes: &mut Vec<u8>, value: &Value)
    requires { length bytes.old.items + 56 ≤ vec_capacity bytes.old }
    ensures items { bytes.new.items ≡ bytes.old.items ++ reply_bytes (Found value.now) }
    ensures able { IsValue value.now }
{
    append(bytes, &[1]);
    append_text(bytes, value.as_bytes());
}

fn append_log_full(bytes: &mut Vec<u8>, logger: u8, held: u16, needed: u16)
    requires { length bytes.old.items + 25 ≤ vec_capacity bytes.old }
    ensures items { bytes.new.items ≡ bytes.old.items ++ reply_bytes (LogFull logger held needed) }
{
    append_number(bytes, 12, u64::from(logger));
    append_word(bytes, u64::from(held));
    append_word(bytes, u64::from(needed));
}

// A reply. Only rows can lack memory, and then some of them may stand behind the bytes.
fn append_reply(bytes: &mut Vec<u8>, reply: &Reply) -> Result<(), NoMemory>
    requires { length bytes.old.items + 56 ≤ vec_capacity bytes.old }
    ensures ok { OnOk result (bytes.new.items ≡ bytes.old.items ++ reply_bytes reply.now) }
    ensures able { OnOk result (CanReply reply.now) }
    ensures err { OnErr result ((more : List ℕ) × (bytes.new.items ≡ bytes.old.items ++ more)) }
    ensures listed { OnErr result ((rows : List Row) × (reply.now ≡ Listed rows)) }
{
    match reply {
        Reply::Listed(rows) => append_rows(bytes, rows.as_slice()),
        _ => {
            append_plain(bytes, reply);
            Ok(())
        }
    }
}

/// Writes a call with its reply behind the others. Only the rows of a scan take more memory than there is room for.
pub(crate) fn append_entry(
    bytes: &mut Vec<u8>,
    call: &TableCall,
    reply: &Reply,
) -> Result<(), NoMemory>
    requires packed { ArePacked bytes.old.items }
    requires room { length bytes.old.items + 137 ≤ vec_capacity bytes.old }
    ensures packed { ArePacked bytes.new.items }
    ensures ok { OnOk result (entries_in bytes.new.items ≡ entries_in bytes.old.items ++ (call.now, reply.now) ∷ []) }
    ensures err { OnErr result (bytes.new.items ≡ bytes.old.items) }
    ensures listed { OnErr result ((rows : List Row) × (reply.now ≡ Listed rows)) }
{
    let start = bytes.len();
    append_call(bytes, call);
    match append_reply(bytes, reply) {
        Ok(()) => Ok(()),
        Err(refused) => {
            bytes.truncate(start);
            Err(refused)
        }
    }
}
