// Records of tables.
ghost use Rattle.std.specs.Prelude.{◌≡◌, ◌++◌, IfOk, OnOk, length};
ghost use Rattle.std.specs.List.{flat_map};
ghost use Rattle.history.specs.Rows.{keyed, all_keyed, records_in};
ghost use Rattle.history_text.specs.Text.{record_line};

use crate::keys::append_key;
use history::{Key, Rows};
use mars_base::NoMemory;
use record_slots::{Name, Value};
use texts::{Piece, append_pieces};

/// Appends a line for each record of the tables, one table after another. At `Err` some of them may have been appended.
pub fn write_tables(text: &mut Vec<u8>, tables: &[(Name, Rows)]) -> Result<(), NoMemory>
    ensures { OnOk result (text.new.items ≡ text.old.items ++ flat_map record_line (records_in tables.now)) }
{
    for table in tables {
        write_table(text, &table.0, &table.1)?;
    }
    Ok(())
}

/// How many records the tables have. No memory holds more than can be counted.
pub fn count_records(tables: &[(Name, Rows)]) -> Result<u64, NoMemory>
    ensures { IfOk result (λ count. count ≡ length (records_in tables.now)) }
{
    let mut count: u64 = 0;
    for table in tables {
        match count.checked_add(table.1.as_slice().len() as u64) {
            Some(more) => count = more,
            None => return Err(NoMemory),
        }
    }
    Ok(count)
}

fn write_table(text: &mut Vec<u8>, name: &Name, rows: &Rows) -> Result<(), NoMemory>
    ensures { OnOk result (text.new.items ≡ text.old.items ++ flat_map record_line (all_keyed name.now rows.now)) }
{
    for row in rows.as_slice() {
        write_row(text, name, row.0, &row.1)?;
    }
    Ok(())
}

fn write_row(text: &mut Vec<u8>, name: &Name, key: u64, value: &Value) -> Result<(), NoMemory>
    ensures { OnOk result (text.new.items ≡ text.old.items ++ record_line (keyed name.now (key, value.now))) }
{
    let key = Key { table: *name, key };
    text.extend_from_slice(b"rec ")?;
    append_key(text, &key)?;
    append_pieces(
        text,
        &[
            Piece::Words(b" "),
            Piece::Words(value.as_bytes()),
            Piece::Words(b"\n"),
        ],
    )
}
