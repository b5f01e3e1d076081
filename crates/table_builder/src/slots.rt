// Pages of slots.
ghost use Rattle.std.specs.Prelude.{◌≡◌, ◌≤◌, ◌<◌, ◌^◌, IfSome, length, slice_get};
ghost use Rattle.record_slots.specs.Slots.{slot_bytes, table_of_slot};
ghost use Rattle.table_builder.specs.Plan.{rows_count, slots_from, slots_page};

use history::Rows;
use index_pages::SLOTS_IN_PAGE;
use record_slots::{Name, SLOT_LEN, Slot, write_slot};

/// Page `k` of the slots that hold the rows of tables, eight in each page. Where there are no rows, it is zero.
pub fn write_slots(tables: &[(Name, Rows)], k: u64, out: &mut [u8; 512])
    requires few { length tables.now ≤ 8 }
    requires rows { rows_count tables.now < 2 ^ 32 }
    ensures { out.new ≡ slots_page tables.now k }
{
    out.fill(0);
    if k >= 1 << 32 {
        return;
    }
    for j in 0..SLOTS_IN_PAGE as usize {
        let Some(slot) = slot_at(tables, 8 * k + j as u64) else {
            return;
        };
        out[SLOT_LEN * j..SLOT_LEN * j + SLOT_LEN].copy_from_slice(&bytes_of(&slot));
    }
}

// The slot of this number, if a row lies in it.
fn slot_at(tables: &[(Name, Rows)], slot: u64) -> Option<Slot>
    requires { length tables.now ≤ 8 }
    ensures slot { result ≡ slice_get (slots_from 0 tables.now) slot }
    ensures table { IfSome result (λ slot. table_of_slot slot < 8) }
{
    let mut left = slot;
    for (number, table) in tables.iter().enumerate() {
        let rows = table.1.as_slice();
        if left < rows.len() as u64 {
            let row = &rows[left as usize];
            return Some(Slot::Present {
                table: number as u8,
                key: row.0,
                value: row.1,
            });
        }
        left -= rows.len() as u64;
    }
    None
}

fn bytes_of(slot: &Slot) -> [u8; SLOT_LEN]
    requires { table_of_slot slot.now < 8 }
    ensures bytes { result ≡ slot_bytes slot.now }
    ensures size { length result ≡ 64 }
{
    let mut bytes = [0; SLOT_LEN];
    write_slot(slot, &mut bytes);
    bytes
}
