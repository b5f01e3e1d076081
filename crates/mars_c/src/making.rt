// What C calls to make a table. `mars.h` says what it owes.
ghost use Rattle.mars_c.specs.Making.{Makes};

use crate::kept::Kept;
use std::alloc::Global;
use taped_records::{IS_CLOSED, OK, TapedRecords, unmade_status};

/// Makes a table of this name, without records, and tells its number. No caller has a transaction.
#[unsafe(no_mangle)]
pub extern "C" fn mars_make(alloc: Global, m: &mut Kept, table: &[u8], number: &mut u8) -> i32
    ensures { Makes table.now number.old number.new m.old.held.array m.new.held.array result }
{
    let Some(array) = m.take(alloc) else {
        return IS_CLOSED;
    };
    match TapedRecords::make(alloc, array, table) {
        Ok((at, array)) => {
            m.put(array);
            *number = at;
            OK
        }
        Err((unmade, Some(array))) => {
            m.put(array);
            unmade_status(&unmade)
        }
        Err((unmade, None)) => unmade_status(&unmade),
    }
}
