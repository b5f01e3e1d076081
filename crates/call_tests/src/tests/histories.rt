// Histories by hand.
use history::{Calls, Done, History, Reply, Rows, TableCall, Tables, main_table};
use history_replay::is_legal;
use mars_base::NoMemory;
use record_slots::{Name, Value};
use std::alloc::Global;
use std::test::Fail;

// One transaction, with this number.
fn history_of(alloc: Global, calls: Calls, at: u64) -> Result<History, NoMemory> {
    let mut history = History::new(alloc);
    let done = Done {
        caller: 0,
        calls,
        at,
        last: at,
    };
    match history.push(done) {
        Ok(()) => Ok(history),
        Err(_) => Err(NoMemory),
    }
}

// A record of key 5 in `main`.
fn one_row(alloc: Global, value: Value) -> Result<Tables, NoMemory> {
    let mut tables = Tables::new(alloc);
    tables.add(alloc, main_table(), 5, value)?;
    Ok(tables)
}

// Whether a transaction with this number is legal on the record.
fn is_right_at(alloc: Global, calls: Calls, at: u64) -> Result<bool, NoMemory> {
    let value = Value::of(b"abc").ok_or(NoMemory)?;
    let base = one_row(alloc, value)?;
    let history = history_of(alloc, calls, at)?;
    is_legal(alloc, history.as_slice(), &base)
}

// Whether a transaction of this call is.
fn is_right(alloc: Global, call: TableCall, reply: Reply) -> Result<bool, NoMemory> {
    let mut calls = Calls::new(alloc);
    calls.push(call, reply)?;
    is_right_at(alloc, calls, 1)
}

// Puts the record and removes it, goes back to the save between, and looks.
fn back_and_look(alloc: Global, value: Value) -> Result<Calls, NoMemory> {
    let table = main_table();
    let lines = [
        (
            TableCall::Put {
                table,
                key: 5,
                value,
            },
            Reply::Fine,
        ),
        (TableCall::Save, Reply::Saved(1)),
        (TableCall::Del { table, key: 5 }, Reply::Fine),
        (TableCall::Back { save: 1 }, Reply::Fine),
        (TableCall::Get { table, key: 5 }, Reply::Found(value)),
    ];
    let mut calls = Calls::new(alloc);
    for (call, reply) in lines {
        calls.push(call, reply)?;
    }
    Ok(calls)
}

#[test]
fn a_transaction_has_the_next_number(rt: HostRuntime) -> Result<(), Fail> {
    let value = Value::of(b"d").ok_or(NoMemory)?;
    for at in 0..3 {
        let calls = back_and_look(rt.alloc(), value)?;
        assert!(rt; is_right_at(rt.alloc(), calls, at)? == (at == 1));
    }
    Ok(())
}

#[test]
fn a_reply_is_that_of_its_table(rt: HostRuntime) -> Result<(), Fail> {
    let table = main_table();
    let other = Name::of(b"other").ok_or(NoMemory)?;
    let get = TableCall::Get {
        table: other,
        key: 5,
    };
    let scan = TableCall::Scan {
        table,
        low: 0,
        high: 9,
    };
    let lines = [
        (get, Reply::Absent, true),
        (TableCall::Get { table, key: 5 }, Reply::Absent, false),
        (TableCall::Del { table, key: 4 }, Reply::Fine, false),
        (scan, Reply::Listed(Rows::new(rt.alloc())), false),
        (TableCall::Save, Reply::Saved(2), false),
        (TableCall::Back { save: 1 }, Reply::Fine, false),
    ];
    for (call, reply, is_its_own) in lines {
        assert!(rt;
            is_right(rt.alloc(), call, reply)? == is_its_own,
            "{call:?}"
        );
    }
    Ok(())
}
