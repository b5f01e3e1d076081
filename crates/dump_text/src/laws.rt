// The law of dumps.
ghost use Rattle.std.specs.Prelude.{List, ℕ, Result};
ghost use Rattle.history.specs.declared.key.Key.{Key};
ghost use Rattle.history.specs.Rows.{NamedRows};
ghost use Rattle.dump_text.specs.Again.{AreOfArray, IsReadAs, dumped};
ghost use Rattle.dump_text.specs.Causes.{DumpSays};
ghost use Rattle.dump_text.specs.declared.fault.DumpFault.{DumpFault};

/// Whatever a dump of an array's records is read as, is just these records; and no such text is refused.
pub fn dumps_are_read()
    ensures { (records : List (Key × List ℕ)) (result : Result (List NamedRows) DumpFault) → AreOfArray records → DumpSays (dumped records) result → IsReadAs records result }
{}
