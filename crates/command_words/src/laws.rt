// Laws of the words.
ghost use Rattle.std.specs.Prelude.{ℕ, true, false, ◌≡◌, ◌≤◌, List, [], ◌∷◌, codes};
ghost use Rattle.clap.specs.Words.{Text};
ghost use Rattle.record_slots.specs.Text.{IsName};
ghost use Rattle.command_words.specs.declared.words.Words.{Words};
ghost use Rattle.command_words.specs.declared.words.CallersNumbers.{CallersNumbers};
ghost use Rattle.command_words.specs.declared.words.DrillNumbers.{DrillNumbers};
ghost use Rattle.command_words.specs.declared.words.FormatNumbers.{FormatNumbers};
ghost use Rattle.command_words.specs.declared.words.Writing.TheVariants.{AtOnce, Late};
ghost use Rattle.command_words.specs.Asked.{AsksFor, AskForNothing};
ghost use Rattle.command_words.specs.Usual.{late_words, format_words, joined_words, AreSmall, drill_words, AreOfDrill, callers_words, tries_words, readers_words, AreOfCallers, AreOfReaders};

/// Words ask for at most one thing.
pub fn one_command()
    ensures { (words : List Text) (asked other : Words) → AsksFor words asked → AsksFor words other → asked ≡ other }
{}

/// What usual words ask for. No words, and requests for help or the version, ask for nothing.
pub fn usual_words()
    ensures run { AsksFor (codes "run" ∷ []) (Words.Run (record { writing = AtOnce; frames = false })) }
    ensures late { (depth : ℕ) → 1 ≤ depth → depth ≤ 64 → AsksFor (late_words depth) (Words.Run (record { writing = Late depth; frames = false })) }
    ensures run_frames { AsksFor (codes "run" ∷ codes "--frames" ∷ []) (Words.Run (record { writing = AtOnce; frames = true })) }
    ensures callers { (numbers : CallersNumbers) → AreOfCallers numbers → numbers.tries ≡ 100 → AsksFor (callers_words numbers) (Words.Callers numbers) }
    ensures tries { (numbers : CallersNumbers) → AreOfCallers numbers → AsksFor (tries_words numbers) (Words.Callers numbers) }
    ensures readers { (numbers : CallersNumbers) → AreOfReaders numbers → AsksFor (readers_words numbers) (Words.Callers numbers) }
    ensures eaw { AsksFor (codes "eaw" ∷ []) (Words.Eaw (record { frames = false })) }
    ensures frames { AsksFor (codes "eaw" ∷ codes "--frames" ∷ []) (Words.Eaw (record { frames = true })) }
    ensures dump { AsksFor (codes "dump" ∷ []) Words.Dump }
    ensures purge { AsksFor (codes "purge" ∷ []) Words.Purge }
    ensures follow { AsksFor (codes "follow" ∷ []) Words.Follow }
    ensures format { (numbers : FormatNumbers) → AreSmall numbers → AsksFor (format_words numbers) (Words.Format numbers) }
    ensures joined { (numbers : FormatNumbers) → AreSmall numbers → AsksFor (joined_words numbers) (Words.Format numbers) }
    ensures drill { (numbers : DrillNumbers) → AreOfDrill numbers → AsksFor (drill_words numbers) (Words.Drill numbers) }
    ensures make { (table : List ℕ) → IsName table → AsksFor (codes "make" ∷ table ∷ []) (Words.Make table) }
    ensures no_word { AskForNothing [] }
    ensures help { AskForNothing (codes "help" ∷ []) }
    ensures help_option { AskForNothing (codes "--help" ∷ []) }
    ensures version_option { AskForNothing (codes "--version" ∷ []) }
{}
