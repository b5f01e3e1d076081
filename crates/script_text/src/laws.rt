// Laws of the grammars.
ghost use Rattle.std.specs.Prelude.{◌≡◌, ◌^◌, ◌≤◌, ℕ, List};
ghost use Rattle.history.specs.declared.call.Call.{Call};
ghost use Rattle.history.specs.declared.call.Reply.TheVariants.{Media};
ghost use Rattle.texts.specs.MediaFault.{numbered_media_line};
ghost use Rattle.script_text.specs.declared.line.Line.{Line};
ghost use Rattle.script_text.specs.Line.{LineSays, IsLineOf, IsCallText};
ghost use Rattle.script_text.specs.Eaw.{Raw, IsTextOf};
ghost use Rattle.script_text.specs.EawLines.{Meaning, Means};
ghost use Rattle.script_text.specs.Replies.{reply_line};

/// No line is the text of two calls or of two callers, so a line says one thing.
pub fn one_line()
    ensures text { (callers c d : ℕ) (call other : Call) (line : List ℕ) → callers ≤ 2 ^ 64
        → IsLineOf (IsCallText call) callers c line → IsLineOf (IsCallText other) callers d line → (c ≡ d) × (call ≡ other) }
    ensures says { (callers : ℕ) (bytes : List ℕ) (line other : Line) → callers ≤ 2 ^ 64
        → LineSays callers bytes line → LineSays callers bytes other → line ≡ other }
{}

/// No line is the text of two raw commands or of two numbers, so such a line means one thing.
pub fn one_raw_line()
    ensures text { (numbers c d : ℕ) (raw other : Raw) (line : List ℕ) → numbers ≤ 2 ^ 64
        → IsLineOf (IsTextOf c raw) numbers c line → IsLineOf (IsTextOf d other) numbers d line → (c ≡ d) × (raw ≡ other) }
    ensures means { (numbers : ℕ) (bytes : List ℕ) (meaning other : Meaning) → numbers ≤ 2 ^ 64
        → Means numbers bytes meaning → Means numbers bytes other → meaning ≡ other }
{}

/// The line of the reply `Media` is the one that is told without memory.
pub fn media_reply_line()
    ensures { (caller : ℕ) → reply_line caller Media ≡ numbered_media_line caller }
{}
