// The laws of scripts.
ghost use Rattle.item_defs.specs.ScriptLaws.{RunsInOrder, TurnsSplit, ScriptsSay, ScriptsComplete};

/// One script after another reads what each of them reads, in order.
pub const fn scripts_run_in_order<G, A, B>()
    ensures { RunsInOrder G A B }
{}

/// Of m + n things in order, the first m are read, and then n more.
pub const fn turns_split<S>()
    ensures { TurnsSplit S }
{}

/// A script gives values exactly if items lead to its end, is cut exactly if no code of the next question follows, and refuses
/// exactly if a question does.
pub const fn scripts_say<G, A>()
    ensures { ScriptsSay G A }
{}

/// If each question has a possible answer, there is a way to the end from any of them.
pub const fn scripts_complete<G, A>()
    ensures { ScriptsComplete G A }
{}
