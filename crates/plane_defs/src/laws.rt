// The laws of codes.
ghost use Rattle.plane_defs.specs.Laws.{TablesReadOnce};

/// In a sound table no code is a prefix of another, and any eight bits begin with a code (docs/formats.md,
/// "Words and codes").
pub const fn words_read_once()
    ensures { TablesReadOnce }
{}
