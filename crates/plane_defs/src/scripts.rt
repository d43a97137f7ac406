// What some texts are read as, and the laws of the scripts.
ghost use Rattle.plane_defs.specs.ScriptLaws.{PlanesGo};
ghost use Rattle.plane_defs.specs.LowLaws.{NumbersAreGiven, RestoredByPosition};
ghost use Rattle.plane_defs.specs.Written.{TypesWritten, PlanesWritten};
ghost use Rattle.plane_defs.specs.Back.{PlanesBack};
ghost use Rattle.plane_defs.specs.Worked.{WorkedTexts};
ghost use Rattle.plane_defs.specs.WorkedLows.{WorkedLows};

/// Texts that are worked out by hand are read so.
pub const fn worked_texts()
    ensures { WorkedTexts }
{}

/// Any reading of bit planes that is cut can be completed: each question has a possible answer.
pub const fn planes_go()
    ensures { PlanesGo }
{}

/// Types and signs are read as they were written.
pub const fn types_are_read()
    ensures { TypesWritten }
{}

/// Planes are read as they were written: the items of values that can be sent follow the script, and what it gives are their AC
/// numbers if all stages are sent.
pub const fn planes_are_read()
    ensures { PlanesWritten }
{}

/// If all stages of all planes are read with possible answers, the items are those that the blocks at the end write.
pub const fn planes_are_returned()
    ensures { PlanesBack }
{}

/// Texts of planes that are cut, and are worked out by hand, are restored so.
pub const fn worked_lows()
    ensures { WorkedLows }
{}

/// The numbers of the script with what is given of each are those of the script without.
pub const fn numbers_are_given()
    ensures { NumbersAreGiven }
{}

/// Restored numbers are there by block and position.
pub const fn restored_by_position()
    ensures { RestoredByPosition }
{}
