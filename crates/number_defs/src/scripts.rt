// What some texts are read as, and the laws of the scripts.
ghost use Rattle.std.specs.Prelude.{ℕ};
ghost use Rattle.number_defs.specs.Worked.{WorkedTexts};
ghost use Rattle.number_defs.specs.LowLaws.{DcsAreGiven};
ghost use Rattle.number_defs.specs.WorkedLows.{WorkedLows};
ghost use Rattle.number_defs.specs.ScriptLaws.{NumberLaws, DcLaws, DepthLaws};

/// Texts that are worked out by hand are read so.
pub const fn worked_texts()
    ensures { WorkedTexts }
{}

/// DC parts that are cut, and are worked out by hand, give bits of these planes.
pub const fn worked_lows()
    ensures { WorkedLows }
{}

/// Numbers by differences are read as they were written, and what is read are the items of its numbers.
pub const fn numbers_are_read()
    ensures { NumberLaws }
{}

/// The DC part is read as it was written, and what is read are the items of its numbers.
pub const fn dc_part_is_read()
    ensures { (depth_dc depth_ac shift count : ℕ) → DcLaws depth_dc depth_ac shift count }
{}

/// Block depths are read as they were written, and what is read are the items of its depths.
pub const fn depths_are_read()
    ensures { DepthLaws }
{}

/// The DC numbers of the script with what is given of each are those of the script without.
pub const fn dcs_are_given()
    ensures { DcsAreGiven }
{}
