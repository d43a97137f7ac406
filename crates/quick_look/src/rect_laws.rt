// The laws of rectangles.
ghost use Rattle.quick_look.specs.Gaps.{GapsGiveRects};
ghost use Rattle.quick_look.specs.RectLaws.{RectsAreReach, LossesStayInRects};
ghost use Rattle.quick_look.specs.Worked.{WorkedRects};

/// The rectangles have exactly the pixels that missing blocks reach.
pub const fn rects_are_reach()
    ensures { RectsAreReach }
{}

/// If two lists of blocks have the same numbers in received segments, their pictures are the same outside the rectangles.
pub const fn losses_stay_in_rects()
    ensures { LossesStayInRects }
{}

/// The rectangles of the missing blocks are those of the parts of their gaps in block rows.
pub const fn gaps_give_rects()
    ensures { GapsGiveRects }
{}

/// Rectangles of missing blocks that are worked out by hand are what the definition gives.
pub const fn worked_rects()
    ensures { WorkedRects }
{}
