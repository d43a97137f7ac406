// The laws on reading an image's packets.
ghost use Rattle.stream_defs.specs.Damage.{DamageIsLeast};
ghost use Rattle.stream_defs.specs.KnownHeights.{KnownHeights};
ghost use Rattle.stream_defs.specs.Settled.{SettledSame};
ghost use Rattle.stream_defs.specs.SettledImages.{ImagesSettle};
ghost use Rattle.stream_defs.specs.Shares.{SharesFit};
ghost use Rattle.stream_defs.specs.StreamLaws.{ImagesKept, SublistsAreKept, PacketsOfBlocks};

/// All packets of an image, in order, are kept.
pub const fn images_are_kept()
    ensures { ImagesKept }
{}

/// Of some of them exactly those are kept that continue from part 0 of their segment, so a segment is complete exactly if all its packets
/// are there.
pub const fn sublists_are_kept()
    ensures { SublistsAreKept }
{}

/// The packets of the first segments are determined by the blocks of these.
pub const fn packets_of_blocks()
    ensures { PacketsOfBlocks }
{}

/// The ranges of damaged rows cover exactly these, and any two have a row between them.
pub const fn damage_is_least()
    ensures { DamageIsLeast }
{}

/// The packets of settled segments are determined by the blocks that the rows so far determine.
pub const fn settled_is_same()
    ensures { SettledSame }
{}

/// A segment header can have each share of a total as its limit, and all texts together have at most the octets of the total.
pub const fn shares_fit()
    ensures { SharesFit }
{}

/// The packets of settled segments are determined by the rows so far, whatever the height, and more rows settle at least the same segments.
pub const fn images_settle()
    ensures { ImagesSettle }
{}

/// The picture and the damage of an image whose height is known depend on the height alone, whatever the kept heads reach.
pub const fn heights_are_known()
    ensures { KnownHeights }
{}
