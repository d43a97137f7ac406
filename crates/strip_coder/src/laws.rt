// Laws of what an encoder has given.
ghost use Rattle.strip_coder.specs.Laws.{LastRowSettlesAll};

/// Once the last row of a raster is taken whose rows are known before, all packets of its image are given.
pub const fn last_row_settles_all()
    ensures { LastRowSettlesAll }
{}
