// Laws of whole texts.
ghost use Rattle.space_packets.specs.Laws.{TextsGoWhole};
ghost use Rattle.space_packets.specs.Serving.{ServesAgain};

/// A text that isn't empty is written as its packets, from `begin` to `close`; if a write fails, a prefix of their octets is written
/// (docs/formats.md, "Packets").
pub const fn texts_go_whole()
    ensures { TextsGoWhole }
{}

/// The greatest length of the packets is the same after each text, also after a failure, so after a `reset` the packetiser
/// can be used as before the text.
pub const fn packetiser_serves_again()
    ensures { ServesAgain }
{}
