//! The laws of data bodies, each as the contract of a function that does nothing.
ghost use Rattle.record_layout.specs.Laws.{BodyIsCounted, BodyIsWhole, WholeIsBody, NoPacketBeginsAnother, PacketIsWhole, PacketVerdictStays, RecordsAreRead, WholeIsPacket};

/// A whole verdict says that the body of N bytes is there, and is a packet with the number of records that it says.
pub fn whole_is_packet()
    ensures { WholeIsPacket }
{}

/// A packet's verdict is whole, whatever bytes follow.
pub fn packet_is_whole()
    ensures { PacketIsWhole }
{}

/// A verdict that has come stays, whatever bytes follow.
pub fn packet_verdict_stays()
    ensures { PacketVerdictStays }
{}

/// No packet's bytes begin another packet.
pub fn no_packet_begins_another()
    ensures { NoPacketBeginsAnother }
{}

/// A packet has one list of records, which is what `records_of` reads from its bytes.
pub fn records_are_read()
    ensures { RecordsAreRead }
{}

/// Bytes that are judged to be a whole body are one.
pub fn whole_is_body()
    ensures { WholeIsBody }
{}

/// A body is judged to be whole.
pub fn body_is_whole()
    ensures { BodyIsWhole }
{}

/// A body's head has the number of the records that are read from it.
pub fn body_is_counted()
    ensures { BodyIsCounted }
{}
