//! The laws of datagrams and replies, each as the contract of a function that does nothing.
ghost use Rattle.datagrams.specs.Laws.{DatagramIsWhole, DatagramVerdictStays, NoDatagramBeginsAnother, NoReplyBeginsAnother, ReplyIsWhole, ReplyVerdictStays, WholeIsDatagram, WholeIsReply};

/// A whole verdict says that the datagram of N bytes is there, and is the one of the value that it says.
pub fn whole_is_datagram()
    ensures { WholeIsDatagram }
{}

/// A datagram's verdict is whole, whatever bytes follow.
pub fn datagram_is_whole()
    ensures { DatagramIsWhole }
{}

/// A datagram's verdict that has come stays, whatever bytes follow.
pub fn datagram_verdict_stays()
    ensures { DatagramVerdictStays }
{}

/// No datagram's bytes begin another datagram, and no datagram says two values.
pub fn no_datagram_begins_another()
    ensures { NoDatagramBeginsAnother }
{}

/// A whole verdict says that the reply's seven bytes are there, and are the reply of the value that it says.
pub fn whole_is_reply()
    ensures { WholeIsReply }
{}

/// A reply's verdict is whole, whatever bytes follow.
pub fn reply_is_whole()
    ensures { ReplyIsWhole }
{}

/// A reply's verdict that has come stays, whatever bytes follow.
pub fn reply_verdict_stays()
    ensures { ReplyVerdictStays }
{}

/// No reply's bytes begin another reply, and no reply says two values.
pub fn no_reply_begins_another()
    ensures { NoReplyBeginsAnother }
{}
