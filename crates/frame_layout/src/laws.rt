//! The laws of the items of a connection, each as the contract of a function that does nothing.
ghost use Rattle.frame_layout.specs.Laws.{DownBegins, DownItemHasPlace, DownItemIsSaid, ShortDownIsFew, ShortUpIsFew, UpBegins, UpItemHasPlace, UpItemIsSaid, DownItemIsWhole, DownVerdictStays, NoDownItemBeginsAnother, NoUpItemBeginsAnother, UpItemIsWhole, UpVerdictStays, WholeIsDownItem, WholeIsUpItem};

/// A whole verdict up says that the first bytes are a login at the first place, and after it the frame of a data body or of a
/// response.
pub fn whole_is_up_item()
    ensures { WholeIsUpItem }
{}

/// A login's and a frame's verdict is whole, whatever bytes follow.
pub fn up_item_is_whole()
    ensures { UpItemIsWhole }
{}

/// A verdict up that has come stays, whatever bytes follow.
pub fn up_verdict_stays()
    ensures { UpVerdictStays }
{}

/// No item's bytes up begin another item of the same place.
pub fn no_up_item_begins_another()
    ensures { NoUpItemBeginsAnother }
{}

/// A whole verdict down says that the first bytes are the login's answer at the first place, and after it a count or the frame
/// of a command.
pub fn whole_is_down_item()
    ensures { WholeIsDownItem }
{}

/// An answer's, a count's and a frame's verdict is whole, whatever bytes follow.
pub fn down_item_is_whole()
    ensures { DownItemIsWhole }
{}

/// A verdict down that has come stays, whatever bytes follow.
pub fn down_verdict_stays()
    ensures { DownVerdictStays }
{}

/// No item's bytes down begin another item of the same place.
pub fn no_down_item_begins_another()
    ensures { NoDownItemBeginsAnother }
{}

/// A login comes only at the first place, and a frame only after it.
pub fn up_item_has_place()
    ensures { UpItemHasPlace }
{}

/// The login's answer comes only at the first place, and a count or a frame only after it.
pub fn down_item_has_place()
    ensures { DownItemHasPlace }
{}

/// What a whole item up says is an IMEI, a data body or a response, within its bounds.
pub fn up_item_is_said()
    ensures { UpItemIsSaid }
{}

/// What a whole item down says is a byte, a number that is not 0, or a command, within its bounds.
pub fn down_item_is_said()
    ensures { DownItemIsSaid }
{}

/// No item up is empty.
pub fn up_begins()
    ensures { UpBegins }
{}

/// No item down is empty.
pub fn down_begins()
    ensures { DownBegins }
{}

/// An unfinished item up has fewer bytes than the longest frame.
pub fn short_up_is_few()
    ensures { ShortUpIsFew }
{}

/// An unfinished item down has fewer than 1,280 bytes.
pub fn short_down_is_few()
    ensures { ShortDownIsFew }
{}
