//! What lawful histories and standings say. Each law is the contract of a function that does nothing.
ghost use Rattle.nn_model.specs.HistoryLaws.{EndsInPicture, ReplaysPicture, TablesShowPicture, ProcessedOnce, EachOnce, InSendingOrder, SameWhenWhole, LawfulIsLoose, SameWhenFlushed, SameBeforeFlush, FreshStands};

/// After a lawful and whole history the replicas and orders of the sequential standby are the picture, for every
/// DataNode and block. The picture knows neither events nor an order between DataNodes, so every schedule ends
/// in the same tables.
pub fn ends_in_picture()
    ensures { EndsInPicture }
{}

/// At every moment before the flush the replicas and orders are the picture of the messages that are not held.
/// So they depend on the log and on what was sent so far, and not on the order in which the two came.
pub fn stands_in_picture()
    ensures replay { ReplaysPicture }
    ensures tables { TablesShowPicture }
{}

/// A lawful history processes no message twice, and where it is whole each one that was sent exactly once. It
/// processes those of one DataNode about one block in the order in which they were sent.
pub fn once_in_sending_order()
    ensures once { ProcessedOnce }
    ensures each { EachOnce }
    ensures in_order { InSendingOrder }
{}

/// A message may be processed as due when nothing holds it: when it and each earlier one of its DataNode about
/// its block are due. A looser reading asks only that the message itself is due. A history that is whole can't
/// tell the two apart. While messages are still held only the first one keeps an earlier message from being
/// overtaken. So what was processed as due was due, in whole histories and in others.
pub fn same_when_whole()
    ensures same { SameWhenWhole }
    ensures loose { LawfulIsLoose }
{}

/// Two standbys that stand at one log and at the same lanes show the same tables, counts and safe mode: after the
/// flush of both, and before the flush of either, when they hold the same messages too. Neither the order in which
/// log and messages came nor that of the DataNodes can be told from them.
pub fn one_log_one_picture()
    ensures flushed { SameWhenFlushed }
    ensures before { SameBeforeFlush }
{}

/// A standby that did nothing yet stands at the empty log and at no messages.
pub fn fresh_stands()
    ensures { FreshStands }
{}
