//! What holds of every service, whatever lines came.
ghost use Rattle.nn_live.specs.Laws.{StandsAtItsLog, FollowsWhatCame, AnswersThePicture, PromotesAtTheEnd, PromotesInNoLowerEpoch, TakesOrTellsEachReport, NothingElseIsSent, MayBeSentTwice};
ghost use Rattle.nn_live.specs.SameRun.{ServesAsARun};
ghost use Rattle.nn_live.specs.Taking.{MayBeCut};
ghost use Rattle.nn_live.specs.TellingLaws.{HistoryTellsAll, HistoryTellsAllAtEnd, NoSegmentInSilence};
ghost use Rattle.nn_live.specs.WordLaws.{BlockTellsThePath, MistypedChangesNothing, NothingChangesNothing, TornWordChangesNothing};

/// Whatever lines came, there is a log at which, with the messages that were taken, the standby stands.
pub fn a_service_stands_at_its_log()
    ensures { StandsAtItsLog }
{}

/// Once the service is promoted, `tables` is answered with the tables of that log and of these messages, as the program prints
/// them of a scenario that has both.
pub fn a_promotion_shows_the_picture()
    ensures { AnswersThePicture }
{}

/// Where a promotion without `lost` has put the service in charge, every transaction that came as an edit line or was seen is at
/// most its txid, and that is the last transaction of the log. In charge is a service that is active in the greatest epoch named.
pub fn a_promotion_gives_up_no_edit()
    ensures { PromotesAtTheEnd }
{}

/// A caller that sends every segment twice has the same service as one that sends each once: it needs no memory of what it sent.
pub fn a_segment_may_be_sent_twice()
    ensures { MayBeSentTwice }
{}

/// However an input is cut into chunks, what is told of them and at its end is what the definition tells of the whole.
pub fn an_input_may_be_cut()
    ensures { MayBeCut }
{}

/// Where a promotion, with `lost` or without, has put the service in charge, no line named a greater epoch than its own.
pub fn a_promotion_is_in_no_lower_epoch()
    ensures { PromotesInNoLowerEpoch }
{}

/// Each line that is a report is its DataNode's next message, or one line says that it is not taken and why.
pub fn each_report_is_taken_or_told()
    ensures { TakesOrTellsEachReport }
{}

/// No other line than a report and `gone` sends a message.
pub fn nothing_else_is_sent()
    ensures { NothingElseIsSent }
{}

/// Each transaction of the log is an edit of the lines that came.
pub fn a_service_follows_what_came()
    ensures { FollowsWhatCame }
{}

/// What `block` tells of a block is what `replicas` tells of it, with the path of its file behind the first line; of a block that no
/// file holds both tell the same.
pub fn block_tells_the_path()
    ensures { BlockTellsThePath }
{}

/// A line that begins as words do and is none changes nothing of what the service holds: it is counted, and answered. So does a line
/// that is neither word nor data, and what begins as a word where its line feed never came: these are told.
pub fn a_mistyped_word_changes_nothing()
    ensures word { MistypedChangesNothing }
    ensures other { NothingChangesNothing }
    ensures torn { TornWordChangesNothing }
{}

/// With its history told a service writes what it writes without, and puts in a line for each thing that its standby did: in order,
/// once, and only where a line has ended. These are the things of the history that is whole behind a promotion.
pub fn a_history_tells_all()
    ensures so_far { HistoryTellsAll }
    ensures at_end { HistoryTellsAllAtEnd }
{}

/// Behind the lines of a segment the last of its transactions was applied, now or before, or the last line that was written says why
/// not: it is no segment, it begins above the next txid, or one of its transactions is refused.
pub fn no_segment_in_silence()
    ensures { NoSegmentInSilence }
{}

/// Where a run of some lines has no fault, a service that gets these lines, `promote` at the run's txid and `tables` answers with what
/// the run prints.
pub fn a_service_answers_as_a_run()
    ensures { ServesAsARun }
{}
