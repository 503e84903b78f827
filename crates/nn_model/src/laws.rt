//! What edits and logs keep. Each law is the contract of a function that does nothing.
ghost use Rattle.nn_model.specs.Namespace.{root_alone};
ghost use Rattle.nn_model.specs.WellFormed.{IsWellFormed};
ghost use Rattle.nn_model.specs.Laws.{DueStays, BlocksStayWellFormed, StaysWellFormed, NamesStayUtf8, EqualLookUps};
ghost use Rattle.nn_model.specs.Laws.{TouchedTells, RowsAreTold, RowsShowBlocks, OnlyTouchedBecomeDue};
ghost use Rattle.nn_model.specs.Laws.{LogKeepsWellFormed, LogKeepsBlocks, LogKeepsDue, NamespaceOfAppended, AppendedLog, LogRuns};
ghost use Rattle.nn_model.specs.Laws.{LogCountsUp, OneMoreSegment, OldAddsNothing, GapAddsNothing, OverlapAddsTheRest, LowerProfileGoesOn};
ghost use Rattle.nn_model.specs.Laws.{EditOnThePart, LogOnThePart, RestGoesAlong, RestGoesAlongLog, PartIsWellFormed};

/// A message that is due is due after every edit that applies. So a standby never has to take a message back
/// that it processed once the log had named its block.
pub fn due_stays()
    ensures { DueStays }
{}

/// After an edit that applies the rows are in path order, each block id was issued and is in one file alone,
/// and no block of a file awaits.
pub fn blocks_stay_well_formed()
    ensures { BlocksStayWellFormed }
{}

/// After an edit that applies the namespace is well formed: a tree of directories with files as leaves, with well
/// formed blocks, in the limits of its numbers.
pub fn stays_well_formed()
    ensures { StaysWellFormed }
{}

/// After an edit that applies the names of the namespace are UTF-8, as those of the edit are: a rename puts names of
/// both together.
pub fn names_stay_utf8()
    ensures { NamesStayUtf8 }
{}

/// Whoever keeps blocks by their id, as a replica table does, can follow the log by what each edit touched: the
/// blocks that it changed, whose file it closed or left open, the ids that it retired, and nothing else.
pub fn touched_tells()
    ensures blocks { TouchedTells }
    ensures rows { RowsAreTold }
    ensures shown { RowsShowBlocks }
{}

/// After an edit a standby has to ask only for held messages about the blocks that the edit touched.
pub fn only_touched_become_due()
    ensures { OnlyTouchedBecomeDue }
{}

/// The namespace before the first edit is well formed.
pub fn root_alone_is_well_formed()
    ensures { IsWellFormed root_alone }
{}

/// Two namespaces whose look-ups, last id, last stamp and awaiting ids agree are equal, rows and all.
pub fn equal_look_ups()
    ensures { EqualLookUps }
{}

/// What holds before a log holds after it: the namespace is well formed, and what was due is due.
pub fn a_log_keeps()
    ensures well_formed { LogKeepsWellFormed }
    ensures blocks { LogKeepsBlocks }
    ensures due { LogKeepsDue }
{}

/// A log may be cut in two anywhere, as by an image: the second part goes on from the namespace of the first.
pub fn a_log_goes_on()
    ensures namespace { NamespaceOfAppended }
    ensures log { AppendedLog }
{}

/// A log is applied to its end, with no refusal.
pub fn a_log_runs()
    ensures { LogRuns }
{}

/// Of segments that overlap each transaction counts once, in order.
pub fn segments_make_a_log()
    ensures counts_up { LogCountsUp }
    ensures one_more { OneMoreSegment }
    ensures old { OldAddsNothing }
    ensures gap { GapAddsNothing }
    ensures overlap { OverlapAddsTheRest }
{}

/// A log goes on from a namespace whose profile was forgotten, as from an image that has none: what comes of it differs
/// in the profile alone.
pub fn a_lower_profile_goes_on()
    ensures { LowerProfileGoesOn }
{}

/// An edit does to the part of a namespace that has its names what it does to the whole. So an audit may give the
/// program that part alone. The names are all of those in the edit's paths, and not the last ones alone: a file among the
/// parents of a path refuses the edit, and has to be in the part.
pub fn an_edit_on_the_part()
    ensures { EditOnThePart }
{}

/// A log does to the part of a namespace that has its names what it does to the whole, and stops alike.
pub fn a_log_on_the_part()
    ensures { LogOnThePart }
{}

/// The rest, which are the files of other names, stays as it is, but for what its directories go through: it moves with
/// them, and is deleted with them. So an audit may compare it image to image.
pub fn the_rest_goes_along()
    ensures edit { RestGoesAlong }
    ensures log { RestGoesAlongLog }
{}

/// The part of a well formed namespace is well formed, so what is proved of those holds of it.
pub fn the_part_is_well_formed()
    ensures { PartIsWellFormed }
{}
