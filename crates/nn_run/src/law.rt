//! What a run from an image shows, apart from any call.
ghost use Rattle.nn_run.specs.Checkpoint.{PrintsTheSame, StartsThere};

/// A log that applies whole is cut at any transaction. A run from the image of its first part over the rest, with all messages
/// handed over again, prints the listing, tables, counts and safe mode of the whole log. The rest may have the transactions
/// before the cut too: they are passed over. It has no gap. Nothing is said of the history, in which messages may have other
/// places, nor of a log that does not apply whole.
///
/// The image of version 2 starts a run at the cut, if each path of the namespace there keeps the limits of paths. Its names are
/// UTF-8, as those of every namespace are.
pub fn a_checkpoint_prints_the_same()
    ensures tables { PrintsTheSame }
    ensures start { StartsThere }
{}
