//! Laws of segments, of sources, and of a walk over what sources gave. Each is the contract of a function that
//! does nothing.
ghost use Rattle.std.specs.Prelude.{◌≡◌, List, ℕ, Ok, true, map};
ghost use Rattle.std.specs.List.{list_all};
ghost use Rattle.nn_edits.specs.Reading.{edit_of_line};
ghost use Rattle.nn_types.specs.declared.tx.Tx.{Tx};
ghost use Rattle.nn_segment.specs.LogLaws.{EndsWithTheLog};
ghost use Rattle.nn_segment.specs.Lines.{reads_of, JoinedAreCutBack};
ghost use Rattle.nn_bytes.specs.Pieces.{is_unbroken, joined_lines};
ghost use Rattle.nn_segment.specs.Reading.{read_segment};
ghost use Rattle.nn_segment.specs.Segment.{Segment, IsSegment};
ghost use Rattle.nn_segment.specs.Source.{GivesInOrder};
ghost use Rattle.nn_segment.specs.Walk.{OldIsPassedOver, NextTxIsTaken, OldSegmentAddsNothing, HighSegmentAddsNothing};
ghost use Rattle.nn_segment.specs.Walk.{SegmentAddsTheRest, SegmentBehindTheRest, EndAddsNothing, FaultAddsNothing};

/// What is read is a segment of that name and those bytes, and each segment is read.
pub fn reading_is_the_segment()
    ensures is { (name bytes : List ℕ) (s : Segment) → read_segment name bytes ≡ Ok s
        → IsSegment s × (s.name ≡ name) × (s.bytes ≡ bytes) }
    ensures only { (s : Segment) → IsSegment s → read_segment s.name s.bytes ≡ Ok s }
{}

/// Lines that are joined, with a line feed after each, are cut back into the same lines. So whoever read lines can
/// make the bytes of their segment, and hand in the transactions with them.
pub fn joined_lines_are_cut_back()
    ensures lines { JoinedAreCutBack }
    ensures reads { (lines : List (List ℕ)) (txs : List Tx) → list_all is_unbroken lines ≡ true
        → map edit_of_line lines ≡ map Ok txs → reads_of (joined_lines lines) ≡ map Ok txs }
{}

/// A source in memory gives the segments that it was made of, in order, and then End.
pub fn memory_gives_in_order()
    ensures { GivesInOrder }
{}

/// What a walk over segments may rest on: which transactions of a segment are the next of the log, one by one and
/// as a whole, and what one more answer of a source adds.
pub fn a_walk_goes_through()
    ensures passed { OldIsPassedOver }
    ensures taken { NextTxIsTaken }
    ensures old { OldSegmentAddsNothing }
    ensures high { HighSegmentAddsNothing }
    ensures rest { SegmentAddsTheRest }
    ensures behind { SegmentBehindTheRest }
    ensures end { EndAddsNothing }
    ensures fault { FaultAddsNothing }
{}

/// Where the walk over segments ends, the namespace is the one after the log that the segments hold.
pub fn a_walk_ends_with_the_log()
    ensures { EndsWithTheLog }
{}
