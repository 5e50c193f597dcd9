//! What holds of the definitions of a line.
//!
//! Each function has no parameter and no effect: its contract is the law, which its proof shows of the
//! definitions alone.
ghost use Rattle.stream_script.specs.Cutting.{FindsPieces, FindsNone, NoPiecesIsBadText};

/// A line is cut into just the pieces of which it is made, so that it is made of one list of pieces at most;
/// and into none just where it is made of none.
pub fn pieces_are_found()
    ensures pieces { FindsPieces }
    ensures none { FindsNone }
{}

/// What is wrong with quotes and escapes is told as such: a line of printable bytes that isn't skipped, and
/// that is made of no pieces, is a bad text.
pub fn no_pieces_is_bad_text()
    ensures { NoPiecesIsBadText }
{}
