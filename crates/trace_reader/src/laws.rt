//! What holds of every trace that is read. The functions do nothing: each has a law as its contract.
ghost use Rattle.trace_reader.specs.Laws.{LinesAreNumbered, NamesAreBoundInTurn, NumbersAreNames, PlacesAreReadBack};
ghost use Rattle.trace_reader.specs.Laws.{PlainTracesHaveOneShape, RowsAreReadBack, TracesAreClear};

/// A text is read as one thing only. So it spells one trace at most, and none where a line of it is refused, and one line
/// is refused at most, with one kind. What `read_trace` answers is settled by the bytes and the forms, but for memory.
pub fn traces_are_clear()
    ensures { TracesAreClear }
{}

/// A plain trace has no line, the line that names the one thread, or the line `pool P0 fixed`; or the one,
/// then the other, and then calls that are served, each whole, by that thread on that pool.
pub fn plain_traces_have_one_shape()
    ensures { PlainTracesHaveOneShape }
{}

/// The numbers of lines grow, from 1 to at most 65536, so no two are equal, and there are at most 65536.
pub fn lines_are_numbered()
    ensures { LinesAreNumbered }
{}

/// Each name that a call is asked of was bound by an earlier line, and the names that lines bind are numbered from 0, one
/// after another.
pub fn names_are_bound_in_turn()
    ensures { NamesAreBoundInTurn }
{}

/// A number is that of one name: no two names that were bound have the same one.
pub fn numbers_are_names()
    ensures { NumbersAreNames }
{}

/// The place that a report prints is the place that the reader reads: its text is read as that place and nothing else.
pub fn places_are_read_back()
    ensures { PlacesAreReadBack }
{}

/// The same of a row's name.
pub fn rows_are_read_back()
    ensures { RowsAreReadBack }
{}
