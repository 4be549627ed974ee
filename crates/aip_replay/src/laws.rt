//! Laws of trace texts. A law is a function that does nothing: what it ensures holds of every sound topology and every text.

ghost use Rattle.aip_replay.specs.Laws.{FirstPartsBegin, OneAnswerIsRight, RunsAreTraceTexts, TextsHaveOneTrace};

/// A first part of lines that begin a trace begins one.
pub fn a_first_part_begins_a_trace()
    ensures { FirstPartsBegin }
{}

/// At most one trace has a given text.
pub fn a_text_has_one_trace()
    ensures { TextsHaveOneTrace }
{}

/// What a run writes, its refusal line aside, is a trace text: so a replay accepts what a run wrote.
pub fn a_run_writes_a_trace_text()
    ensures { RunsAreTraceTexts }
{}

/// For each file over a topology at most one answer is right: so a replay that isn't cut short gives it.
pub fn at_most_one_answer_is_right()
    ensures { OneAnswerIsRight }
{}
