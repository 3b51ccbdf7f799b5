//! Laws over the texts, each a clause of a function without a body.
ghost use Rattle.std.specs.Prelude.{◌≡◌};
ghost use Rattle.cache_core.specs.Examples.{history_of_nine, history_of_one, history_of_room_three, history_of_six, history_of_three, second_is_busy};
ghost use Rattle.run_report.specs.Laws.{CountsAddUp, EvictionsAddUp, LooksAreAnswers};
ghost use Rattle.run_report.specs.Laws.{LinesDetermineCalls, TracesAreJoined, TracesDetermineCalls};
ghost use Rattle.run_report.specs.Examples.{page_counts, summary_of_nine, summary_of_one, summary_of_three};
ghost use Rattle.run_report.specs.Examples.{summary_of_two_seats, trace_of_two_seats};
ghost use Rattle.run_report.specs.Examples.{trace_of_nine, trace_of_one, trace_of_room_three, trace_of_six, trace_of_three};
ghost use Rattle.run_report.specs.Summary.{summary_text};
ghost use Rattle.run_report.specs.Trace.{trace_text};

/// Looks are hits, claims and busy ones together, and the counts of joined histories add up.
pub fn counts()
    ensures looks { LooksAreAnswers }
    ensures joined { CountsAddUp }
    ensures evictions { EvictionsAddUp }
{}

/// The trace of joined histories is one trace after the other. A line determines its call: the
/// seat, the key as it is printed, and what was done, with the keys that were evicted. A trace
/// determines each of its calls.
pub fn traces()
    ensures joined { TracesAreJoined }
    ensures lines { LinesDetermineCalls }
    ensures tell { TracesDetermineCalls }
{}

/// The traces of a page that looks fonts up five times, with a cache of one font and of three, and
/// of three with a budget of six bytes and of three; of a fill for which three fonts are evicted;
/// and of a claim that is given up while another seat looks for its key.
pub fn worked_traces()
    ensures of_one { trace_text history_of_one ≡ trace_of_one }
    ensures of_three { trace_text history_of_three ≡ trace_of_three }
    ensures of_six { trace_text history_of_six ≡ trace_of_six }
    ensures of_room_three { trace_text history_of_room_three ≡ trace_of_room_three }
    ensures of_nine { trace_text history_of_nine ≡ trace_of_nine }
    ensures of_two_seats { trace_text second_is_busy ≡ trace_of_two_seats }
{}

/// The summaries of these.
pub fn worked_summaries()
    ensures of_one { summary_text page_counts history_of_one ≡ summary_of_one }
    ensures of_three { summary_text page_counts history_of_three ≡ summary_of_three }
    ensures of_nine { summary_text page_counts history_of_nine ≡ summary_of_nine }
    ensures of_two_seats { summary_text page_counts second_is_busy ≡ summary_of_two_seats }
{}
