//! What the lines of a script mean on a store: the commands of a session as a meaning of a line,
//! its shared state and records, and laws on sessions, on single commands and on what a crash may
//! leave. All of it is definitions and laws on them; the program is in the crates above.
#![tactic(auto)]

mod laws;

pub use laws::{
    acknowledged_records_are_left, acquires_are_answered, commits_extend_the_latest,
    crashes_leave_what_a_run_settles, definitions_are_answered, done_outcomes_change_nothing,
    dumps_tell_numbers_and_cells, faults_are_seen, grants_have_the_latest,
    lines_are_answered_in_order, lines_give_back_the_script, lines_keep_other_sessions,
    lines_of_no_session_stay_apart, lines_take_turns, objects_answer_as_commits,
    readers_share_nothing, records_match, refusals_change_nothing, session_lines_are_answered_once,
    sessions_read_their_own, text_fixes_outcomes, text_is_told_once, views_fit,
};
