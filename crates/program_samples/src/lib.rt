//! What rows of the program are made of: messages, answers, and runs over files, ends and doors in memory.
#![tactic(auto)]

mod answers;
mod messages;
mod runs;

pub use answers::{
    Answer, COLLECTION, FEATURES, INSERTED, LOCKED, REPORT, REPORT_END, REPORT_LOCATOR,
    REPORT_TEXT, add_answer, answers_of, refusal,
};
pub use messages::{
    INSERT, INSERT_END, Message, SCHEMA, TWO_MARKS, add, add_post, length_of, messages_of,
};
pub use runs::{
    End, Left, Ready, disk_with, empty, end_of, go_empty, hold, hold_with, left_by, make_ready,
    make_ready_at, make_ready_failing, run, talk, text_of,
};
