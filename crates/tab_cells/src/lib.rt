//! What a scan shows of records and what a merge keeps of them: definitions, and lemmas on them. The only code is an enum.
//!
//! The engine (sources, runs, versions, sessions, tablets) is proved against these, and knows neither users nor histories. The
//! definitions of histories stand on the same ones.
//!
//! | File | What |
//! |---|---|
//! | `specs/Written` | the records of an accepted mutation |
//! | `specs/Cells` | a query, and the cells that a scan of records shows |
//! | `specs/SessionState` | how far an open session has come, its next batch, and what it has in ranges of rows |
//! | `specs/Merged`, `MergedExamples` | what a merge of records keeps, and worked examples |
//! | `compaction`, `specs/Compactions` | the kinds of compactions |
//! | `laws` | that a scan has one answer |
//! | `proofs/Lists`, `Rising` | lists of records: members, tests, filters, order |
//! | `proofs/Written` | the records of a mutation beside those that were there before |
//! | `proofs/OneAnswer` | a scan's answer is one list |
//! | `proofs/SeenColumns`, `RowsInRange` | what is kept of the columns that are seen, and of the rows in range, is kept of all |
#![tactic(auto)]

mod compaction;
mod laws;

pub use compaction::Compaction;
pub use laws::one_answer_list;
