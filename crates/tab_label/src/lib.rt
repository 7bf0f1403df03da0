//! Column visibility labels and authorizations, as the Accumulo user manual has them.
//!
//! A label is the empty text, which everybody sees, or an expression of terms, `&`, `|` and parentheses.
//! A term holds for one whose authorizations contain it; `&` needs each operand, `|` one.
//! The two joiners may not be mixed at one level, there is no negation, and no white space outside quotes.
//!
//! An unquoted term is one or more bytes of `a-z A-Z 0-9 _ - : . /`. A quoted term stands between two `"` and has a byte at least;
//! inside, `\"` stands for `"` and `\\` for `\`, and any other byte for itself. Parentheses nest at most 64 deep, and hold something.
//! The limit of 64, and that a quoted term may have any byte, are this project's own.
//!
//! `Label::parse` builds a label. `judge` decides a text under a set of authorizations without any memory.
//! Both find the offset of a text that is no label: the length of its longest front with which some label begins.
//!
//! | File | What |
//! |---|---|
//! | `auths` | sets of authorizations |
//! | `tree`, `joiner` | a label as it is built: its expression, and what joins operands |
//! | `parser`, `state`, `steps` | reading a text as a label: the whole way, the state behind a front of it, and the step over a byte |
//! | `fault` | why a text was not read as a label |
//! | `holds` | whether a label holds |
//! | `judgement`, `levels` | judging a text in one pass, and the stack of levels for it |
//! | `known_labels` | short labels that were judged, found again by number |
//! | `escapes` | comparing with what stands between quotes |
//! | `laws` | reading is the grammar, and holding the relation |
//!
//! `specs/Grammar` says which texts are labels, `specs/Holding` when a label holds, `specs/Sets` what sets are, `specs/Laws` the laws.
//! `Machine` and `Reading` read a text byte by byte, `Judging` judges it so; `KnownLabels` says of a number that its byte string is a label; `Views`, `ParserViews` and `JudgeViews` say what
//! the code's types stand for. In `proofs`, `Sound`, `Complete`, `Runs` and `LabelOf` tie reading to the grammar, `Judged` judging to
//! reading, `HoldingLemmas` and `OperandLemmas` the test of a label to the fact, `More` is the law of more authorizations,
//! `SetLemmas`, `AuthLemmas` and `Unions` are on sets, `KnownLabelLemmas` on labels known by number, and `Examples` has worked examples.
#![tactic(auto)]

mod auths;
mod escapes;
mod fault;
mod holds;
mod joiner;
mod judgement;
mod known_labels;
mod laws;
mod levels;
mod parser;
mod state;
mod steps;
mod tree;

pub use auths::AuthSet;
pub use fault::LabelFault;
pub use joiner::Joiner;
pub use judgement::{is_visible, judge};
pub use known_labels::{KnownLabels, label_slot};
pub use laws::{
    holding_is_the_relation, more_authorizations_hold_more, one_meaning, reading_is_the_grammar,
    the_grammar_is_reading,
};
pub use tree::{Label, Tree};
