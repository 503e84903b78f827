//! Lines of JSON, read a member at a time: those in the plain spelling, as nearly all are, and all others.
//!
//! A plain line is one object of UTF-8, and no other byte stands before it. Its values are texts without escapes, numbers of
//! digits alone, `true` and `false`, and arrays of blocks: objects of these texts, numbers and truth values. Keys may come in
//! any order, may be repeated, and there may be others. Blanks may stand after each token, and a carriage return at the end, but
//! no tab.
//!
//! `read_plain` takes a line's text where nothing in it is escaped, as `nn_bytes::known_text` gives it. It needs no index, and
//! looks at each byte few times. It says yes or no, and a no says nothing of the line: the caller then begins anew with
//! `read_line`, which reads all of JSON, and that one decides. So each fault is told there. `read_value` hands it plain values,
//! and passes over all others: no tree of values is made.
#![tactic(auto)]

mod any;
mod blocks;
mod by_eight;
mod line;
mod number;
mod object;
mod text;
mod tokens;
mod truth;
mod value;
mod word;

pub use any::read_value;
pub use line::read_plain;
pub use object::{ItemSink, MemberSink, ReadFault, read_array, read_line, read_object};
pub use value::{Plain, Slots};
pub use word::{high_word, word_of};
