//! Filters of songs: their texts, what they mean, and the order and the part of what they find.
#![tactic(auto)]

pub mod calendar;
pub mod case;
mod expression;
pub mod fallback;
pub mod filter;
mod folded_row;
mod format;
pub mod laws;
mod lowered;
pub mod name;
mod operator;
pub mod order;
mod parts;
mod reading;
pub mod refusal;
mod row_text;
mod select;
pub mod subject;
pub mod time;
mod value;
pub mod word;
mod words;

pub use calendar::{Date, date_of};
pub use case::Case;
pub use fallback::{has_fallback, told_tag};
pub use filter::Filter;
pub use name::tag_named;
pub use order::{SortKey, SortOrder, sort_rows, window};
pub use parts::{ends_name, is_blank, is_quote};
pub use refusal::{FilterError, FilterPlace};
pub use subject::{AudioFormat, Comparison, Sample, Subject};
pub use time::{EPOCH, known_time};
pub use word::LineWord;
