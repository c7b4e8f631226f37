//! Fragments, which are easy nodes that are searched for plainly, and their first ways.

pub use fancy_backtrack::memo::Memo;
pub use fancy_fragments::first_way::{first_way, first_way_with};
pub use fancy_fragments::fragment::Fragment;
pub use fancy_nfa::first_way::{FirstWay, Way};
