//! Many trees and one text: which of them matches first.
#![tactic(auto)]

mod among;
mod answers;
mod reuse;
pub mod scan_cache;
pub mod scan_limit;
pub mod scan_text;
pub mod scanner;
pub mod searched;
