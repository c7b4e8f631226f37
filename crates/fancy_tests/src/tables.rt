//! Prints each row's key and, in the place of its last column, which is not read, what comes out for that key.

use crate::columns::key_of;
use crate::line::Line;
use crate::rows;
use fancy_regex_engine::vm::Scratch;
use std::{fs, io};

/// Comments, which begin with `#`, are printed as they stand.
fn print_row(rt: &HostRuntime, table: &str, row: &str, scratch: &mut Scratch) -> io::Result<()> {
    if row.starts_with('#') {
        return println!(rt; "{row}");
    }
    let key = key_of(row);
    let mut line = Line::new(rt.alloc());
    let outcome = rows::push_outcome(&mut line, rt.alloc(), table, key, scratch);
    rows::finish(&mut line, outcome)?;
    println!(rt; "{key} | {}", line.as_str())
}

/// The table of this name, row by row.
pub fn print_table(rt: &HostRuntime, table: &str, scratch: &mut Scratch) -> io::Result<()> {
    let rows = fs::read_to_string(rt, table)?;
    for row in rows.lines() {
        print_row(rt, table, row, scratch)?;
    }
    Ok(())
}
