//! Rows with parts that stand there many times: in a cell `A*B*C*D*E` stands for so many A, one B,
//! so many C, one D and so many E.

use std::alloc::{AllocError, Global};

fn push_times(text: &mut String, part: &str, count: u32) -> Result<(), AllocError> {
    for _ in 0..count {
        text.push_str(part)?;
    }
    Ok(())
}

fn push_cell(text: &mut String, cell: &str, count: u32) -> Result<(), AllocError> {
    if !cell.contains('*') {
        return text.push_str(cell);
    }
    for (k, part) in cell.split('*').enumerate() {
        let times = if k % 2 == 0 { count } else { 1 };
        push_times(text, part, times)?;
    }
    Ok(())
}

/// A row with so many parts.
pub(crate) fn repeated(alloc: Global, line: &str, count: u32) -> Result<String, AllocError> {
    let mut text = String::new(alloc);
    for (k, cell) in line.split(" | ").enumerate() {
        if k > 0 {
            text.push_str(" | ")?;
        }
        push_cell(&mut text, cell, count)?;
    }
    Ok(text)
}
