//! Rows of tables of rules.

use rule_trees::At;
use std::test::Fail;

/// A row: a tree of rules, what it takes to what, and what the kernel says, which is `ok` or the
/// first node that is no instance of its rule.
#[derive(Clone, Copy)]
pub struct Row<'a> {
    pub rules: &'a str,
    pub left: &'a str,
    pub right: &'a str,
    answer: &'a str,
}

impl<'a> Row<'a> {
    /// The row of a line, its four cells between bars.
    pub fn read(line: &'a str) -> Result<Row<'a>, Fail> {
        let mut cells = line.split(" | ");
        match (cells.next(), cells.next(), cells.next(), cells.next()) {
            (Some(rules), Some(left), Some(right), Some(answer)) => Ok(Row {
                rules,
                left,
                right,
                answer,
            }),
            _ => Err(Fail::from("a row has too few cells")),
        }
    }

    /// Whether this is what the row says of the kernel.
    pub fn says(&self, found: Result<(), At>) -> bool {
        match found {
            Ok(()) => self.answer == "ok",
            Err(At(at)) => self.answer.parse::<u32>() == Ok(at),
        }
    }
}

/// Whether the line of a table is no row: `#` and what the rows after it are about.
pub fn is_remark(line: &str) -> bool {
    line.starts_with('#')
}
