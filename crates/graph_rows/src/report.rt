use crate::answers::{Manner, answer_of};
use crate::building::build;
use crate::declared::{Declaration, Declared};
use crate::generating::generated;
use crate::halt::{Halt, Slip};
use crate::row::{Row, declare_all, empty_row, read_line};
use std::alloc::{AllocError, Global};

/// What is told of rows: their count, how many are answered otherwise than expected, and the lines that say how.
#[derive(Drop)]
pub struct Report {
    pub rows: u64,
    pub differing: u64,
    pub text: String,
}

/// The row that is read, and what stands in the way of it: a line's number, and what is wrong with it.
#[derive(Drop)]
struct Open {
    row: Row,
    fault: Option<(usize, Slip)>,
}

/// The names of units, in order.
fn unit_names(alloc: Global, declarations: &[Declaration]) -> Result<Vec<String>, AllocError> {
    let mut names = Vec::new(alloc);
    for declaration in declarations {
        if let Declared::Unit(_) = &declaration.body {
            names.push(String::from_str(alloc, declaration.name.as_str())?)?;
        }
    }
    Ok(names)
}

/// The answer of a row.
fn answered(alloc: Global, row: &Row) -> Result<Vec<String>, Halt> {
    let program = build(alloc, &row.declarations, &row.changes)?;
    let units = unit_names(alloc, &row.declarations)?;
    let manner = Manner {
        units: &units,
        brief: row.brief,
    };
    let lines = answer_of(alloc, &program, manner)?;
    Ok(lines)
}

/// Adds what a generator declares.
fn generate(alloc: Global, row: &mut Row, text: &str) -> Result<(), Halt> {
    let lines = generated(alloc, text)?;
    row.brief = true;
    declare_all(alloc, &mut row.declarations, &lines)
}

/// What a generator's program is answered.
pub fn generated_answer(alloc: Global, text: &str) -> Result<Vec<String>, Halt> {
    let mut row = empty_row(alloc);
    generate(alloc, &mut row, text)?;
    answered(alloc, &row)
}

/// The line at this position, or a word that says that there is none.
fn line_at(lines: &[String], at: usize) -> &str {
    match lines.get(at) {
        Some(line) => line.as_str(),
        None => "nothing",
    }
}

/// Appends a line for each that differs from the expected one, and tells whether there is one.
fn compare(
    text: &mut String,
    number: u64,
    expected: &[String],
    found: &[String],
) -> Result<bool, AllocError> {
    let mut differs = false;
    for at in 0..expected.len().max(found.len()) {
        let (wanted, got) = (line_at(expected, at), line_at(found, at));
        if wanted != got {
            differs = true;
            writeln!(text, "row {number}: expected {wanted} got {got}")?;
        }
    }
    Ok(differs)
}

/// Whether a refusal is expected, and one of the expected lines is what was found.
fn is_expected_refusal(expected: &[String], found: &[String]) -> bool {
    let refused = expected.iter().all(|line| line.starts_with("refused "));
    refused
        && found.len() == 1
        && expected
            .iter()
            .any(|line| line.as_str() == line_at(found, 0))
}

impl Report {
    /// Counts a row that isn't read or built.
    fn add_fault(&mut self, at: usize, slip: Slip) -> Result<(), AllocError> {
        let number = self.rows;
        self.differing = self.differing.saturating_add(1);
        writeln!(self.text, "row {number}: line {at} isn't right: {slip:?}")
    }

    /// Counts a row, and adds how it is answered otherwise than expected.
    fn add_row(&mut self, alloc: Global, open: &Open, line: usize) -> Result<(), AllocError> {
        self.rows = self.rows.saturating_add(1);
        if let Some((at, slip)) = open.fault {
            return self.add_fault(at, slip);
        }
        let expected = open.row.expected.as_slice();
        match answered(alloc, &open.row) {
            Ok(found) => {
                if is_expected_refusal(expected, &found) {
                    return Ok(());
                }
                if compare(&mut self.text, self.rows, expected, &found)? {
                    self.differing = self.differing.saturating_add(1);
                }
                Ok(())
            }
            Err(Halt::Slip(slip)) => self.add_fault(line, slip),
            Err(Halt::NoMemory) => Err(AllocError),
        }
    }
}

/// Adds a line to the row that is read, unless there is a fault in one above.
fn add_line(alloc: Global, open: &mut Open, at: usize, line: &str) -> Result<(), AllocError> {
    if open.fault.is_some() {
        return Ok(());
    }
    let added = match line.strip_prefix("generate ") {
        Some(text) => generate(alloc, &mut open.row, text),
        None => read_line(alloc, &mut open.row, line),
    };
    match added {
        Ok(()) => Ok(()),
        Err(Halt::Slip(slip)) => {
            open.fault = Some((at, slip));
            Ok(())
        }
        Err(Halt::NoMemory) => Err(AllocError),
    }
}

/// What is told of the rows in a text.
pub fn report_of(alloc: Global, text: &str) -> Result<Report, AllocError> {
    let mut report = Report {
        rows: 0,
        differing: 0,
        text: String::new(alloc),
    };
    let mut open: Option<Open> = None;
    let mut at: usize = 0;
    for line in text.lines() {
        at = at.saturating_add(1);
        let line = line.trim();
        if line.is_empty() || line.starts_with('#') {
            continue;
        }
        if line.starts_with("row ") {
            if let Some(done) = &open {
                report.add_row(alloc, done, at)?;
            }
            open = Some(Open {
                row: empty_row(alloc),
                fault: None,
            });
        } else {
            match &mut open {
                Some(row) => add_line(alloc, row, at, line)?,
                None => report.add_fault(at, Slip::Line)?,
            }
        }
    }
    if let Some(done) = &open {
        report.add_row(alloc, done, at)?;
    }
    Ok(report)
}
