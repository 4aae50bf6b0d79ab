//! The cases of a file: `case TITLE` begins one, and the lines that follow are tried one by one. A
//! line that begins with `#` is a comment.

use std::alloc::{AllocError, Global};
use std::{fs, io};

/// What the lines of a case are tried on.
pub(crate) trait Trial: Copy {
    /// What a case begins with; no `Default`, since a draft has none.
    fn new() -> Self;

    /// Does what a line says, and tells whether that led where it should.
    fn agrees(&mut self, heap: Global, line: &str) -> Result<bool, AllocError>;
}

/// Tries the cases of one file, with a line for each line of it that goes wrong and a line at the end.
pub(crate) fn check<T: Trial>(rt: &HostRuntime, name: &str) -> io::Result<()> {
    // As in the other program that reads its cases: a shared function that reads a file would have nothing to promise.
    let heap = rt.alloc();
    let path = format!(in heap; "{name}.txt")?;
    let text = fs::read_to_string(rt, path.as_str())?;
    let mut trial = T::new();
    // Two counts that different lines of the file add to, so no count of a chain.
    let mut cases: u64 = 0;
    let mut wrong: u64 = 0;
    for (line, number) in text.lines().zip(1u64..) {
        if line.starts_with("case ") {
            cases = cases.saturating_add(1);
            trial = T::new();
        } else if !passes(&mut trial, heap, line)? {
            wrong = wrong.saturating_add(1);
            println!(rt; "{path}, line {number}: wrong, {line}")?;
        }
    }
    println!(rt; "{name}: {cases} cases, {wrong} wrong")
}

/// Whether a line of a case led where it should, as comments always do.
fn passes<T: Trial>(trial: &mut T, heap: Global, line: &str) -> Result<bool, AllocError> {
    if line.is_empty() || line.starts_with('#') {
        return Ok(true);
    }
    trial.agrees(heap, line)
}

/// The first word of a text, and what follows it.
pub(crate) fn word(text: &str) -> (&str, &str) {
    text.split_once(' ').unwrap_or((text, ""))
}
