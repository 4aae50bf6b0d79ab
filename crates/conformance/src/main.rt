//! Runs the cases of `tapes.txt` and `frames.txt` through the functions that the programs call, and
//! says which come to something else than they should.
#![tactic(auto)]

ghost use Rattle.std.specs.Prelude.{◌≡◌, false, string_bytes};
ghost use Rattle.std.specs.Str.{bytes_eq};
ghost use Rattle.conformance.specs.declared.cases.Compared.TheVariants.{Whole, NotUnderstood};

use board::amount::*;
use cases::*;
use frames::*;
use report::arguments::*;
use report::refusal::*;
use report::*;
use std::alloc::{AllocError, Global};
use std::{fs, io};
use tape::*;
use worked_cases::tally::*;

mod boards;
mod cases;

fn main(rt: HostRuntime) -> io::Result<()> {
    check(&rt, "tapes", tape_answer)?;
    check(
        &rt,
        "frames",
        |heap, input, trim| report_under(heap, Frames::open(input), trim, 1),
    )?;
    boards::check(&rt)
}

/// Runs the cases of one file through a function that answers an input under a trim, with a line for each case that
/// differs and a line at the end.
fn check<F>(rt: &HostRuntime, name: &str, answer: F) -> io::Result<()>
where
    F: Fn(Global, &[u8], Option<TrimAmount>) -> Result<String, AllocError>,
    requires { F.IsAlwaysCallable answer }
{
    // As in the other program that reads its cases: a shared function that reads a file would have nothing to promise.
    let heap = rt.alloc();
    let path = format!(in heap; "{name}.txt")?;
    let text = fs::read_to_string(rt, path.as_str())?;
    let mut tally = Tally::default();
    for case in read_cases(heap, text.as_str())?.iter() {
        let came = match trim(case) {
            Ok(trim) => answer(heap, case.input.as_slice(), trim)?,
            Err(refusal) => number_line(heap, refusal)?,
        };
        if !tally.right(agrees(case, came.as_str())) {
            let title = case.title.as_str();
            let wanted = case.wanted.as_str();
            println!(rt; "{title}: expected {wanted:?}, came {came:?}")?;
        }
    }
    println!(rt; "{name}: {tally}")
}

/// Whether this is the output that the case asks for.
fn agrees(case: &Case, came: &str) -> bool
    ensures whole { case.now.compared ≡ Whole → result ≡ bytes_eq came.now (string_bytes case.now.wanted) }
    ensures not_understood { case.now.compared ≡ NotUnderstood → result ≡ false }
{
    let wanted = case.wanted.as_str();
    match case.compared {
        Compared::Whole => came == wanted,
        Compared::Last => came.lines().last() == wanted.lines().last(),
        Compared::NotUnderstood => false,
    }
}

// Memory, input and trim go through the functions that give a report as they do in the programs: no fact ties them, and a
// struct would be taken apart where it is made.

/// What the program writes on a tape, but of a refusal only the number.
fn tape_answer(heap: Global, input: &[u8], trim: Option<TrimAmount>) -> Result<String, AllocError> {
    match Tape::open(input) {
        Ok(tape) => report_under(heap, tape, trim, 2),
        Err(fault) => {
            let number = u8::from(fault);
            format!(in heap; "refused, {number}\n")
        }
    }
}

/// The trim that the case asks for.
fn trim(case: &Case) -> Result<Option<TrimAmount>, Refusal> {
    match &case.trim {
        Some(amount) => Ok(Some(trim_amount(amount.as_str())?)),
        None => Ok(None),
    }
}

/// The line of a refusal without its sentence: what stands before its first colon.
fn number_line(heap: Global, refusal: Refusal) -> Result<String, AllocError> {
    let line = format!(in heap; "{refusal}")?;
    let (front, _) = line.as_str().split_once(':').unwrap_or((line.as_str(), ""));
    format!(in heap; "{front}\n")
}
