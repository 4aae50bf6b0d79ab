//! Reports on a tape that comes in by standard input: `tape_check [--trim N]`.
#![tactic(auto)]

ghost use Rattle.std.specs.Prelude.{◌≡◌, IfOk, Some, string_bytes};
ghost use Rattle.report.specs.Refusals.{refusal_number};
ghost use Rattle.tape.specs.Opened.{opened, tape_number};
ghost use Rattle.tape_check.specs.Said.{refusal_of, said};

use board::amount::*;
use report::arguments::*;
use report::refusal::*;
use report::*;
use std::alloc::{AllocError, Global};
use std::io;
use std::io::Read;
use tape::opening::*;
use tape::taking::*;
use tape::*;

/// The report on these bytes as a tape, under the trim that is asked for, or the refusal of them,
/// in a line; the first value line has place 2.
fn checked(heap: Global, bytes: &[u8], trim: Option<TrimAmount>) -> Result<String, AllocError>
    ensures answer { IfOk result (λ s. string_bytes s ≡ said trim (opened bytes.now)) }
{
    match Tape::open(bytes) {
        Ok(tape) => report_under(heap, tape, trim, 2),
        Err(fault) => {
            let refusal = refused(fault);
            format!(in heap; "{refusal}\n")
        }
    }
}

/// The refusal of a tape that is not opened. A function, since `From` would have to stand in one of two libraries that
/// know nothing of each other.
fn refused(fault: TapeFault) -> Refusal
    ensures answer { result ≡ refusal_of fault }
    ensures number { refusal_number result ≡ Some (tape_number fault) }
{
    match fault {
        TapeFault::TooLong => Refusal::TapeTooLong,
        TapeFault::BadNames => Refusal::BadNames,
    }
}

// What this and the other program share is no shorter as a function that takes both their differences as closures.
fn main(rt: HostRuntime) -> io::Result<()> {
    let heap = rt.alloc();
    match command_line_trim(&rt)? {
        Ok(trim) => {
            let mut bytes = Vec::new(heap);
            rt.stdin().take(enough() as u64).read_to_end(&mut bytes)?;
            let text = checked(heap, bytes.as_slice(), trim)?;
            print!(rt; "{text}")
        }
        Err(refusal) => println!(rt; "{refusal}"),
    }
}
