//! Reports on a dump of frames that comes in by standard input: `frame_check [--trim N]`.
#![tactic(auto)]

ghost use Rattle.std.specs.Prelude.{◌≡◌, IfOk, string_bytes};
ghost use Rattle.frames.specs.Dump.{opened};
ghost use Rattle.report.specs.Asked.{corrected};
ghost use Rattle.report.specs.Text.{reported};

use board::amount::*;
use frames::*;
use report::arguments::*;
use report::refusal::*;
use report::*;
use std::alloc::{AllocError, Global};
use std::io;
use std::io::Read;

/// The report on these bytes as frames, under the trim that is asked for; the first has place 1.
fn checked(heap: Global, bytes: &[u8], trim: Option<TrimAmount>) -> Result<String, AllocError>
    ensures answer { IfOk result (λ s. string_bytes s ≡ reported 1 (corrected trim (opened bytes.now).waiting)) }
{
    report_under(heap, Frames::open(bytes), trim, 1)
}

// What this and the other program share is no shorter as a function that takes both their differences as closures.
fn main(rt: HostRuntime) -> io::Result<()> {
    let heap = rt.alloc();
    match command_line_trim(&rt)? {
        Ok(trim) => {
            let mut bytes = Vec::new(heap);
            rt.stdin().read_to_end(&mut bytes)?;
            let text = checked(heap, bytes.as_slice(), trim)?;
            print!(rt; "{text}")
        }
        Err(refusal) => println!(rt; "{refusal}"),
    }
}
