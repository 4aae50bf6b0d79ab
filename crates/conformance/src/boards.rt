//! Boards by their four functions, and the option of the programs.

use board::amount::*;
use board::trim::*;
use board::*;
use frames::*;
use reading::*;
use report::arguments::*;
use report::refusal::*;
use std::alloc::{AllocError, Global};
use std::io;
use tape::*;
use worked_cases::tally::*;

const TAPE: &[u8] =
    b"tick,vbat,vsys,dcin,cur,temp\n0,3700,3700,5000,16300,25\nx\n1,6001,3700,5000,0,25\n";

/// Whether the board drives up to its ceiling and no further, and a refusal with 4 changes nothing.
fn drives<B: Board>(board: &mut B, ceiling: u16) -> bool {
    let top = ChargeMilliamps(ceiling);
    let beyond = ChargeMilliamps(ceiling.saturating_add(1));
    board.ceiling() == top
        && board.driven() == ChargeMilliamps(0)
        && board.drive(top).is_ok()
        && board.driven() == top
        && board.drive(beyond).is_err_and(|fault| u8::from(fault) == 4)
        && board.driven() == top
}

/// Whether a take gave a reading with this current.
fn reads(came: Result<Reading, Fault>, milliamps: i16) -> bool {
    came.is_ok_and(|reading| reading.cur == Milliamps(milliamps))
}

/// Whether a take gave a blank, by the numbers of its cause, its place and its kind: compared as enums it
/// would be no shorter, and no case would try the numbers.
fn is_blank(came: Result<Reading, Fault>, cause: u8, place: u64, kind: u8) -> bool {
    match came {
        Err(Fault::NoReading(blank)) => {
            u8::from(blank.cause) == cause && blank.place == place && u8::from(blank.kind) == kind
        }
        _ => false,
    }
}

/// Whether nothing waits any more, however often it is asked.
fn is_done<B: Board>(board: &mut B) -> bool {
    board.take() == Err(Fault::NothingWaiting) && board.take() == Err(Fault::NothingWaiting)
}

fn tape_calls() -> bool {
    let Ok(mut board) = Tape::open(TAPE) else {
        return false;
    };
    drives(&mut board, 500)
        && reads(board.take(), 16300)
        && is_blank(board.take(), 1, 3, 1)
        && is_blank(board.take(), 2, 4, 1)
        && is_done(&mut board)
        && board.driven() == ChargeMilliamps(500)
}

fn frame_calls() -> bool {
    let mut board = Frames::open(
        b"\x00\x00\x00\x00\x00\x00\x00\x07\x0e\x74\x0e\x74\x13\x88\x80\x78\xaf\x00\x01",
    );
    drives(&mut board, 2000)
        && reads(board.take(), -120)
        && is_blank(board.take(), 3, 2, 2)
        && is_done(&mut board)
        && board.driven() == ChargeMilliamps(2000)
}

/// Two trims hold one after the other, and hand on blanks, drive and ceiling.
fn trim_calls() -> bool {
    let Ok(up) = TrimAmount::try_from(Milliamps(200)) else {
        return false;
    };
    let Ok(down) = TrimAmount::try_from(Milliamps(-200)) else {
        return false;
    };
    let Ok(tape) = Tape::open(TAPE) else {
        return false;
    };
    let mut board = Trim::new(Trim::new(tape, up), down);
    drives(&mut board, 500) && reads(board.take(), 16183) && is_blank(board.take(), 1, 3, 1)
}

/// Arguments that are understood, or their refusal.
const ARGUMENTS: [(&str, &str, Result<(), Refusal>); 16] = [
    ("--trim", "0", Ok(())),
    ("--trim", "-0", Ok(())),
    ("--trim", "007", Ok(())),
    ("--trim", "200", Ok(())),
    ("--trim", "-200", Ok(())),
    ("--trim", "201", Err(Refusal::AmountOutOfRange)),
    ("--trim", "-201", Err(Refusal::AmountOutOfRange)),
    ("--trim", "1000", Err(Refusal::AmountOutOfRange)),
    (
        "--trim",
        "99999999999999999999999999",
        Err(Refusal::AmountOutOfRange),
    ),
    ("--trim", "", Err(Refusal::NoWholeNumber)),
    ("--trim", "-", Err(Refusal::NoWholeNumber)),
    ("--trim", "+5", Err(Refusal::NoWholeNumber)),
    ("--trim", " 5", Err(Refusal::NoWholeNumber)),
    ("--trim", "5 ", Err(Refusal::NoWholeNumber)),
    ("--trim", "five", Err(Refusal::NoWholeNumber)),
    ("--tram", "5", Err(Refusal::UnknownArgument)),
];

/// Whether arguments come to what they should, and a refusal of an amount has the number 14 and any other none.
fn understood(
    heap: Global,
    option: &str,
    amount: &str,
    wanted: Result<(), Refusal>,
) -> Result<bool, AllocError> {
    let arguments = vec![in heap;
        String::from_str(heap, option)?,
        String::from_str(heap, amount)?,
    ]?;
    Ok(match requested_trim(arguments.as_slice()) {
        Ok(_) => wanted == Ok(()),
        Err(refusal) => {
            let number = match refusal {
                Refusal::AmountOutOfRange => Some(14),
                _ => None,
            };
            wanted == Err(refusal) && refusal.number() == number
        }
    })
}

/// Tries all of these, with a line at the end.
pub(crate) fn check(rt: &HostRuntime) -> io::Result<()> {
    let mut tally = Tally::default();
    for right in [tape_calls(), frame_calls(), trim_calls()] {
        tally.right(right);
    }
    for (option, amount, wanted) in ARGUMENTS {
        tally.right(understood(rt.alloc(), option, amount, wanted)?);
    }
    println!(rt; "boards and arguments: {tally}")
}
