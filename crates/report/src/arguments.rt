//! What a caller asks of a program by its arguments: a trim, or none.

ghost use Rattle.std.specs.Prelude.{◌≡◌, ℕ, List, map, IfOk, string_bytes};
ghost use Rattle.std.specs.Char.{is_ascii_digit};
ghost use Rattle.std.specs.List.{list_all};
ghost use Rattle.report.specs.Asked.{digits_of, amount_read, asked};

use crate::refusal::*;
use board::amount::*;
use reading::*;
use std::rt::Env;
use std::{env, io};

/// The amount that this text says: digits, with a minus sign in front or not, and nothing else,
/// so neither a plus sign nor a blank; zeros may stand first. Of a number that is no amount the
/// size does not matter.
pub fn trim_amount(text: &str) -> Result<TrimAmount, Refusal>
    ensures answer { result ≡ amount_read text.now }
{
    let digits = unsigned(text.as_bytes());
    if digits.is_empty() || !are_digits(digits) {
        return Err(Refusal::NoWholeNumber);
    }
    let Ok(milliamps) = text.parse::<i16>() else {
        return Err(Refusal::AmountOutOfRange);
    };
    Ok(TrimAmount::try_from(Milliamps(milliamps))?)
}

/// A text without the minus sign that may stand in front.
fn unsigned(text: &[u8]) -> &[u8]
    ensures answer { result.now ≡ digits_of text.now }
{
    match text {
        [b'-', digits @ ..] => digits,
        digits => digits,
    }
}

/// Whether these are digits and nothing else.
fn are_digits(bytes: &[u8]) -> bool
    ensures answer { result ≡ list_all is_ascii_digit bytes.now }
{
    bytes.iter().all(|byte| byte.is_ascii_digit())
}

/// The trim that the arguments after the program's name ask for: none without arguments, that of
/// `--trim N` with these two, and a refusal of anything else.
pub fn requested_trim(arguments: &[String]) -> Result<Option<TrimAmount>, Refusal>
    ensures answer { result ≡ asked (map string_bytes arguments.now) }
{
    match arguments {
        [] => Ok(None),
        [option, amount] if option.as_str() == "--trim" => Ok(Some(trim_amount(amount.as_str())?)),
        _ => Err(Refusal::UnknownArgument),
    }
}

/// The trim that the command line of this run asks for. Arguments that are no text are not understood either. The contract
/// says that the answer is what some arguments ask for; which arguments there were is out of its reach.
pub fn command_line_trim(
    rt: &(impl Env + AllocGlobal),
) -> io::Result<Result<Option<TrimAmount>, Refusal>>
    ensures answer { IfOk result (λ r. (words : List (List ℕ)) × (r ≡ asked words)) }
{
    match env::args(rt) {
        Ok(all) => {
            let arguments: Vec<String> = all.skip(1).collect(rt.alloc())?;
            Ok(requested_trim(arguments.as_slice()))
        }
        Err(error) if error.kind() == io::ErrorKind::InvalidData => {
            Ok(Err(Refusal::UnknownArgument))
        }
        Err(error) => Err(error),
    }
}
