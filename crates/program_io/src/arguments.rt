// The program's arguments, and the numbers that they are.
ghost use Rattle.std.specs.Prelude.{◌≡◌, ◌≤◌, ◌<◌, ◌^◌, IfOk, length};
ghost use Rattle.std.specs.List.{list_all};
ghost use Rattle.std.specs.Char.{is_ascii_digit};
ghost use Rattle.std.specs.Option.{SomeIff};
ghost use Rattle.std.specs.Str.Parse.{IsNumeral, digits_value};

use crate::words::failed;
use std::env::FillError;
use std::io::Error;
use std::rt::Env;
use std::{io, str};

// Whether s is digits alone.
fn all_digits(s: &[u8]) -> bool
    ensures { result ≡ list_all is_ascii_digit s.now }
{
    s.iter().all(u8::is_ascii_digit)
}

// A decimal number up to 4294967295, of digits alone.
#[tactic(auto, using(crate::proofs::DigitLaws::digits_utf8, crate::proofs::DigitLaws::others_no_numeral))]
pub fn decimal(text: &[u8]) -> Option<u32>
    ensures { SomeIff result (IsNumeral 10 text.now × (digits_value 10 text.now < 2 ^ 32)) (digits_value 10 text.now) }
{
    if !all_digits(text) {
        return None;
    }
    str::from_utf8(text).ok()?.parse().ok()
}

// A name type by its number or its files' prefix.
fn named(text: &[u8]) -> Option<u32> {
    match text {
        b"ash" => Some(0),
        b"gen" => Some(1),
        b"sep" => Some(2),
        _ => decimal(text),
    }
}

// The longest argument that is read: a path has at most as many bytes.
pub const LONGEST: usize = 4096;

// The system's numbers for an argument that there is not, and for one that is too long.
const EINVAL: i32 = 22;

const ENAMETOOLONG: i32 = 36;

// How many arguments there are, the program's own name among them.
pub fn argument_count(env: &impl Env) -> usize {
    let mut none = [0u8; 1];
    (0..usize::MAX)
        .find(|i| matches!(env.arg(*i, &mut none), Err(FillError::NotPresent)))
        .unwrap_or(usize::MAX)
}

// Puts argument i at the start of buf, and answers how many bytes it has.
fn argument(env: &impl Env, i: usize, buf: &mut [u8]) -> io::Result<usize>
    ensures { IfOk result (λ n. n ≤ length buf.new) }
{
    match env.arg(i, buf) {
        Ok(n) => Ok(n),
        Err(FillError::NotPresent) => Err(Error::from_raw_os_error(EINVAL)),
        Err(FillError::TooLong) => Err(Error::from_raw_os_error(ENAMETOOLONG)),
    }
}

// What argument i is read as.
fn read_at<F: FnOnce(&[u8]) -> Option<u32>>(env: &impl Env, i: usize, read: F) -> Option<u32>
    requires { F.IsAlwaysCallable read }
{
    let mut text = [0u8; LONGEST];
    let n = env.arg(i, &mut text).ok()?;
    read(&text[..n])
}

// The number that argument i is.
pub fn number_at(env: &impl Env, i: usize) -> Option<u32> {
    read_at(env, i, decimal)
}

// The name type that argument i is.
pub fn name_type_at(env: &impl Env, i: usize) -> Option<u32> {
    read_at(env, i, named)
}

// Does something with argument i, or says what it should be, and why it cannot be read.
// No `ensures`: what is done is the caller's, and what is said goes to standard error.
pub fn with_argument<F: FnOnce(&[u8])>(rt: &HostRuntime, i: usize, what: &[u8], act: F)
    requires { F.IsAlwaysCallable act }
{
    let mut text = [0u8; LONGEST];
    match argument(rt, i, &mut text) {
        Ok(n) => act(&text[..n]),
        Err(why) => failed(rt, what, why),
    }
}
