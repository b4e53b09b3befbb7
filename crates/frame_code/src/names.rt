// Which register a name has, and which number a function.

ghost use Rattle.std.specs.Prelude.{◌≡◌, ◌+◌, ◌≤◌, ◌^◌, IfOk, OnOk, OnErr};
ghost use Rattle.frame_laws.specs.Compile.{place_in, place_or, number_of, is_name};
ghost use Rattle.script_check.specs.Trees.{script_of};
ghost use Rattle.frame_code.specs.Views.{name_of, names_of};

use script_check::CheckedFunction;
use std::alloc::{AllocError, Global};

/// What a register of a call holds.
#[derive(Clone, Copy)]
pub(crate) enum Register<'a> {
    /// The variable of that name.
    Variable(&'a str),
    /// A loop's bound, which has no name.
    Nameless,
}

/// Whether it is the variable of that name.
fn is_name(register: &Register<'_>, name: &str) -> bool
    ensures { result ≡ is_name (name_of register.now) name.now }
{
    match register {
        Register::Variable(variable) => *variable == name,
        Register::Nameless => false,
    }
}

/// The register of a variable.
pub(crate) fn place_in(names: &[Register<'_>], name: &str) -> Option<usize>
    ensures { result ≡ place_in (names_of names.now) name.now }
{
    let mut place = 0;
    while place < names.len() {
        if is_name(&names[place], name) {
            return Some(place);
        }
        place += 1;
    }
    None
}

/// The error of a growth that is refused, as no memory has room for so many bytes. It is answered where a register or a weight would be past
/// 2^32 - 1 or further results past 255, since code with as many of them is told as want of memory, and that is to come of a growth alone.
fn refused_growth(alloc: Global) -> AllocError {
    let mut bytes: Vec<u8> = Vec::new(alloc);
    match bytes.reserve(usize::MAX) {
        Ok(()) => unreachable!(),
        Err(error) => error,
    }
}

/// A register in an instruction. One past 2^32 - 1 has no number there.
pub(crate) fn slot(alloc: Global, place: usize) -> Result<u32, AllocError>
    ensures value { IfOk result (λ i. i ≡ place) }
    ensures refused { OnErr result (2 ^ 32 ≤ place) }
{
    if place > u32::MAX as usize {
        return Err(refused_growth(alloc));
    }
    Ok(place as u32)
}

/// How many results a remote call has beside the first, in an instruction. More than 255 have no number there.
pub(crate) fn further(alloc: Global, count: usize) -> Result<u8, AllocError>
    ensures value { IfOk result (λ n. n ≡ count) }
    ensures refused { OnErr result (2 ^ 8 ≤ count) }
{
    if count > u8::MAX as usize {
        return Err(refused_growth(alloc));
    }
    Ok(count as u8)
}

/// The register after it.
pub(crate) fn following(alloc: Global, register: u32) -> Result<u32, AllocError>
    ensures value { IfOk result (λ i. i ≡ register + 1) }
    ensures refused { OnErr result (2 ^ 32 ≤ register + 1) }
{
    match register.checked_add(1) {
        Some(next) => Ok(next),
        None => Err(refused_growth(alloc)),
    }
}

/// The register of a variable, or another where there is none.
pub(crate) fn place_or(
    alloc: Global,
    names: &[Register<'_>],
    name: &str,
    other: u32,
) -> Result<u32, AllocError>
    ensures { IfOk result (λ i. i ≡ place_or (place_in (names_of names.now) name.now) other) }
{
    match place_in(names, name) {
        Some(place) => slot(alloc, place),
        None => Ok(other),
    }
}

/// The number of a function that takes as many arguments; one past the last where there is none.
pub fn number_of(script: &[CheckedFunction], name: &str, count: usize) -> usize
    ensures { result ≡ number_of (script_of script.now) name.now count }
{
    let mut number = 0;
    while number < script.len() {
        if script[number].name.as_str() == name {
            if script[number].parameters.len() == count {
                return number;
            }
            return script.len();
        }
        number += 1;
    }
    number
}
