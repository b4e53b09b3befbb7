// Numbers in decimal, digit by digit: a format costs several times as much.

ghost use Rattle.std.specs.Prelude.{◌≡◌, ◌<◌, ◌≤◌, ◌++◌, OnOk, string_bytes};
ghost use Rattle.std.specs.Fmt.{decimal};

use std::alloc::AllocError;

/// Writes the digit of a number below 10.
#[inline(always)]
#[tactic(auto, using(std::proofs::lemmas::Fmt::decimal_digit))]
fn write_digit(text: &mut String, number: u64) -> Result<(), AllocError>
    requires { number < 10 }
    ensures { OnOk result (string_bytes text.new ≡ string_bytes text.old ++ decimal number) }
{
    text.push(char::from(b'0' + number as u8))
}

/// Writes a number of two digits.
#[inline(always)]
fn write_two(text: &mut String, number: u64) -> Result<(), AllocError>
    requires some { 10 ≤ number }
    requires few { number < 100 }
    ensures { OnOk result (string_bytes text.new ≡ string_bytes text.old ++ decimal number) }
{
    write_digit(text, number / 10)?;
    write_digit(text, number % 10)
}

/// Writes a number of three digits.
#[inline(always)]
fn write_three(text: &mut String, number: u64) -> Result<(), AllocError>
    requires some { 100 ≤ number }
    requires few { number < 1000 }
    ensures { OnOk result (string_bytes text.new ≡ string_bytes text.old ++ decimal number) }
{
    write_two(text, number / 10)?;
    write_digit(text, number % 10)
}

/// Writes a number of any length.
#[inline(never)]
fn write_long(text: &mut String, number: u64) -> Result<(), AllocError>
    ensures { OnOk result (string_bytes text.new ≡ string_bytes text.old ++ decimal number) }
{
    if number < 10 {
        return write_digit(text, number);
    }
    if number < 100 {
        return write_two(text, number);
    }
    if number < 1000 {
        return write_three(text, number);
    }
    write_long(text, number / 10)?;
    write_digit(text, number % 10)
}

/// Writes a number in decimal. Of one digit, as most in a report are, it is written where this is called.
#[inline(always)]
pub fn write_number(text: &mut String, number: u64) -> Result<(), AllocError>
    ensures { OnOk result (string_bytes text.new ≡ string_bytes text.old ++ decimal number) }
{
    if number < 10 {
        return write_digit(text, number);
    }
    write_long(text, number)
}
