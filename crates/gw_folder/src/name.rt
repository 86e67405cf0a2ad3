//! The names of a log's files.
ghost use Rattle.std.specs.Prelude.{◌≡◌, ◌+◌, ◌*◌, ◌++◌, length, IfSome, OnOk};
ghost use Rattle.gw_folder.specs.Names.{digits, named};

use std::alloc::AllocError;

/// How many digits a name has.
const WIDTH: usize = 20;

/// What stands behind them.
const ENDING: &[u8] = b".segment";

/// What may stand behind them where somebody has renamed a log's files.
const OTHER_ENDING: &[u8] = b".log";

// Puts the last digits of a number, of this count.
fn put_digits(out: &mut Vec<u8>, width: usize, number: u64) -> Result<(), AllocError>
    ensures { OnOk result (out.new.items ≡ out.old.items ++ digits width number) }
{
    if width == 0 {
        return Ok(());
    }
    put_digits(out, width - 1, number / 10)?;
    out.push(48 + (number % 10) as u8)?;
    Ok(())
}

/// Puts the name of a file behind what the buffer has: its number in twenty digits, and `.segment`.
pub fn put_name(out: &mut Vec<u8>, number: u64) -> Result<(), AllocError>
    ensures { OnOk result (out.new.items ≡ out.old.items ++ named number) }
{
    put_digits(out, WIDTH, number)?;
    out.extend_from_slice(ENDING)?;
    Ok(())
}

// The number with one digit more.
fn joined(number: u64, digit: u8) -> Option<u64>
    ensures { IfSome result (λ n. n ≡ number * 10 + digit) }
{
    number.checked_mul(10)?.checked_add(u64::from(digit))
}

// The number that these digits are.
fn number_of(bytes: &[u8]) -> Option<u64>
    ensures { IfSome result (λ n. bytes.now ≡ digits (length bytes.now) n) }
{
    let Some((last, front)) = bytes.split_last() else {
        return Some(0);
    };
    let digit = last.checked_sub(48)?;
    if digit > 9 {
        return None;
    }
    joined(number_of(front)?, digit)
}

/// The number of the file that has this name. `None`: no file of a log has it.
pub fn number_in(name: &[u8]) -> Option<u64>
    ensures some { IfSome result (λ n. name.now ≡ named n) }
{
    if name.len() != WIDTH + ENDING.len() {
        return None;
    }
    let (front, ending) = name.split_at(WIDTH);
    if ending != ENDING {
        return None;
    }
    number_of(front)
}

// Whether a name has digits, and behind them this ending.
fn is_numbered(name: &[u8], ending: &[u8]) -> bool {
    match name.strip_suffix(ending) {
        Some(front) => !front.is_empty() && front.iter().all(|byte| byte.is_ascii_digit()),
        None => false,
    }
}

/// Whether a name is that of a log's file but for the count of its digits, a number that is too large, or `.log` as its ending.
pub fn is_nearly_named(name: &[u8]) -> bool {
    (is_numbered(name, ENDING) && number_in(name).is_none()) || is_numbered(name, OTHER_ENDING)
}
