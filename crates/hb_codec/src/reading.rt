// Reads numbers and pieces from the front of bytes.
ghost use Rattle.std.specs.Prelude.{◌≡◌, ◌≤◌, ◌+◌, ◌/◌, ◌-◌, IfOk};
ghost use Rattle.hb_codec.specs.Readers.{Gives, number_in, exactly_in, digit, least_above};

use crate::fault::ReadFault;

// A digit with so many above it.
fn digit_of(turn: u8, above: usize, byte: u8) -> u64
    ensures { result ≡ digit turn above byte }
{
    if above == 0 {
        byte.wrapping_add(turn) as u64
    } else {
        byte as u64
    }
}

fn least_above_digit(low: u64, digit: u64) -> u64
    requires { digit ≤ 255 }
    ensures { result ≡ least_above low digit }
{
    if low <= digit {
        0
    } else {
        (low - digit - 1) / 256 + 1
    }
}

// A number from `low` to `high` in so many bytes, the lowest first; the highest is turned.
pub(crate) fn number_at(
    turn: u8,
    width: usize,
    low: u64,
    high: u64,
    bytes: &[u8],
) -> Result<(u64, &[u8]), ReadFault>
    ensures number { Gives (λ x. (x.0, x.1.now)) result (number_in turn width low high bytes.now) }
    ensures within { IfOk result (λ x. x.0 ≤ high) }
{
    if width == 0 {
        return Ok((0, bytes));
    }
    if bytes.len() < 1 {
        return Err(ReadFault::Left(0));
    }
    let digit = digit_of(turn, width - 1, bytes[0]);
    if digit > high {
        return Err(ReadFault::Left(bytes.len()));
    }
    let least = least_above_digit(low, digit);
    let most = (high - digit) / 256;
    if least > most {
        return Err(ReadFault::Left(bytes.len()));
    }
    let (_, rest) = bytes.split_at(1);
    let (n, rest) = number_at(turn, width - 1, least, most, rest)?;
    Ok((digit + 256 * n, rest))
}

// So many bytes.
pub(crate) fn exactly_at(len: usize, bytes: &[u8]) -> Result<(&[u8], &[u8]), ReadFault>
    ensures { Gives (λ x. (x.0.now, x.1.now)) result (exactly_in len bytes.now) }
{
    if bytes.len() < len {
        return Err(ReadFault::Left(0));
    }
    Ok(bytes.split_at(len))
}
