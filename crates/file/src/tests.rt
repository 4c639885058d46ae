// The tests that write and grow make of their own arguments, past refusals 1 to 3.
ghost use Rattle.std.specs.Prelude.{◌≡◌, ◌+◌, ◌≤◌, min};
ghost use Rattle.rules.specs.Sizes.{most_transfer};
ghost use Rattle.format.specs.Refusals.{number_in};
ghost use Rattle.file.specs.Tests.{write_number, grow_number};

use format::refusal::Refusal;
use store::enter::time_wrong;

// Where a file may end at most.
const MOST: u64 = 9223372036854775807;

// Bytes that one write takes at most.
const MOST_TRANSFER: usize = 1048576;

// How many of `len` bytes a write takes.
pub fn taken(len: usize) -> usize
    ensures { result ≡ min most_transfer len }
{
    len.min(MOST_TRANSFER)
}

// Refusal 5 or 7 of a write of `len` bytes.
pub fn write_refused(offset: u64, len: usize, seconds: u64, nanoseconds: u64) -> Result<(), Refusal>
    requires { len ≤ most_transfer }
    ensures { number_in result ≡ write_number (offset + len) (record { seconds = seconds; nanoseconds = nanoseconds }) }
{
    if MOST - (len as u64) < offset {
        return Err(Refusal::PastLimit);
    }
    if time_wrong(seconds, nanoseconds) {
        return Err(Refusal::BadTime);
    }
    Ok(())
}

// Refusal 5, 6 or 7 of a grow of a file of `old_size` to `size`. The time is not looked at where the size stays.
pub fn grow_refused(old_size: u64, size: u64, seconds: u64, nanoseconds: u64) -> Result<(), Refusal>
    ensures { number_in result ≡ grow_number old_size size (record { seconds = seconds; nanoseconds = nanoseconds }) }
{
    if MOST < size {
        return Err(Refusal::PastLimit);
    }
    if size < old_size {
        return Err(Refusal::BelowSize);
    }
    if size == old_size {
        return Ok(());
    }
    if time_wrong(seconds, nanoseconds) {
        return Err(Refusal::BadTime);
    }
    Ok(())
}
