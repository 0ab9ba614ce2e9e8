// Bytes and numbers, put into a buffer that has room for them. Each function puts its bytes at an offset and answers the offset after them. The buffer is
// lent by C, and contracts say each byte of it, so no number is formatted by the library.
#![tactic(auto)]

ghost use Rattle.std.specs.Prelude.{◌≡◌, ◌+◌, ◌≤◌, ◌<◌, nat_abs, length};
ghost use Rattle.format.specs.Forms.{decimal, signed};
ghost use Rattle.printing.specs.internal.Putting.{Puts, max_printed};

// Puts bytes. At many calls the compiler knows how many, and stores them without a loop.
pub fn put(buffer: &mut [u8], at: usize, bytes: &[u8]) -> usize
    requires { at + length bytes.now ≤ length buffer.old }
    ensures { Puts buffer.old at bytes.now result buffer.new }
{
    let end = at + bytes.len();
    buffer[at..end].copy_from_slice(bytes);
    end
}

// How many digits a number has, without a branch.
pub fn width(number: usize) -> usize
    requires { number ≤ max_printed }
    ensures { (result ≡ length (decimal number)) × (result ≤ 7) }
{
    let few = 1 + (9 < number) as usize + (99 < number) as usize + (999 < number) as usize;
    few + (9999 < number) as usize + (99999 < number) as usize + (999999 < number) as usize
}

// A number without its sign.
fn magnitude(number: i32) -> usize
    ensures { result ≡ nat_abs number }
{
    number.unsigned_abs() as usize
}

// How many bytes a signed number has: a minus is one more.
pub fn signed_width(number: i32) -> usize
    requires { nat_abs number ≤ max_printed }
    ensures { (result ≡ length (signed number)) × (result ≤ 8) }
{
    (number < 0) as usize + width(magnitude(number))
}

// Puts a number of as many digits as the constant says, from the last one on. As the compiler knows how many, it stores them without a loop.
fn put_digits<const DIGITS: usize>(buffer: &mut [u8], at: usize, number: usize) -> usize
    requires { (length (decimal number) ≡ DIGITS) × (at + DIGITS ≤ length buffer.old) }
    ensures { Puts buffer.old at (decimal number) result buffer.new }
{
    let mut rest = number;
    for place in (1..DIGITS).rev() {
        buffer[at + place] = 48 + (rest % 10) as u8;
        rest /= 10;
    }
    buffer[at] = 48 + rest as u8;
    at + DIGITS
}

// Puts a number of any length, from the last digit on.
fn put_long(buffer: &mut [u8], at: usize, number: usize) -> usize
    requires { (number ≤ max_printed) × (at + length (decimal number) ≤ length buffer.old) }
    ensures { Puts buffer.old at (decimal number) result buffer.new }
{
    let end = at + width(number);
    let mut place = end - 1;
    let mut rest = number;
    while 10 <= rest {
        buffer[place] = 48 + (rest % 10) as u8;
        place -= 1;
        rest /= 10;
    }
    buffer[place] = 48 + rest as u8;
    end
}

// Puts a number in base ten. Most have few digits: those are put without a loop.
pub fn put_decimal(buffer: &mut [u8], at: usize, number: usize) -> usize
    requires { (number ≤ max_printed) × (at + length (decimal number) ≤ length buffer.old) }
    ensures { Puts buffer.old at (decimal number) result buffer.new }
{
    if number < 10 {
        buffer[at] = 48 + number as u8;
        return at + 1;
    }
    if number < 100 {
        return put_digits::<2>(buffer, at, number);
    }
    if number < 1000 {
        return put_digits::<3>(buffer, at, number);
    }
    if number < 10000 {
        return put_digits::<4>(buffer, at, number);
    }
    put_long(buffer, at, number)
}

// Puts a signed number: its magnitude, behind a minus if it is below zero. A minus that is not wanted is put and then lies under the first
// digit, so that no branch depends on the sign.
pub fn put_signed(buffer: &mut [u8], at: usize, number: i32) -> usize
    requires { (nat_abs number ≤ max_printed) × (at + length (signed number) ≤ length buffer.old) }
    ensures { Puts buffer.old at (signed number) result buffer.new }
{
    buffer[at] = b'-';
    put_decimal(buffer, at + (number < 0) as usize, magnitude(number))
}
