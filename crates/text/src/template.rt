// Text with numbers in it.
ghost use Rattle.std.specs.Prelude.{◌≡◌, ◌<◌};
ghost use Rattle.text.specs.Printed.{Appended};
ghost use Rattle.text.specs.Template.{stands_for, marks_after, number_at, instance_of};

use crate::print::{append, append_decimal};

fn number_at(numbers: &[u64], k: usize) -> u64
    ensures { result ≡ number_at numbers.now k }
{
    numbers.get(k).copied().unwrap_or(0)
}

// Puts what a byte of a template stands for: the number for the mark `@`, and itself for any other.
fn put_byte(out: &mut [u8], at: usize, byte: u8, x: u64) -> usize
    ensures { Appended out.old at (stands_for byte x) result out.new }
{
    if byte == b'@' {
        return append_decimal(out, at, x);
    }
    append(out, at, &[byte])
}

fn marks_after(byte: u8, k: usize) -> usize
    requires { k < 18446744073709551615 }
    ensures { result ≡ marks_after byte k }
{
    if byte == b'@' {
        return k + 1;
    }
    k
}

// Puts a template with its numbers at a place, as far as there is room, and answers the place after it.
pub fn put(out: &mut [u8], at: usize, template: &[u8], numbers: &[u64]) -> usize
    ensures { Appended out.old at (instance_of template.now numbers.now) result out.new }
{
    let mut to = at;
    let mut k = 0;
    for byte in template {
        let x = number_at(numbers, k);
        to = put_byte(out, to, *byte, x);
        k = marks_after(*byte, k);
    }
    to
}
