// Arithmetic modulo p on words. Any u32 is taken, and read modulo p; every result is below p.
ghost use Rattle.std.specs.Prelude.{◌≡◌};
ghost use Rattle.field.specs.Word.{word_of, number, Fp, half};

pub const P: u32 = 2013265921;

// The modulus at the width of a product, and (p + 1) / 2.
pub const P64: u64 = 2013265921;

pub const HALF: u32 = 1006632961;

pub fn add(a: u32, b: u32) -> u32
    ensures { result ≡ number (Fp.add (word_of a) (word_of b)) }
{
    ((a as u64 + b as u64) % P64) as u32
}

pub fn sub(a: u32, b: u32) -> u32
    ensures { result ≡ number (Fp.add (word_of a) (Fp.neg (word_of b))) }
{
    ((a as u64 + (P64 - b as u64 % P64)) % P64) as u32
}

pub fn neg(a: u32) -> u32
    ensures { result ≡ number (Fp.neg (word_of a)) }
{
    (P - a % P) % P
}

pub fn mul(a: u32, b: u32) -> u32
    ensures { result ≡ number (Fp.mul (word_of a) (word_of b)) }
{
    ((a as u64 * b as u64) % P64) as u32
}

// x = 2q + b: half of x is q, and (p + 1) / 2 more where b is 1.
pub fn halve(a: u32) -> u32
    ensures { result ≡ number (Fp.mul half (word_of a)) }
{
    let x = a % P;
    x / 2 + (x % 2) * HALF
}
