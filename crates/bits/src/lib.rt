// Numbers and floats as bytes, the least byte first. A NaN is written as one pattern, and no other NaN's is read.
#![tactic(auto)]

ghost use Rattle.std.specs.Prelude.{◌≡◌, ◌+◌, ◌≤◌, length};
ghost use Rattle.rules.specs.Words.{stretch};
ghost use Rattle.rules.specs.Bytes.{bytes_of, number_in, float_bytes, good_pattern, float_of};
ghost use Rattle.lemmas.specs.ByteNumbers.{pattern_of};
ghost use Rattle.lemmas.specs.Spliced.{spliced};
ghost use Rattle.bits.specs.Bits.{Stretches};

// ---- floats as patterns

// The pattern that a float is written as.
pub fn pattern_of(x: f64) -> u64
    ensures { result ≡ pattern_of x }
{
    if x.is_nan() {
        0x7ff8000000000000
    } else {
        x.to_bits()
    }
}

// Whether a pattern is read. It is a NaN's if what its sign leaves is above that of an infinity.
pub fn pattern_good(n: u64) -> bool
    ensures { result ≡ good_pattern n }
{
    n % 0x8000000000000000 <= 0x7ff0000000000000 || n == 0x7ff8000000000000
}

// The float of any pattern.
pub fn float_of(n: u64) -> f64
    ensures { result ≡ float_of n }
{
    if n % 0x8000000000000000 > 0x7ff0000000000000 {
        f64::NAN
    } else {
        f64::from_bits(n)
    }
}

// ---- bytes

// The number that the k bytes from place at on say.
pub fn number_at(bytes: &[u8], at: usize, k: usize) -> u64
    requires { Stretches at k bytes.now }
    ensures { result ≡ number_in (stretch at k bytes.now) }
{
    let mut word = [0; 8];
    word[..k].copy_from_slice(&bytes[at..at + k]);
    u64::from_le_bytes(word)
}

// The lowest bytes of n, as many as out is long, be it more than eight: a part of `to_le_bytes` would ask of callers that it is not.
fn put_bytes(out: &mut [u8], n: u64)
    ensures { out.new ≡ bytes_of (length out.old) n }
{
    let mut rest = n;
    for b in out.iter_mut() {
        *b = (rest % 256) as u8;
        rest /= 256;
    }
}

// The k lowest bytes of n from place at on.
pub fn put_number(out: &mut [u8], at: usize, k: usize, n: u64)
    requires { at + k ≤ length out.old }
    ensures { out.new ≡ spliced at (bytes_of k n) out.old }
{
    put_bytes(&mut out[at..at + k], n);
}

pub fn put_float(out: &mut [u8], at: usize, x: f64)
    requires { at + 8 ≤ length out.old }
    ensures { out.new ≡ spliced at (float_bytes x) out.old }
{
    put_number(out, at, 8, pattern_of(x));
}
