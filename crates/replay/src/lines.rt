// The list as text: its lines, and the numbers of a line.
ghost use Rattle.std.specs.Prelude.{◌≤◌, length, IfSome};

// The first place from `at` on that has the byte, or the length.
pub fn find(text: &[u8], at: usize, byte: u8) -> usize
    requires { at ≤ length text.now }
    ensures { (at ≤ result) × (result ≤ length text.now) }
{
    match text[at..].iter().position(|b| *b == byte) {
        Some(n) => at + n,
        None => text.len(),
    }
}

// The number that a word says, if it is one that 64 bits hold.
fn value_of(word: &[u8]) -> Option<usize> {
    if word.is_empty() {
        return None;
    }
    let mut value: usize = 0;
    for byte in word {
        let digit = byte.checked_sub(b'0')?;
        if 9 < digit {
            return None;
        }
        value = value.checked_mul(10)?.checked_add(digit as usize)?;
    }
    Some(value)
}

// Puts a line's numbers down and tells how many there are, unless the line is malformed or too long.
pub fn numbers(line: &[u8], into: &mut [usize]) -> Option<usize>
    ensures { IfSome result (λ n. n ≤ length into.new) }
{
    let mut at: usize = 0;
    let mut n: usize = 0;
    while at < line.len() {
        let end = find(line, at, b' ');
        *into.get_mut(n)? = value_of(&line[at..end])?;
        n += 1;
        at = end + 1;
    }
    Some(n)
}
