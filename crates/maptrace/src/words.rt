// A line's words and numbers.
ghost use Rattle.std.specs.Prelude.{◌≡◌, ◌==◌, position};
ghost use Rattle.std.specs.Option.{option_map};
ghost use Rattle.maptrace.specs.Words.{word, after_space, with_digit, number_of};

mod parse;

pub use parse::parse;

// How many bytes stand before the first space, if there is one.
fn first_space(s: &[u8]) -> Option<usize>
    ensures { result ≡ position (λ b. b == 32) s.now }
{
    s.iter().position(|b| *b == b' ')
}

// The first word, and what follows its space, if there is a space.
fn cut(s: &[u8]) -> (&[u8], Option<&[u8]>)
    ensures first { result.0.now ≡ word s.now }
    ensures rest { option_map (λ t. t.now) result.1 ≡ after_space s.now }
{
    match first_space(s) {
        Some(n) => (&s[..n], Some(&s[n + 1..])),
        None => (s, None),
    }
}

// A number with a decimal digit written after it.
fn with_digit(n: u32, b: u8) -> Option<u32>
    ensures { result ≡ with_digit n b }
{
    if !b.is_ascii_digit() {
        return None;
    }
    n.checked_mul(10)?.checked_add(u32::from(b - b'0'))
}

// The number that a word writes.
fn number(w: &[u8]) -> Option<u32>
    ensures { result ≡ number_of w.now }
{
    if w.is_empty() {
        return None;
    }
    w.iter().try_fold(0, |n, b| with_digit(n, *b))
}
