// Command lines: the tokens of a line, and the call that a line asks for.
#![tactic(auto)]

ghost use Rattle.std.specs.Prelude.{◌≡◌, drop};
ghost use Rattle.std.specs.Option.{option_map};
ghost use Rattle.commands.specs.Numbers.{number_in};

pub mod call;
pub mod list;
pub mod print;
pub mod token;
pub(crate) mod words;

// The number at the front of the text, if it is at most `most`, and what follows it.
fn numeral(text: &[u8], most: u32) -> Option<(u32, &[u8])>
    ensures { option_map (λ p. (p.0, p.1.now)) result ≡ number_in most text.now }
{
    let (first, mut rest) = text.split_first()?;
    if !first.is_ascii_digit() {
        return None;
    }
    let mut n = u64::from(*first - b'0');
    while let [digit @ b'0'..=b'9', more @ ..] = rest {
        if n == 0 {
            return None;
        }
        n = 10 * n + u64::from(*digit - b'0');
        if n > u64::from(most) {
            return None;
        }
        rest = more;
    }
    Some((n as u32, rest))
}

// What follows the first byte of the text, if it has one.
fn tail(text: &[u8]) -> &[u8]
    ensures { result.now ≡ drop 1 text.now }
{
    match text {
        [_, others @ ..] => others,
        [] => text,
    }
}
