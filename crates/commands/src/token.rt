// The tokens of a line, which borrow the line.
ghost use Rattle.std.specs.Prelude.{◌≡◌, ◌≤◌, length, IfNone};
ghost use Rattle.std.specs.Option.{option_map};
ghost use Rattle.std.specs.Iterator.{at_most};
ghost use Rattle.commands.specs.Values.{values};
ghost use Rattle.commands.specs.Elements.{elements, list_in};
ghost use Rattle.commands.specs.Tokens.{part, run, cut, cut_opened, Taken};

pub mod reader;

use crate::list::ByteList;
use crate::{numeral, tail};

// A part of a line: a bracket, a space or an item.
#[derive(Clone, Copy)]
pub enum Token<'a> {
    Open,
    Close,
    Space,
    Word(&'a [u8]),
    Number(u32),
    List(ByteList<'a>),
}

// How many letters stand at the front of the text.
fn word_len(text: &[u8]) -> usize
    ensures value { result ≡ run text.now }
    ensures inside { result ≤ length text.now }
{
    text.iter().take_while(|b| b.is_ascii_lowercase()).count()
}

// The text from the closing bracket on of the list that begins the text, if that has a number.
fn list_end(text: &[u8]) -> Option<&[u8]>
    ensures { option_map (λ r. r.now) result ≡ elements (length text.now) text.now }
{
    let mut rest = text;
    // Each turn takes a byte at least, so there are no more turns than bytes.
    for _turn in 0..text.len() {
        let (_, after) = numeral(rest, 255)?;
        match after {
            [b')', ..] => return Some(after),
            [b' ', more @ ..] => rest = more,
            _ => return None,
        }
    }
    None
}

// The list whose opening bracket stands before the text, and what follows its closing bracket.
fn list_in(text: &[u8]) -> Option<(ByteList<'_>, &[u8])>
    ensures { option_map (λ p. (values p.0.text.now, p.1.now)) result ≡ list_in text.now }
{
    if let [b')', rest @ ..] = text {
        let list = ByteList { text: &text[..0] };
        return Some((list, rest));
    }
    let end = list_end(text)?;
    let list = ByteList {
        text: &text[..text.len() - end.len()],
    };
    Some((list, tail(end)))
}

// The bracket or the list at the front of a line whose first bracket stands before the text, and what follows it.
fn opened(text: &[u8]) -> Option<(Token<'_>, &[u8])>
    ensures { option_map (λ p. (part p.0, p.1.now)) result ≡ cut_opened text.now }
{
    if let [b'a'..=b'z', ..] = text {
        return Some((Token::Open, text));
    }
    let (list, rest) = list_in(text)?;
    Some((Token::List(list), rest))
}

// The token at the front of the line, and what follows it.
fn first_token(line: &[u8]) -> Option<(Token<'_>, &[u8])>
    ensures { option_map (λ p. (part p.0, p.1.now)) result ≡ cut line.now }
{
    match line {
        [b' ', rest @ ..] => Some((Token::Space, rest)),
        [b')', rest @ ..] => Some((Token::Close, rest)),
        [b'(', rest @ ..] => opened(rest),
        [b'0'..=b'9', ..] => {
            let (n, rest) = numeral(line, u32::MAX)?;
            Some((Token::Number(n), rest))
        }
        [b'a'..=b'z', ..] => {
            let (word, rest) = line.split_at(word_len(line));
            Some((Token::Word(word), rest))
        }
        _ => None,
    }
}

// A line from where it is not yet cut into tokens.
#[derive(Drop)]
pub struct Lexer<'a> {
    pub(crate) rest: &'a [u8],
}

impl<'a> Lexer<'a> {
    // The whole line.
    pub fn new(line: &'a [u8]) -> Lexer<'a>
        ensures { result.rest.now ≡ line.now }
    {
        Lexer { rest: line }
    }

    // The next token, cut off the line.
    fn advance(&mut self) -> Option<Token<'a>>
        ensures value { option_map (λ t. (part t, self.new.rest.now)) result ≡ cut self.old.rest.now }
        ensures stays { IfNone result (self.new.rest.now ≡ self.old.rest.now) }
    {
        let (found, rest) = first_token(self.rest)?;
        self.rest = rest;
        Some(found)
    }
}

impl<'a> Iterator for Lexer<'a> {
    type Item = Token<'a>;

    ghost next_gives = { λ s r t. Taken s.rest.now (option_map part r) t.rest.now };

    ghost remaining = { λ s. at_most (length s.rest.now) };

    // Cuts the next token off the line: the part that the line begins with, and none where it begins with none.
    fn next(&mut self) -> Option<Token<'a>> {
        self.advance()
    }
}
