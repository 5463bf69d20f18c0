// Reads the call that a line asks for.
ghost use Rattle.std.specs.Prelude.{◌≡◌, ℕ, List, Option, length};
ghost use Rattle.std.specs.Option.{option_map};
ghost use Rattle.commands.specs.Grammar.{Part};
ghost use Rattle.commands.specs.Tokens.{part};
ghost use Rattle.commands.specs.Calls.{asked, OneMeaning};
ghost use Rattle.commands.specs.Values.{values};
ghost use Rattle.commands.specs.Reading.{turned, at as part_at, item as item_at, the_mark, the_number, the_bytes, the_word, items_of, cut_items, reading, Found, Parsed, ReadsBack};

use crate::call::{Bad, Call, Fate, Verb};
use crate::list::ByteList;
use crate::token::{Lexer, Token};
use crate::words::Keyword;

// How much of a line is left where a part does not fit.
#[derive(Clone, Copy)]
struct Misfit {
    left: usize,
}

// A bracket of a call, or the space before an item.
#[derive(Clone, Copy, PartialEq, Eq, Debug)]
enum Mark {
    Open,
    Close,
    Space,
}

// A value that a part of a line is read as: in plain values, and of which parts.
trait Item<'a>: Drop {
    ghost Plain: { Type 0 };

    ghost plain: { Self → Plain };

    ghost meant: { Part → Option Plain };

    fn of_token(token: Token<'a>) -> Option<Self>
        ensures { option_map plain result ≡ meant (part token.entry) };
}

impl Item<'_> for u32 {
    ghost Plain = { ℕ };

    ghost plain = { λ n. n };

    ghost meant = { the_number };

    fn of_token(token: Token) -> Option<u32> {
        match token {
            Token::Number(n) => Some(n),
            _ => None,
        }
    }
}

impl<'a> Item<'a> for ByteList<'a> {
    ghost Plain = { List ℕ };

    ghost plain = { λ l. values l.text.now };

    ghost meant = { the_bytes };

    fn of_token(token: Token<'a>) -> Option<ByteList<'a>> {
        match token {
            Token::List(list) => Some(list),
            _ => None,
        }
    }
}

impl<K: Keyword> Item<'_> for K {
    ghost Plain = { K };

    ghost plain = { λ k. k };

    ghost meant = { the_word K.spell K.all };

    fn of_token(token: Token) -> Option<K> {
        match token {
            Token::Word(word) => K::of_word(word),
            _ => None,
        }
    }
}

impl<'a> Lexer<'a> {
    // How much of the line is left.
    fn misfit(&self) -> Misfit
        ensures { result.left ≡ length self.now.rest.now }
    {
        Misfit {
            left: self.rest.len(),
        }
    }

    // The mark that is wanted.
    fn mark(&mut self, wanted: Mark) -> Result<(), Misfit>
        ensures { turned (λ x. (x, self.new.rest.now)) result ≡ part_at (the_mark wanted) self.old.rest.now }
    {
        let misfit = self.misfit();
        match (self.advance(), wanted) {
            (Some(Token::Open), Mark::Open)
            | (Some(Token::Close), Mark::Close)
            | (Some(Token::Space), Mark::Space) => Ok(()),
            _ => Err(misfit),
        }
    }

    // The next part, if it is of the kind that is wanted.
    fn part<T: Item<'a>>(&mut self) -> Result<T, Misfit>
        ensures { turned (λ x. (T.plain x, self.new.rest.now)) result ≡ part_at T.meant self.old.rest.now }
    {
        let misfit = self.misfit();
        let token = self.advance().ok_or(misfit)?;
        T::of_token(token).ok_or(misfit)
    }

    // An item, after one space.
    fn item<T: Item<'a>>(&mut self) -> Result<T, Misfit>
        ensures { turned (λ x. (T.plain x, self.new.rest.now)) result ≡ item_at T.meant self.old.rest.now }
    {
        self.mark(Mark::Space)?;
        self.part()
    }
}

// The items of a cut.
fn cut_items<'a>(fate: Fate, line: &mut Lexer<'a>) -> Result<Call<'a>, Misfit>
    ensures { turned (λ c. (asked c, line.new.rest.now)) result ≡ cut_items fate line.old.rest.now }
{
    match fate {
        Fate::Kept => Ok(Call::CutKept {
            store: line.item()?,
            drive: line.item()?,
        }),
        Fate::Lost => Ok(Call::CutLost {
            store: line.item()?,
        }),
    }
}

// The items that follow a word.
fn items_of<'a>(verb: Verb, line: &mut Lexer<'a>) -> Result<Call<'a>, Misfit>
    ensures { turned (λ c. (asked c, line.new.rest.now)) result ≡ items_of verb line.old.rest.now }
{
    match verb {
        Verb::Make => Ok(Call::Make {
            blocks: line.item()?,
            slots: line.item()?,
            store: line.item()?,
            drive: line.item()?,
        }),
        Verb::Write => Ok(Call::Write {
            address: line.item()?,
            fill: line.item()?,
        }),
        Verb::Read => Ok(Call::Read {
            address: line.item()?,
            count: line.item()?,
        }),
        Verb::Flush => Ok(Call::Flush),
        Verb::Seal => Ok(Call::Seal),
        Verb::Poll => Ok(Call::Poll),
        Verb::Checkpoint => Ok(Call::Checkpoint),
        Verb::Clean => Ok(Call::Clean {
            object: line.item()?,
        }),
        Verb::Reap => Ok(Call::Reap),
        Verb::Cut => {
            let fate = line.item()?;
            cut_items(fate, line)
        }
        Verb::Mount => Ok(Call::Mount),
    }
}

// The call that the whole line asks for, or how much of the line is left where a part does not fit.
fn call_in(line: &[u8]) -> Result<Call<'_>, Misfit>
    ensures { turned asked result ≡ reading line.now }
{
    let mut lexer = Lexer::new(line);
    lexer.mark(Mark::Open)?;
    let verb = lexer.part()?;
    let call = items_of(verb, &mut lexer)?;
    lexer.mark(Mark::Close)?;
    if lexer.rest.is_empty() {
        Ok(call)
    } else {
        Err(lexer.misfit())
    }
}

// The call that is written as the line is, of whatever length.
fn found_in(line: &[u8]) -> Result<Call<'_>, Misfit>
    ensures { Found line.now result }
{
    call_in(line)
}

// The call that the line asks for; its newline is no part of it.
pub fn parse(line: &[u8]) -> Result<Call<'_>, Bad>
    ensures { Parsed line.now result }
{
    if line.len() > 255 {
        return Err(Bad { at: 255 });
    }
    found_in(line).map_err(|misfit| Bad {
        at: line.len().saturating_sub(misfit.left),
    })
}

// No line asks for two calls.
pub fn one_meaning()
    ensures { OneMeaning }
{}

// A call that is written in at most 255 bytes is read from them.
pub fn reads_back()
    ensures { ReadsBack }
{}
