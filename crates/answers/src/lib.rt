// Answer lines: `(n ok ..)` with the answer's numbers, or `(n no ..)` with the refusal's.
#![tactic(auto)]

ghost use Rattle.std.specs.Prelude.{◌≡◌, IfOk, Some, string_bytes};
ghost use Rattle.answers.specs.Answers.{verdict, numbers, outcome, numbers_text, answer_text, OneAnswer};

use std::alloc::{AllocError, Global};
use std::fmt;

pub mod text;

// Numbers, each after one space.
#[derive(Clone, Copy)]
struct Numbers<'a> {
    items: &'a [u64],
}

impl fmt::Display for Numbers<'_> {
    ghost output = { λ x. Some (numbers_text x) };

    fn fmt<W: fmt::Write>(&self, f: &mut fmt::Formatter<W>) -> fmt::Result {
        for n in self.items {
            write!(f, " {n}")?;
        }
        Ok(())
    }
}

// What a line is answered: the numbers that go with a call that was granted, or with its refusal.
#[derive(Clone, Copy)]
pub struct Answer<'a> {
    pub line: u64,
    pub outcome: Result<&'a [u64], &'a [u64]>,
}

impl<'a> Answer<'a> {
    // The word: ok where the call was granted, no where it was refused.
    fn word(&self) -> &'static str
        ensures { result.now ≡ verdict (outcome self.now) }
    {
        match self.outcome {
            Ok(_) => "ok",
            Err(_) => "no",
        }
    }

    // The numbers of the answer, or of the refusal.
    fn numbers(&self) -> &'a [u64]
        ensures { result.now ≡ numbers (outcome self.now) }
    {
        match self.outcome {
            Ok(items) | Err(items) => items,
        }
    }
}

impl fmt::Display for Answer<'_> {
    ghost output = { λ x. Some (answer_text x) };

    fn fmt<W: fmt::Write>(&self, f: &mut fmt::Formatter<W>) -> fmt::Result {
        let line = self.line;
        let word = self.word();
        let rest = Numbers {
            items: self.numbers(),
        };
        write!(f, "({line} {word}{rest})")
    }
}

// The answer's line, without a newline.
pub fn answer_line(heap: Global, answer: &Answer) -> Result<String, AllocError>
    ensures { IfOk result (λ s. string_bytes s ≡ answer_text answer.now) }
{
    format!(in heap; "{answer}")
}

// Two different answers never have the same line.
pub fn one_answer()
    ensures { OneAnswer }
{}
