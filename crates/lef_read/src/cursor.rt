ghost use Rattle.std.specs.Prelude.{◌≡◌, ◌≢◌, ◌≤◌, ◌<◌, ◌+◌, [], true, pos, neg_ℤ, ◌≤ℤ◌, Some, Ok, Err, length};
ghost use Rattle.std.specs.Prelude.{IfOk, IfErr, IfSome, IfNone, OnOk};
ghost use Rattle.lef_read.specs.Tokens.{AText, quoted, scan, tokens_from};
ghost use Rattle.lef_read.specs.Statements.{Steps, Takes, begins_token, keyword_in};
ghost use Rattle.lef_read.specs.Statements.{named_in, number_in, semicolon_in, word_in};

use crate::fault::LefFault;
use crate::keyword::is;
use crate::number::nanometres;
use crate::scan::{line_at, skip, until_quote, word_length};
use crate::token::{Token, Word};
use std::marker::Model;

/// A LEF text from some place on. Contracts see it as the tokens to come.
#[derive(Debug, Drop)]
pub struct Cursor<'a> {
    rest: &'a [u8],
    line: u32,
}

impl<'a> Model for Cursor<'a> {
    ghost use Rattle.std.specs.Prelude.{List, ◌+◌, ◌≤◌, length};
    ghost use Rattle.lef_read.specs.Tokens.{Token as TokenOf, tokens_from};

    ghost Value = { List TokenOf };

    ghost view = { λ c. tokens_from c.line c.rest.now };

    ghost invariant = { λ c. c.line + length c.rest.now ≤ 2000000000 };
}

// A token, what follows it, and the line there.
#[derive(Clone, Copy, Debug)]
struct Lexed<'a> {
    token: Token<'a>,
    rest: &'a [u8],
    line: u32,
}

// A text after its first quote, which is on the line.
#[tactic(auto, using(crate::proofs::Lexing::text_torn, crate::proofs::Lexing::text_quoted))]
fn text(bytes: &[u8], line: u32) -> Lexed<'_>
    requires { line + length bytes.now ≤ 2000000000 }
    ensures token { Takes (Some result.token) (quoted line (scan AText line bytes.now))
        (tokens_from result.line result.rest.now) }
    ensures few { result.line + length result.rest.now ≤ line + length bytes.now }
{
    let end = until_quote(bytes);
    if end == bytes.len() {
        return Lexed {
            token: Token::Torn,
            rest: &[],
            line,
        };
    }
    Lexed {
        token: Token::Quoted { line },
        rest: &bytes[end + 1..],
        line: line_at(line, &bytes[..end]),
    }
}

// The token that begins a text.
#[tactic(auto, using(crate::proofs::Lexing::token_rules))]
fn first_token(bytes: &[u8], line: u32) -> Option<Lexed<'_>>
    requires begins { begins_token bytes.now ≡ true }
    requires few { line + length bytes.now ≤ 2000000000 }
    ensures none { IfNone result (bytes.now ≡ []) }
    ensures some { IfSome result (λ l.
        Takes (Some l.token) (tokens_from line bytes.now) (tokens_from l.line l.rest.now)) }
    ensures few { IfSome result (λ l. l.line + length l.rest.now ≤ line + length bytes.now) }
{
    if bytes.is_empty() {
        return None;
    }
    let first = bytes[0];
    if first == b';' {
        return Some(Lexed {
            token: Token::Semicolon { line },
            rest: &bytes[1..],
            line,
        });
    }
    if first == b'"' {
        return Some(text(&bytes[1..], line));
    }
    let end = word_length(bytes);
    Some(Lexed {
        token: Token::Word {
            line,
            text: &bytes[..end],
        },
        rest: &bytes[end..],
        line,
    })
}

impl<'a> Cursor<'a> {
    /// A whole text, from its first byte on line 1.
    pub fn new(bytes: &'a [u8]) -> Cursor<'a>
        requires { length bytes.now ≤ 1073741824 }
        ensures { result ≡ tokens_from 1 bytes.now }
    {
        Cursor {
            rest: bytes,
            line: 1,
        }
    }

    /// Takes the next token.
    #[tactic(auto, using(crate::proofs::Lexing::no_token, crate::proofs::Lexing::fewer))]
    pub fn next(&mut self) -> Option<Token<'a>>
        ensures taken { Takes result self.old self.new }
        ensures less { IfSome result (λ _. length self.new < length self.old) }
        ensures few { length self.new ≤ length self.old }
    {
        let (rest, line) = skip(self.rest, self.line);
        match first_token(rest, line) {
            None => {
                self.rest = rest;
                self.line = line;
                None
            }
            Some(found) => {
                self.rest = found.rest;
                self.line = found.line;
                Some(found.token)
            }
        }
    }

    /// Takes a word.
    pub fn word(&mut self) -> Result<Word<'a>, LefFault>
        ensures less { OnOk result (length self.new < length self.old) }
        ensures ok { IfOk result (λ w.
            word_in self.old ≡ Ok (record { line = w.line; text = w.text.now }, self.new)) }
        ensures err { IfErr result (λ f. word_in self.old ≡ Err f) }
    {
        match self.next() {
            Some(Token::Word { line, text }) => Ok(Word { line, text }),
            Some(Token::Quoted { line } | Token::Semicolon { line }) => {
                Err(LefFault::Statement { line })
            }
            Some(Token::Torn) | None => Err(LefFault::Cut),
        }
    }

    /// Takes a word, if any token is left.
    pub fn word_or_end(&mut self) -> Result<Option<Word<'a>>, LefFault>
        ensures word { IfOk result (λ o. IfSome o (λ w.
            word_in self.old ≡ Ok (record { line = w.line; text = w.text.now }, self.new))) }
        ensures less { IfOk result (λ o. IfSome o (λ _. length self.new < length self.old)) }
        ensures few { OnOk result (length self.new ≤ length self.old) }
        ensures end { IfOk result (λ o. IfNone o (self.old ≡ [])) }
        ensures err { IfErr result (λ f. word_in self.old ≡ Err f) }
        ensures more { IfErr result (λ f. self.old ≢ []) }
    {
        match self.next() {
            Some(Token::Word { line, text }) => Ok(Some(Word { line, text })),
            Some(Token::Quoted { line } | Token::Semicolon { line }) => {
                Err(LefFault::Statement { line })
            }
            Some(Token::Torn) => Err(LefFault::Cut),
            None => Ok(None),
        }
    }

    /// Takes a number of microns, in nanometres.
    pub fn number(&mut self) -> Result<i32, LefFault>
        ensures steps { Steps result (number_in self.old) self.new }
        ensures less { OnOk result (length self.new ≤ length self.old) }
        ensures least { IfOk result (λ z. neg_ℤ (pos 1000000000) ≤ℤ z) }
        ensures most { IfOk result (λ z. z ≤ℤ pos 1000000000) }
    {
        match self.next() {
            Some(Token::Word { line, text }) => match nanometres(text) {
                Some(number) => Ok(number),
                None => Err(LefFault::Number { line }),
            },
            Some(Token::Quoted { line }) => Err(LefFault::Number { line }),
            Some(Token::Semicolon { line }) => Err(LefFault::Statement { line }),
            Some(Token::Torn) | None => Err(LefFault::Cut),
        }
    }

    /// Takes a `;`.
    pub fn semicolon(&mut self) -> Result<(), LefFault>
        ensures steps { Steps result (semicolon_in self.old) self.new }
        ensures less { OnOk result (length self.new ≤ length self.old) }
    {
        match self.next() {
            Some(Token::Semicolon { .. }) => Ok(()),
            Some(Token::Word { line, .. } | Token::Quoted { line }) => {
                Err(LefFault::Statement { line })
            }
            Some(Token::Torn) | None => Err(LefFault::Cut),
        }
    }

    /// Takes a word that has to be exactly the name.
    pub fn named(&mut self, name: &[u8]) -> Result<(), LefFault>
        ensures steps { Steps result (named_in name.now self.old) self.new }
        ensures less { OnOk result (length self.new ≤ length self.old) }
    {
        let word = self.word()?;
        if word.text != name {
            return Err(LefFault::Statement { line: word.line });
        }
        Ok(())
    }

    /// Takes a word that has to be the keyword, in either case.
    pub fn keyword(&mut self, keyword: &[u8]) -> Result<(), LefFault>
        ensures steps { Steps result (keyword_in keyword.now self.old) self.new }
        ensures less { OnOk result (length self.new ≤ length self.old) }
    {
        let word = self.word()?;
        if !is(word.text, keyword) {
            return Err(LefFault::Statement { line: word.line });
        }
        Ok(())
    }
}
