//! The lexer: from a text to its tokens, with the byte of each.

ghost use Rattle.std.specs.Prelude.{◌≡◌, [], MatchResult};
ghost use Rattle.fancy_expr.specs.declared.error.Error.TheVariants.{Memory};
ghost use Rattle.fancy_notation.specs.Lexing.{placed, step, step_outside, step_inside, step_escaped, step_coded, step_digits, step_code, ended, word_ended, with_token, quote, with_letter, text_ended, turned, pushed, spoiled, with_char, tokens_of, at_start};
ghost use Rattle.fancy_notation.specs.NotationViews.{token_of, lexing_of, all_placed};
ghost use Rattle.fancy_notation.specs.Reading.{Lexes};

use crate::tokens::{Placed, Token};
use fancy_expr::error::Error;
use std::alloc::Global;
use std::mem;

/// What the next character belongs to.
#[derive(Clone, Copy)]
pub enum Mode {
    /// A word, or what stands between tokens.
    Outside,
    /// A text between quotes.
    Inside,
    /// It follows a backslash.
    Escaped,
    /// It follows `\u`.
    Coded,
    /// It follows `\u{` and so many digits, which write this code.
    Digits { count: usize, code: u32 },
    /// A text between quotes that was malformed: nothing after it is read.
    Spoiled,
}

/// What is known when a text has been read up to some byte.
#[derive(Drop)]
pub struct Lexer {
    pub mode: Mode,
    /// Whether an `i` stands before the text between quotes.
    pub folded: bool,
    /// Where the token begins that is being read.
    pub start: usize,
    /// What has been read of it.
    pub text: String,
    pub tokens: Vec<Placed>,
}

impl Lexer {
    fn new(alloc: Global) -> Lexer
        ensures state { lexing_of result ≡ at_start }
        ensures tokens { result.tokens.items ≡ [] }
    {
        Lexer {
            mode: Mode::Outside,
            folded: false,
            start: 0,
            text: String::new(alloc),
            tokens: Vec::new(alloc),
        }
    }

    fn take(&mut self, alloc: Global, at: usize, c: char) -> Result<(), Error>
        ensures { Lexes (step (lexing_of self.old) at c) self.old self.new result }
    {
        match self.mode {
            Mode::Outside => self.take_outside(alloc, at, c),
            Mode::Inside => self.take_inside(alloc, c),
            Mode::Escaped => self.take_escaped(c),
            Mode::Coded => self.take_coded(c),
            Mode::Digits { count, code } => self.take_digit(c, count, code),
            Mode::Spoiled => Ok(()),
        }
    }

    fn take_outside(&mut self, alloc: Global, at: usize, c: char) -> Result<(), Error>
        ensures { Lexes (step_outside (lexing_of self.old) at c) self.old self.new result }
    {
        match c {
            ' ' => self.end_word(alloc),
            '(' => self.take_parenthesis(alloc, at, Token::Opened),
            ')' => self.take_parenthesis(alloc, at, Token::Closed),
            '"' => self.take_quote(alloc, at),
            _ => self.take_letter(at, c),
        }
    }

    /// Ends the word that is being read, if there is one.
    fn end_word(&mut self, alloc: Global) -> Result<(), Error>
        ensures { Lexes (word_ended (lexing_of self.old)) self.old self.new result }
    {
        if self.text.is_empty() {
            return Ok(());
        }
        let word = mem::replace(&mut self.text, String::new(alloc));
        self.push(self.start, Token::Word(word))
    }

    fn take_parenthesis(&mut self, alloc: Global, at: usize, token: Token) -> Result<(), Error>
        ensures { Lexes (with_token (word_ended (lexing_of self.old))
            (placed at (token_of token))) self.old self.new result }
    {
        self.end_word(alloc)?;
        self.push(at, token)
    }

    fn take_quote(&mut self, alloc: Global, at: usize) -> Result<(), Error>
        ensures { Lexes (quote (lexing_of self.old) at) self.old self.new result }
    {
        if self.text.as_str() == "i" {
            self.folded = true;
            self.text = String::new(alloc);
        } else {
            self.end_word(alloc)?;
            self.folded = false;
            self.start = at;
        }
        self.mode = Mode::Inside;
        Ok(())
    }

    fn take_letter(&mut self, at: usize, c: char) -> Result<(), Error>
        ensures { Lexes (with_letter (lexing_of self.old) at c) self.old self.new result }
    {
        if self.text.is_empty() {
            self.start = at;
        }
        self.text.push(c)?;
        Ok(())
    }

    fn take_inside(&mut self, alloc: Global, c: char) -> Result<(), Error>
        ensures { Lexes (step_inside (lexing_of self.old) c) self.old self.new result }
    {
        match c {
            '"' => self.end_text(alloc),
            '\\' => self.turn(Mode::Escaped),
            _ => self.take_char(c),
        }
    }

    fn end_text(&mut self, alloc: Global) -> Result<(), Error>
        ensures { Lexes (text_ended (lexing_of self.old)) self.old self.new result }
    {
        let text = mem::replace(&mut self.text, String::new(alloc));
        self.mode = Mode::Outside;
        self.push(
            self.start,
            Token::Quoted {
                folded: self.folded,
                text,
            },
        )
    }

    fn take_char(&mut self, c: char) -> Result<(), Error>
        ensures { Lexes (with_char (lexing_of self.old) c) self.old self.new result }
    {
        self.mode = Mode::Inside;
        self.text.push(c)?;
        Ok(())
    }

    fn take_escaped(&mut self, c: char) -> Result<(), Error>
        ensures { Lexes (step_escaped (lexing_of self.old) c) self.old self.new result }
    {
        match c {
            '"' => self.take_char('"'),
            '\\' => self.take_char('\\'),
            'n' => self.take_char('\n'),
            'r' => self.take_char('\r'),
            'u' => self.turn(Mode::Coded),
            _ => self.spoil(),
        }
    }

    fn take_coded(&mut self, c: char) -> Result<(), Error>
        ensures { Lexes (step_coded (lexing_of self.old) c) self.old self.new result }
    {
        if c == '{' {
            self.turn(Mode::Digits { count: 0, code: 0 })
        } else {
            self.spoil()
        }
    }

    fn take_digit(&mut self, c: char, count: usize, code: u32) -> Result<(), Error>
        ensures { Lexes (step_digits (lexing_of self.old) c count code) self.old self.new result }
    {
        if c == '}' {
            return self.take_code(count, code);
        }
        if count >= 6 {
            return self.spoil();
        }
        // so the number stays below the end of all characters
        if code >= 0x1_1000 {
            return self.spoil();
        }
        match c.to_digit(16) {
            Some(digit) => self.turn(Mode::Digits {
                count: count + 1,
                code: code * 16 + digit,
            }),
            None => self.spoil(),
        }
    }

    fn take_code(&mut self, count: usize, code: u32) -> Result<(), Error>
        ensures { Lexes (step_code (lexing_of self.old) count code) self.old self.new result }
    {
        match char::from_u32(code) {
            Some(c) if count > 0 => self.take_char(c),
            _ => self.spoil(),
        }
    }

    fn turn(&mut self, mode: Mode) -> Result<(), Error>
        ensures { Lexes (turned (lexing_of self.old) mode) self.old self.new result }
    {
        self.mode = mode;
        Ok(())
    }

    /// The text between quotes that is being read is malformed.
    fn spoil(&mut self) -> Result<(), Error>
        ensures { Lexes (spoiled (lexing_of self.old)) self.old self.new result }
    {
        self.mode = Mode::Spoiled;
        self.push(self.start, Token::Broken)
    }

    fn push(&mut self, at: usize, token: Token) -> Result<(), Error>
        ensures { Lexes (pushed (lexing_of self.old)
            (placed at (token_of token))) self.old self.new result }
    {
        self.tokens.push(Placed { at, token })?;
        Ok(())
    }

    /// The text has ended.
    fn end(&mut self, alloc: Global) -> Result<(), Error>
        ensures { Lexes (ended (lexing_of self.old)) self.old self.new result }
    {
        match self.mode {
            Mode::Outside => self.end_word(alloc),
            Mode::Spoiled => Ok(()),
            _ => self.spoil(),
        }
    }
}

/// The tokens of a text in the notation, each with the byte at which it begins; a malformed quoted text is the last one.
/// Out of memory is `Error::Memory`.
pub fn tokens(alloc: Global, text: &str) -> Result<Vec<Placed>, Error>
    ensures { MatchResult result (λ found. all_placed found.items ≡ tokens_of text.now)
        (λ e. e ≡ Memory) }
{
    let mut lexer = Lexer::new(alloc);
    let mut at = 0;
    for c in text.chars() {
        lexer.take(alloc, at, c)?;
        at += c.len_utf8();
    }
    lexer.end(alloc)?;
    Ok(lexer.tokens)
}
