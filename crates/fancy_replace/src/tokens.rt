//! The tokens of a template's text.

ghost use Rattle.std.specs.Prelude.{◌≡◌, drop, length, false};
ghost use Rattle.std.specs.Iterator.{YieldsFirstBy, at_most};
ghost use Rattle.std.specs.List.{before_first, list_any, take_while};
ghost use Rattle.fancy_replace.specs.Reading.{is_closing, is_dollar, is_word_byte};

/// A token of a template's text.
#[derive(Clone, Copy, Debug)]
pub(crate) enum Token<'t> {
    /// This text.
    Literal(&'t str),
    /// A reference by this number or name.
    Reference(&'t str),
}

/// The tokens of a template's text, from left to right. All of them take time linear in the length of the text.
#[derive(Drop)]
pub(crate) struct Tokens<'t> {
    /// What is still to be read.
    rest: &'t str,
    /// Whether a `}` may be in it. Once a search for one has failed none is made again.
    may_close: bool,
    ghost closing: { may_close ≡ false → list_any is_closing rest.now ≡ false },
}

impl<'t> Tokens<'t> {
    ghost use Rattle.std.specs.Prelude.{option_map};
    ghost use Rattle.fancy_replace.specs.Reading.{dollar_token};
    ghost use Rattle.fancy_replace.specs.Tokens.{PassesToken, TakesBraces, text_left, token_of};

    pub(crate) fn new(text: &'t str) -> Tokens<'t>
        ensures { text_left result ≡ text.now }
    {
        Tokens {
            rest: text,
            may_close: true,
        }
    }

    /// The token of a `$` that stands before what is left.
    fn dollar_token(&mut self) -> Token<'t>
        ensures { PassesToken (dollar_token (text_left self.old)) (text_left self.old)
            (token_of result) (text_left self.new) }
    {
        if let Some(rest) = self.rest.strip_prefix('$') {
            self.rest = rest;
            return Token::Literal("$");
        }
        if let Some(name) = self.name_in_braces() {
            return Token::Reference(name);
        }
        let (word, rest) = split_word(self.rest);
        if word.is_empty() {
            return Token::Literal("$");
        }
        self.rest = rest;
        Token::Reference(word)
    }

    /// What is in braces at the front, which are passed over; none, if no braces are there that are closed.
    fn name_in_braces(&mut self) -> Option<&'t str>
        ensures { TakesBraces (text_left self.old) (option_map (λ name. name.now) result)
            (text_left self.new) }
    {
        if !self.may_close {
            return None;
        }
        let inside = self.rest.strip_prefix('{')?;
        match inside.split_once('}') {
            Some((name, rest)) => {
                self.rest = rest;
                Some(name)
            }
            None => {
                self.may_close = false;
                None
            }
        }
    }
}

impl<'t> Iterator for Tokens<'t> {
    ghost use Rattle.fancy_replace.specs.Tokens.{token_of, tokens_left};

    type Item = Token<'t>;

    ghost next_gives = { YieldsFirstBy token_of tokens_left };

    ghost remaining = { λ s. at_most (length s.rest.now) };

    fn next(&mut self) -> Option<Token<'t>> {
        if self.rest.is_empty() {
            return None;
        }
        if let Some(rest) = self.rest.strip_prefix('$') {
            self.rest = rest;
            return Some(self.dollar_token());
        }
        let (literal, rest) = split_literal(self.rest);
        self.rest = rest;
        Some(Token::Literal(literal))
    }
}

/// What stands before the first `$`, and the rest from there on; or the whole text and nothing.
fn split_literal(text: &str) -> (&str, &str)
    ensures literal { result.0.now ≡ before_first is_dollar text.now }
    ensures rest { result.1.now ≡ drop (length (before_first is_dollar text.now)) text.now }
{
    text.split_at(text.find('$').unwrap_or(text.len()))
}

/// The longest word at the front, and what follows it.
fn split_word(text: &str) -> (&str, &str)
    ensures word { result.0.now ≡ take_while is_word_byte text.now }
    ensures rest { result.1.now ≡ drop (length (take_while is_word_byte text.now)) text.now }
{
    text.split_at(word_length(text))
}

/// How many bytes that word has.
fn word_length(text: &str) -> usize
    ensures { result ≡ length (take_while is_word_byte text.now) }
{
    text.bytes()
        .take_while(|byte| byte.is_ascii_alphanumeric() || *byte == b'_')
        .count()
}
