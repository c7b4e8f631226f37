//! The reader by recursive descent: from tokens to an `Expr`, one form after its head word.

ghost use Rattle.std.specs.Prelude.{◌≡◌, ◌<◌, ◌&&◌, ◌++◌, [], ◌∷◌, true, length, map, MatchResult, Some, None, if◌then◌else◌};
ghost use Rattle.std.specs.Option.{option_map};
ghost use Rattle.fancy_meaning.specs.Tree as plain;
ghost use Rattle.fancy_meaning.specs.Tree.{trees};
ghost use Rattle.fancy_expr.specs.Each.{Each};
ghost use Rattle.fancy_expr.specs.Views.{tree_of, verb_of as verb_view, bound_of};
ghost use Rattle.fancy_notation.specs.Words.{leaf_of, verb_of, number_of, level_of, count_of, bound_at_least, byte_of};
ghost use Rattle.fancy_notation.specs.Tokens as tokens;
ghost use Rattle.fancy_notation.specs.Grammar.{in_word, opening, closing, class, is_at_text, counted, head_word, Spells, SpellsForm, literals, parts_of_text, joined, enclosed, named, named_at};
ghost use Rattle.fancy_notation.specs.Misfit.{wants, Node, Shut, Parts, Count, Number, Level, Bytes, Class, VerbName, Bound};
ghost use Rattle.fancy_notation.specs.NotationViews.{token_of, point_of};
ghost use Rattle.fancy_notation.specs.declared.forms.Form.TheVariants as form;
ghost use Rattle.fancy_notation.specs.Reading.{next_token, next_word, first_gives, IsFaultHere, PassesFound, Skips, SplicesText, ReadsToken, Reads, ReadsTree, ReadsBoxed, SpellsLast, OneCharEach, ReadsHead, SpellsPartsAfter, Appends, Makes};

use crate::forms::{Enclosing, Form, Leveled, Naming};
use crate::numbers::number;
use crate::tokens::{Placed, Token};
use crate::words::{bound, byte, count, form, leaf, level, verb};
use fancy_expr::error::Error;
use fancy_expr::expr::{Absent, BacktrackingControlVerb, Expr};
use fancy_expr::well_formed::MOST_GROUPS;
use std::alloc::Global;

/// What is left to read.
#[derive(Drop)]
pub struct Reader<'a> {
    pub alloc: Global,
    pub rest: &'a [Placed],
    /// The length of the text.
    pub end: usize,
    /// How many groups were opened.
    pub groups: usize,
}

impl<'a> Reader<'a> {
    /// The next token cannot stand here.
    fn misfit(&self) -> Error
        ensures { IsFaultHere self.now result }
    {
        let at = match self.rest.first() {
            Some(placed) => placed.at,
            None => self.end,
        };
        Error::TreeFault { at }
    }

    fn next(&self) -> Option<&'a Token>
        ensures { option_map (λ t. token_of t.now) result ≡ next_token (point_of self.now).tokens }
    {
        match self.rest.first() {
            Some(placed) => Some(&placed.token),
            None => None,
        }
    }

    fn next_word(&self) -> Option<&'a str>
        ensures { option_map (λ w. w.now) result ≡ next_word (point_of self.now).tokens }
    {
        match self.next() {
            Some(Token::Word(word)) => Some(word.as_str()),
            _ => None,
        }
    }

    /// Goes past the next token where it was found to stand here.
    fn take<T: Drop>(&mut self, found: Option<T>) -> Result<T, Error>
        ensures { PassesFound found self.old self.new result }
    {
        match (found, self.rest.split_first()) {
            (Some(value), Some((_, others))) => {
                self.rest = others;
                Ok(value)
            }
            _ => Err(self.misfit()),
        }
    }

    fn read_number(&mut self) -> Result<usize, Error>
        ensures { ReadsToken (in_word number_of) (λ n. n) self.old self.new result }
    {
        let found = match self.next_word() {
            Some(word) => number(word),
            None => None,
        };
        self.take(found)
    }

    fn read_level(&mut self) -> Result<isize, Error>
        ensures { ReadsToken (in_word level_of) (λ l. l) self.old self.new result }
    {
        let found = match self.next_word() {
            Some(word) => level(word),
            None => None,
        };
        self.take(found)
    }

    fn read_count(&mut self) -> Result<usize, Error>
        ensures { ReadsToken (in_word count_of) (λ n. n) self.old self.new result }
    {
        let found = match self.next_word() {
            Some(word) => count(word),
            None => None,
        };
        self.take(found)
    }

    fn read_bound(&mut self, lo: usize) -> Result<usize, Error>
        ensures { ReadsToken (in_word (bound_at_least lo)) bound_of self.old self.new result }
    {
        let found = match self.next_word() {
            Some(word) => bound(word, lo),
            None => None,
        };
        self.take(found)
    }

    fn read_byte(&mut self) -> Result<u8, Error>
        ensures { ReadsToken (in_word byte_of) (λ b. b) self.old self.new result }
    {
        let found = match self.next_word() {
            Some(word) => byte(word),
            None => None,
        };
        self.take(found)
    }

    fn read_verb(&mut self) -> Result<BacktrackingControlVerb, Error>
        ensures { ReadsToken (in_word verb_of) verb_view self.old self.new result }
    {
        let found = match self.next_word() {
            Some(word) => verb(word),
            None => None,
        };
        self.take(found)
    }

    fn read_leaf(&mut self) -> Result<Expr, Error>
        ensures { ReadsToken (in_word leaf_of) tree_of self.old self.new result }
    {
        let found = match self.next_word() {
            Some(word) => leaf(word),
            None => None,
        };
        self.take(found)
    }

    /// The text of a class.
    fn read_class(&mut self) -> Result<&'a str, Error>
        ensures { ReadsToken class (λ text. text.now) self.old self.new result }
    {
        let found = match self.next() {
            Some(
                Token::Quoted {
                    folded: false,
                    text,
                },
            ) if !text.is_empty() => Some(text.as_str()),
            _ => None,
        };
        self.take(found)
    }

    fn read_close(&mut self) -> Result<(), Error>
        ensures { ReadsToken closing (λ u. tt) self.old self.new result }
    {
        let found = if self.is_at_close() { Some(()) } else { None };
        self.take(found)
    }

    /// No token is left.
    pub fn read_end(&self) -> Result<(), Error>
        ensures { MatchResult result (λ u. (point_of self.now).tokens ≡ [])
            (λ e. IsFaultHere self.now e × ¬ ((point_of self.now).tokens ≡ [])) }
    {
        if self.rest.is_empty() {
            Ok(())
        } else {
            Err(self.misfit())
        }
    }

    fn is_at_close(&self) -> bool
        ensures { first_gives closing (point_of self.now).tokens
            ≡ (if result then Some tt else None) }
    {
        match self.next() {
            Some(Token::Closed) => true,
            _ => false,
        }
    }

    fn is_at_open(&self) -> bool
        ensures { first_gives opening (point_of self.now).tokens
            ≡ (if result then Some tt else None) }
    {
        match self.next() {
            Some(Token::Opened) => true,
            _ => false,
        }
    }

    fn is_at_text(&self) -> bool
        ensures { result ≡ is_at_text (point_of self.now).tokens }
    {
        match self.next() {
            Some(Token::Quoted { .. }) => true,
            _ => false,
        }
    }

    fn is_spliced(&self, splices: bool) -> bool
        ensures { result ≡ (splices && is_at_text (point_of self.now).tokens) }
    {
        splices && self.is_at_text()
    }

    fn skip(&mut self)
        requires { 0 < length self.old.rest.now }
        ensures { Skips self.old self.new }
    {
        self.rest = &self.rest[1..];
    }

    /// The word after an opening parenthesis. A group is counted.
    fn read_head(&mut self) -> Result<Form, Error>
        ensures { ReadsHead self.old self.new result }
    {
        let found = self.found_head();
        let (head, groups) = self.take(found)?;
        self.groups = groups;
        Ok(head)
    }

    fn found_head(&self) -> Option<(Form, usize)>
        ensures { result ≡ first_gives (in_word (head_word self.now.groups))
            (point_of self.now).tokens }
    {
        let found = form(self.next_word()?)?;
        counted(self.groups, found)
    }

    #[cycle(reading)]
    pub fn read_node(&mut self) -> Result<Expr, Error>
        ensures { ReadsTree (Node ∷ []) (λ e x y. Spells x y e) self.old self.new result }
    {
        if self.is_at_text() {
            return self.read_text();
        }
        if self.is_at_open() {
            return self.read_form();
        }
        self.read_leaf()
    }

    fn read_text(&mut self) -> Result<Expr, Error>
        requires { is_at_text (point_of self.old).tokens ≡ true }
        ensures { ReadsTree (Node ∷ []) (λ e x y. Spells x y e) self.old self.new result }
    {
        match self.next() {
            Some(Token::Quoted { folded, text }) => {
                let node = text_node(self.alloc, *folded, text.as_str())?;
                self.skip();
                Ok(node)
            }
            _ => Err(self.misfit()),
        }
    }

    /// Adds what the next token, a quoted text, gives in a sequence.
    fn splice_text(&mut self, parts: &mut Vec<Expr>) -> Result<(), Error>
        requires { is_at_text (point_of self.old).tokens ≡ true }
        ensures { SplicesText self.old self.new parts.old.items parts.new.items result }
    {
        match self.next() {
            Some(Token::Quoted { folded, text }) => {
                push_text(self.alloc, parts, *folded, text.as_str())?;
                self.skip();
                Ok(())
            }
            _ => Err(self.misfit()),
        }
    }

    fn new_parts(&self) -> Vec<Expr>
        ensures { result.items ≡ [] }
    {
        Vec::new(self.alloc)
    }

    #[cycle(reading)]
    fn read_form(&mut self) -> Result<Expr, Error>
        requires { first_gives opening (point_of self.old).tokens ≡ Some tt }
        ensures { ReadsTree (Node ∷ []) (λ e x y. Spells x y e) self.old self.new result }
    {
        self.skip();
        let form = self.read_head()?;
        self.read_form_rest(form)
    }

    #[cycle(reading)]
    fn read_form_rest(&mut self, form: Form) -> Result<Expr, Error>
        ensures { ReadsTree (wants form) (λ e x y. SpellsForm form x y e) self.old self.new result }
    {
        match form {
            Form::Cat => {
                let parts = self.read_parts(self.new_parts(), true)?;
                Ok(Expr::Concat(parts))
            }
            Form::Alt => self.read_alt(),
            Form::Enclosing(enclosing) => self.read_enclosed(enclosing),
            Form::Repeat { greedy } => self.read_repeat(greedy),
            Form::Set { casei } => self.read_set(casei),
            Form::Bytes => self.read_bytes(),
            Form::Naming(naming) => self.read_naming(naming),
            Form::Leveled(leveled) => self.read_leveled(leveled),
            Form::Verb => self.read_verb_node(),
            Form::Conditional => self.read_conditional(),
            Form::AbsentExpression => self.read_absent_expression(),
        }
    }

    /// The nodes up to the closing parenthesis, after those given. In a sequence a quoted text gives its literals.
    #[cycle(reading)]
    fn read_parts(&mut self, given: Vec<Expr>, splices: bool) -> Result<Vec<Expr>, Error>
        ensures { Reads (Parts ∷ [])
            (λ parts x y. SpellsPartsAfter splices given.items parts.items x y) self.old
            self.new result }
    {
        let mut parts = given;
        while !self.is_at_close() {
            if self.is_spliced(splices) {
                self.splice_text(&mut parts)?;
            } else {
                parts.push(self.read_node()?)?;
            }
        }
        self.read_close()?;
        Ok(parts)
    }

    #[cycle(reading)]
    fn read_alt(&mut self) -> Result<Expr, Error>
        ensures { ReadsTree (wants (form.Alt))
            (λ e x y. SpellsForm (form.Alt) x y e) self.old self.new result }
    {
        let first = self.read_node()?;
        let mut branches = self.new_parts();
        branches.push(first)?;
        let branches = self.read_parts(branches, false)?;
        Ok(Expr::Alt(branches))
    }

    /// A node, in a box.
    #[cycle(reading)]
    fn read_boxed(&mut self) -> Result<Box<Expr>, Error>
        ensures { ReadsBoxed (Node ∷ []) (λ e x y. Spells x y e) self.old self.new result }
    {
        let node = self.read_node()?;
        Ok(Box::new(self.alloc, node)?)
    }

    /// The last node of a form, in a box, and the closing parenthesis after it.
    #[cycle(reading)]
    fn read_last(&mut self) -> Result<Box<Expr>, Error>
        ensures { ReadsBoxed (Node ∷ Shut ∷ []) (λ e x y. SpellsLast x y e) self.old
            self.new result }
    {
        let node = self.read_boxed()?;
        self.read_close()?;
        Ok(node)
    }

    #[cycle(reading)]
    fn read_enclosed(&mut self, enclosing: Enclosing) -> Result<Expr, Error>
        ensures { ReadsTree (wants (form.Enclosing enclosing))
            (λ e x y. SpellsForm (form.Enclosing enclosing) x y e) self.old self.new result }
    {
        let body = self.read_last()?;
        Ok(enclosed(enclosing, body))
    }

    #[cycle(reading)]
    fn read_repeat(&mut self, greedy: bool) -> Result<Expr, Error>
        ensures { ReadsTree (wants (form.Repeat greedy))
            (λ e x y. SpellsForm (form.Repeat greedy) x y e) self.old self.new result }
    {
        let lo = self.read_count()?;
        let hi = self.read_bound(lo)?;
        let child = self.read_last()?;
        Ok(Expr::Repeat {
            child,
            lo,
            hi,
            greedy,
        })
    }

    #[cycle(reading)]
    fn read_conditional(&mut self) -> Result<Expr, Error>
        ensures { ReadsTree (wants (form.Conditional))
            (λ e x y. SpellsForm (form.Conditional) x y e) self.old self.new result }
    {
        let condition = self.read_boxed()?;
        let true_branch = self.read_boxed()?;
        let false_branch = self.read_last()?;
        Ok(Expr::Conditional {
            condition,
            true_branch,
            false_branch,
        })
    }

    #[cycle(reading)]
    fn read_absent_expression(&mut self) -> Result<Expr, Error>
        ensures { ReadsTree (wants (form.AbsentExpression))
            (λ e x y. SpellsForm (form.AbsentExpression) x y e) self.old self.new result }
    {
        let absent = self.read_boxed()?;
        let exp = self.read_last()?;
        Ok(Expr::Absent(Absent::Expression { absent, exp }))
    }

    fn read_set(&mut self, casei: bool) -> Result<Expr, Error>
        ensures { ReadsTree (wants (form.Set casei))
            (λ e x y. SpellsForm (form.Set casei) x y e) self.old self.new result }
    {
        let inner = self.read_class()?;
        self.read_close()?;
        Ok(Expr::Delegate {
            inner: String::from_str(self.alloc, inner)?,
            casei,
        })
    }

    fn read_bytes(&mut self) -> Result<Expr, Error>
        ensures { ReadsTree (wants (form.Bytes))
            (λ e x y. SpellsForm (form.Bytes) x y e) self.old self.new result }
    {
        let mut bytes = Vec::new(self.alloc);
        while !self.is_at_close() {
            bytes.push(self.read_byte()?)?;
        }
        self.read_close()?;
        Ok(Expr::LiteralBytes { bytes })
    }

    fn read_naming(&mut self, naming: Naming) -> Result<Expr, Error>
        ensures { ReadsTree (wants (form.Naming naming))
            (λ e x y. SpellsForm (form.Naming naming) x y e) self.old self.new result }
    {
        let group = self.read_number()?;
        self.read_close()?;
        Ok(named(naming, group))
    }

    fn read_leveled(&mut self, leveled: Leveled) -> Result<Expr, Error>
        ensures { ReadsTree (wants (form.Leveled leveled))
            (λ e x y. SpellsForm (form.Leveled leveled) x y e) self.old self.new result }
    {
        let group = self.read_number()?;
        let level = self.read_level()?;
        self.read_close()?;
        Ok(named_at_level(leveled, group, level))
    }

    fn read_verb_node(&mut self) -> Result<Expr, Error>
        ensures { ReadsTree (wants (form.Verb))
            (λ e x y. SpellsForm (form.Verb) x y e) self.old self.new result }
    {
        let found = self.read_verb()?;
        self.read_close()?;
        Ok(Expr::BacktrackingControlVerb(found))
    }
}

/// The form, and how many groups are open behind its word, unless it is a group too many.
fn counted(groups: usize, form: Form) -> Option<(Form, usize)>
    ensures { result ≡ counted groups form }
{
    match form {
        Form::Enclosing(Enclosing::Group) => {
            if groups < MOST_GROUPS {
                Some((form, groups + 1))
            } else {
                None
            }
        }
        _ => Some((form, groups)),
    }
}

fn text_node(alloc: Global, folded: bool, text: &str) -> Result<Expr, Error>
    ensures { Makes (joined (literals folded text.now)) result }
{
    let mut parts = Vec::new(alloc);
    push_literals(alloc, &mut parts, folded, text)?;
    Ok(joined(parts))
}

/// Adds the literals of a text.
fn push_literals(alloc: Global, parts: &mut Vec<Expr>, casei: bool, text: &str) -> Result<(), Error>
    ensures { Appends parts.old.items (literals casei text.now) parts.new.items result }
{
    for c in text.chars() {
        parts.push(literal(alloc, c, casei)?)?;
    }
    Ok(())
}

fn literal(alloc: Global, c: char, casei: bool) -> Result<Expr, Error>
    ensures { Makes (plain.Literal c casei) result }
{
    let mut val = String::new(alloc);
    val.push(c)?;
    Ok(Expr::Literal { val, casei })
}

/// Adds what a quoted text gives in a sequence.
fn push_text(alloc: Global, parts: &mut Vec<Expr>, casei: bool, text: &str) -> Result<(), Error>
    ensures { Appends parts.old.items (parts_of_text casei text.now) parts.new.items result }
{
    if text.is_empty() {
        parts.push(Expr::Empty)?;
        return Ok(());
    }
    push_literals(alloc, parts, casei, text)
}

/// None of them is nothing, one is itself, more are a sequence.
fn joined(literals: Vec<Expr>) -> Expr
    ensures { (tree_of result ≡ joined (map tree_of literals.items))
        × (Each OneCharEach literals.items → OneCharEach result) }
{
    let mut literals = literals;
    if literals.len() > 1 {
        return Expr::Concat(literals);
    }
    match literals.pop() {
        Some(literal) => literal,
        None => Expr::Empty,
    }
}

fn enclosed(enclosing: Enclosing, body: Box<Expr>) -> Expr
    ensures { (tree_of result ≡ enclosed enclosing (tree_of body.value))
        × (OneCharEach body.value → OneCharEach result) }
{
    match enclosing {
        Enclosing::Group => Expr::Group(body),
        Enclosing::Atomic => Expr::AtomicGroup(body),
        Enclosing::Define => Expr::DefineGroup { definitions: body },
        Enclosing::Look(look) => Expr::LookAround(body, look),
        Enclosing::AbsentRepeater => Expr::Absent(Absent::Repeater(body)),
        Enclosing::AbsentStopper => Expr::Absent(Absent::Stopper(body)),
    }
}

fn named(naming: Naming, group: usize) -> Expr
    ensures { tree_of result ≡ named naming group }
{
    match naming {
        Naming::Backref { casei } => Expr::Backref { group, casei },
        Naming::Exists => Expr::BackrefExistsCondition {
            group,
            relative_recursion_level: None,
        },
        Naming::Call => Expr::SubroutineCall(group),
    }
}

fn named_at_level(leveled: Leveled, group: usize, level: isize) -> Expr
    ensures { tree_of result ≡ named_at leveled group level }
{
    match leveled {
        Leveled::Backref => Expr::BackrefWithRelativeRecursionLevel {
            group,
            relative_level: level,
            casei: false,
        },
        Leveled::Exists => Expr::BackrefExistsCondition {
            group,
            relative_recursion_level: Some(level),
        },
    }
}
