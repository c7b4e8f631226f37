//! The reader by recursive descent: from tokens to an `Expr`.

ghost use Rattle.std.specs.Prelude.{◌≡◌, ℕ, ◌+◌, ◌<◌, ◌≤◌, List, Option, true, false, drop, length, map, IfOk, IfErr, IfSome, Some, None};
ghost use Rattle.std.specs.Option.{option_map};
ghost use Rattle.fancy_expr.specs.declared.expr.Expr as code;
ghost use Rattle.fancy_expr.specs.Views.{tree_of};
ghost use Rattle.fancy_pattern.specs.Grammar.{Names, is_at, is_branch_end, bar, closing, quantifier as quantifier_of, suffix, opening, class_open, class_text, class_close, gives_some, first_gives, node_of, Takes, SpellsClass, SpellsSuffix, SpellsAtom, SpellsOpened, SpellsBodies, SpellsPiece, SpellsBranch, SpellsBars, SpellsAlternatives};
ghost use Rattle.fancy_pattern.specs.Faults.{kind_at};
ghost use Rattle.fancy_pattern.specs.Stuck.{is_end, is_calm, anything, Fails, FailsOpened, IsMisfit};
ghost use Rattle.fancy_pattern.specs.Naming.{pairs_in};
ghost use Rattle.fancy_tokens.specs.PatternViews.{token_of, opening_of, reference_of, piece_text};
ghost use Rattle.fancy_pattern.specs.Reading.{OneCharEach, point_of, next_token, Skips, ReadsTree, Adds, Pushes, PushesRow, SpellsSome, Boxes, SpellsLast, SpellsMore, SpellsRest, SpellsNode, Quantifies};
ghost use Rattle.fancy_meaning.specs.Tree.{Tree, Literal};
ghost use Rattle.fancy_tokens.specs.Tokens.{AbsentBar, Around, Group, If, Node};

use crate::class_text::push_piece;
use crate::failure::Failure;
use crate::group_names::GroupNames;
use crate::node_stack::{
    add_literal, drop_empty, empty_boxed, enclose_last, group_last, is_last_repeatable, look_boxed,
    pop_boxed, pop_first, popped, push_alternated, push_boxed, push_conditional, push_empty,
    push_expression, push_joined, push_literal, push_repeated, push_stopper, repeat_last,
};
use crate::nodes::{boxed_reference, node};
use fancy_expr::expr::Expr;
use fancy_tokens::error::{ErrorKind, Fault};
use fancy_tokens::tokens::{
    ClassPiece, Enclosing, Leaf, Opening, Placed, Quantifier, Reference, Suffix, Token,
};
use std::alloc::{AllocError, Global};

/// What is left to read.
#[derive(Drop)]
pub struct Reader<'r, 'a> {
    pub alloc: Global,
    pub rest: &'r [Placed<'a>],
}

fn is_bar(token: &Token<'_>) -> bool
    ensures { result ≡ gives_some (bar (token_of token.now)) }
{
    match token {
        Token::Bar => true,
        _ => false,
    }
}

fn is_close(token: &Token<'_>) -> bool
    ensures { result ≡ gives_some (closing (token_of token.now)) }
{
    match token {
        Token::Close => true,
        _ => false,
    }
}

fn is_class_close(token: &Token<'_>) -> bool
    ensures { result ≡ gives_some (class_close (token_of token.now)) }
{
    match token {
        Token::ClassClose => true,
        _ => false,
    }
}

fn as_opening<'a>(token: &Token<'a>) -> Option<Opening<'a>>
    ensures { option_map opening_of result ≡ opening (token_of token.now) }
{
    match token {
        Token::Enclosing(enclosing) => Some(Opening::Enclosing(*enclosing)),
        Token::Group(number) => Some(Opening::Group {
            number: *number,
            name: None,
        }),
        Token::Open(placed) => Some(placed.opening),
        _ => None,
    }
}

/// What stands around alternatives, where that is behind no pointer.
fn as_enclosing(token: &Token<'_>) -> Option<Enclosing>
    ensures { IfSome result (λ e. opening (token_of token.now) ≡ Some (Around e)) }
{
    match token {
        Token::Enclosing(enclosing) => Some(*enclosing),
        _ => None,
    }
}

/// The number of a group without a name.
fn as_group(token: &Token<'_>) -> Option<usize>
    ensures { IfSome result (λ n. opening (token_of token.now) ≡ Some (Group n None)) }
{
    match token {
        Token::Group(number) => Some(*number),
        _ => None,
    }
}

fn as_class_open(token: &Token<'_>) -> Option<bool>
    ensures { result ≡ class_open (token_of token.now) }
{
    match token {
        Token::ClassOpen { casei } => Some(*casei),
        _ => None,
    }
}

fn as_class_piece<'a>(token: &Token<'a>) -> Option<ClassPiece<'a>>
    ensures { option_map piece_text result ≡ class_text (token_of token.now) }
{
    match token {
        Token::ClassChar(c) => Some(ClassPiece::Char(*c)),
        Token::ClassEscaped(c) => Some(ClassPiece::Escaped(*c)),
        Token::ClassCode(c) => Some(ClassPiece::Code(*c)),
        Token::ClassSet { letter, text } => Some(ClassPiece::Set {
            letter: *letter,
            text,
        }),
        Token::ClassHexDigits { negated } => Some(ClassPiece::HexDigits { negated: *negated }),
        Token::ClassBackspace => Some(ClassPiece::Backspace),
        Token::ClassEscape => Some(ClassPiece::Escape),
        _ => None,
    }
}

fn as_quantifier(token: &Token<'_>) -> Option<(Quantifier, bool)>
    ensures { result ≡ quantifier_of (token_of token.now) }
{
    match token {
        Token::Star { greedy } => Some((Quantifier::Star, *greedy)),
        Token::Plus { greedy } => Some((Quantifier::Plus, *greedy)),
        Token::Question { greedy } => Some((Quantifier::Question, *greedy)),
        Token::Counts { lo, hi, greedy } => Some((
            Quantifier::Counts { lo: *lo, hi: *hi },
            *greedy,
        )),
        _ => None,
    }
}

fn as_suffix(token: &Token<'_>) -> Option<Suffix>
    ensures { result ≡ suffix (token_of token.now) }
{
    match token {
        Token::Plus { .. } => Some(Suffix::Possessive),
        Token::Question { .. } => Some(Suffix::Turned),
        _ => None,
    }
}

/// The character of a literal, and whether it is folded.
fn as_literal(token: &Token<'_>) -> Option<(char, bool)>
    ensures { IfSome result (λ p. token_of token.now ≡ Node (Literal p.0 p.1)) }
{
    match token {
        Token::Leaf(Leaf::Literal { val, casei }) => Some((*val, *casei)),
        _ => None,
    }
}

/// The kind of the fault where this token cannot stand.
fn kind_at(token: &Token<'_>) -> ErrorKind
    ensures { result ≡ kind_at (token_of token.now) }
{
    match token {
        Token::Broken(kind) => *kind,
        _ => ErrorKind::TargetNotRepeatable,
    }
}

/// The byte where a condition begins that asks for a group, which may be missing; else 0.
fn place_of(token: &Token<'_>) -> usize {
    match token {
        Token::Open(placed) => placed.at,
        _ => 0,
    }
}

impl<'r, 'a> Reader<'r, 'a> {
    fn next(&self) -> Option<&'r Token<'a>>
        ensures value { option_map (λ k. token_of k.now) result ≡ next_token (point_of self.now) }
        ensures some { IfSome result (λ k. 0 < length self.now.rest.now) }
    {
        match self.rest.first() {
            Some(placed) => Some(&placed.token),
            None => None,
        }
    }

    /// The next token cannot stand here; at the end a parenthesis is not closed.
    fn misfit(&self) -> Failure
        ensures { IsMisfit (point_of self.now) result }
    {
        match self.rest.first() {
            Some(placed) => Failure::Fault(Fault {
                left: placed.left,
                kind: kind_at(&placed.token),
            }),
            None => Failure::Fault(Fault {
                left: 0,
                kind: ErrorKind::UnclosedOpenParen,
            }),
        }
    }

    /// The byte where the next token begins, if it asks for a group.
    fn place(&self) -> usize {
        match self.rest.first() {
            Some(placed) => place_of(&placed.token),
            None => 0,
        }
    }

    fn skip(&mut self)
        requires { 0 < length self.old.rest.now }
        ensures skips { Skips self.old self.new }
        ensures shorter { length self.new.rest.now + 1 ≡ length self.old.rest.now }
    {
        self.rest = &self.rest[1..];
    }

    fn is_at_bar(&self) -> bool
        ensures value { result ≡ is_at bar (point_of self.now) }
        ensures some { result ≡ true → 0 < length self.now.rest.now }
    {
        match self.next() {
            Some(token) => is_bar(token),
            None => false,
        }
    }

    fn is_at_close(&self) -> bool
        ensures value { result ≡ is_at closing (point_of self.now) }
        ensures some { result ≡ true → 0 < length self.now.rest.now }
    {
        match self.next() {
            Some(token) => is_close(token),
            None => false,
        }
    }

    fn is_branch_end(&self) -> bool
        ensures { result ≡ is_branch_end (point_of self.now) }
    {
        match self.next() {
            Some(token) => is_bar(token) || is_close(token),
            None => true,
        }
    }

    fn read_close(&mut self) -> Result<(), Failure>
        ensures takes { IfOk result (λ u. Takes closing (point_of self.old) tt
            (point_of self.new)) }
        ensures fails { IfErr result (λ e. (is_at closing (point_of self.old) ≡ false)
            × IsMisfit (point_of self.old) e) }
        ensures shorter { IfOk result (λ u. length self.new.rest.now + 1
            ≡ length self.old.rest.now) }
    {
        if !self.is_at_close() {
            return Err(self.misfit());
        }
        self.skip();
        Ok(())
    }

    /// No token is left.
    pub fn read_end(&self) -> Result<(), Failure>
        ensures done { IfOk result (λ u. length self.now.rest.now ≡ 0) }
        ensures left { IfErr result (λ e. (0 < length self.now.rest.now)
            × IsMisfit (point_of self.now) e) }
    {
        if self.rest.is_empty() {
            Ok(())
        } else {
            Err(self.misfit())
        }
    }

    /// The tree of branches between bars.
    pub fn read_tree(&mut self, names: &GroupNames) -> Result<Expr, Failure>
        ensures spells { ReadsTree (SpellsAlternatives (pairs_in names.now.pairs))
            self.old self.new result }
        ensures fails { IfErr result (Fails (pairs_in names.now.pairs) anything
            (SpellsAlternatives (pairs_in names.now.pairs)) (point_of self.old)) }
        ensures one_char { IfOk result OneCharEach }
    {
        let mut nodes = Vec::new(self.alloc);
        self.read_alternatives(names, &mut nodes)?;
        Ok(popped(&mut nodes))
    }

    /// Branches between bars.
    #[cycle(reading)]
    fn read_alternatives(
        &mut self,
        names: &GroupNames,
        nodes: &mut Vec<Expr>,
    ) -> Result<(), Failure>
        ensures pushes { IfOk result (λ u. Pushes (SpellsAlternatives (pairs_in names.now.pairs))
            self.old self.new nodes.old.items nodes.new.items) }
        ensures fails { IfErr result (Fails (pairs_in names.now.pairs) anything
            (SpellsAlternatives (pairs_in names.now.pairs)) (point_of self.old)) }
        ensures shorter { IfOk result (λ u. length self.new.rest.now
            ≤ length self.old.rest.now) }
    {
        self.read_branch(names, nodes)?;
        if self.is_at_bar() {
            self.read_bars(names, nodes)
        } else {
            Ok(())
        }
    }

    /// Further branches, each after a bar, behind the one on top.
    #[inline(never)]
    #[cycle(reading)]
    fn read_bars(&mut self, names: &GroupNames, nodes: &mut Vec<Expr>) -> Result<(), Failure>
        ensures pushes { (below : List code.Expr) → (e : Tree) → Adds e below nodes.old.items
            → IfOk result (λ u. Pushes (SpellsMore (pairs_in names.now.pairs) e)
            self.old self.new below nodes.new.items) }
        ensures fails { IfErr result (Fails (pairs_in names.now.pairs) is_end
            (SpellsBars (pairs_in names.now.pairs)) (point_of self.old)) }
        ensures shorter { IfOk result (λ u. length self.new.rest.now
            ≤ length self.old.rest.now) }
    {
        let mut branches = pop_first(self.alloc, nodes)?;
        while self.is_at_bar() {
            self.skip();
            self.read_branch(names, &mut branches)?;
        }
        Ok(push_alternated(nodes, branches)?)
    }

    /// The pieces up to a bar, a closing parenthesis or the end, as one node; those that are nothing are left out.
    #[cycle(reading)]
    fn read_branch(&mut self, names: &GroupNames, nodes: &mut Vec<Expr>) -> Result<(), Failure>
        ensures pushes { IfOk result (λ u. Pushes (SpellsBranch (pairs_in names.now.pairs))
            self.old self.new nodes.old.items nodes.new.items) }
        ensures fails { IfErr result (Fails (pairs_in names.now.pairs) anything
            (SpellsBranch (pairs_in names.now.pairs)) (point_of self.old)) }
        ensures shorter { IfOk result (λ u. length self.new.rest.now
            ≤ length self.old.rest.now) }
    {
        if self.is_branch_end() {
            return Ok(push_empty(nodes)?);
        }
        self.read_piece(names, nodes)?;
        if self.is_branch_end() {
            return Ok(());
        }
        let mut pieces = pop_first(self.alloc, nodes)?;
        drop_empty(&mut pieces);
        while !self.is_branch_end() {
            match self.next_literal() {
                Some((val, casei)) => {
                    self.read_literals(&mut pieces, val, casei)?;
                }
                None => {
                    self.read_piece(names, &mut pieces)?;
                    drop_empty(&mut pieces);
                }
            }
        }
        Ok(push_joined(nodes, pieces)?)
    }

    /// The same, in a box.
    #[cycle(reading)]
    fn read_boxed_branch(
        &mut self,
        names: &GroupNames,
        nodes: &mut Vec<Expr>,
    ) -> Result<Box<Expr>, Failure>
        ensures boxes { IfOk result (λ b. Boxes (SpellsBranch (pairs_in names.now.pairs))
            self.old self.new nodes.old.items nodes.new.items b.value) }
        ensures fails { IfErr result (Fails (pairs_in names.now.pairs) anything
            (SpellsBranch (pairs_in names.now.pairs)) (point_of self.old)) }
        ensures shorter { IfOk result (λ u. length self.new.rest.now
            ≤ length self.old.rest.now) }
    {
        self.read_branch(names, nodes)?;
        Ok(pop_boxed(self.alloc, nodes)?)
    }

    /// An atom, and its quantifier where it has one.
    #[cycle(reading)]
    fn read_piece(&mut self, names: &GroupNames, nodes: &mut Vec<Expr>) -> Result<(), Failure>
        ensures pushes { IfOk result (λ u. Pushes (SpellsPiece (pairs_in names.now.pairs))
            self.old self.new nodes.old.items nodes.new.items) }
        ensures fails { IfErr result (Fails (pairs_in names.now.pairs) is_calm
            (SpellsPiece (pairs_in names.now.pairs)) (point_of self.old)) }
        ensures shorter { IfOk result (λ u. length self.new.rest.now + 1
            ≤ length self.old.rest.now) }
    {
        self.read_atom(names, nodes)?;
        self.read_quantifier(nodes)
    }

    fn next_quantifier(&self) -> Option<(Quantifier, bool)>
        ensures value { result ≡ first_gives quantifier_of (point_of self.now) }
        ensures some { IfSome result (λ q. 0 < length self.now.rest.now) }
    {
        as_quantifier(self.next()?)
    }

    /// The quantifier behind the atom on top, where it has one.
    fn read_quantifier(&mut self, nodes: &mut Vec<Expr>) -> Result<(), Failure>
        ensures pushes { (below : List code.Expr) → (e : Tree) → Adds e below nodes.old.items
            → IfOk result (λ u. Pushes (Quantifies e) self.old self.new below nodes.new.items) }
        ensures fails { (names : Names) → (below : List code.Expr) → (e : Tree)
            → Adds e below nodes.old.items
            → IfErr result (Fails names is_calm (Quantifies e) (point_of self.old)) }
        ensures shorter { IfOk result (λ u. length self.new.rest.now
            ≤ length self.old.rest.now) }
    {
        match self.next_quantifier() {
            Some((quantifier, greedy)) => self.quantify(nodes, quantifier, greedy),
            None => Ok(()),
        }
    }

    /// Goes past the quantifier behind the atom on top.
    #[inline(never)]
    fn quantify(
        &mut self,
        nodes: &mut Vec<Expr>,
        quantifier: Quantifier,
        greedy: bool,
    ) -> Result<(), Failure>
        requires some { 0 < length self.old.rest.now }
        requires there { first_gives quantifier_of (point_of self.old) ≡ Some (quantifier, greedy) }
        ensures pushes { (below : List code.Expr) → (e : Tree) → Adds e below nodes.old.items
            → IfOk result (λ u. Pushes (Quantifies e) self.old self.new below nodes.new.items) }
        ensures fails { (names : Names) → (below : List code.Expr) → (e : Tree)
            → Adds e below nodes.old.items
            → IfErr result (Fails names is_calm (Quantifies e) (point_of self.old)) }
        ensures shorter { IfOk result (λ u. length self.new.rest.now
            ≤ length self.old.rest.now) }
    {
        if !is_last_repeatable(nodes) {
            return Err(self.misfit());
        }
        self.skip();
        let suffix = self.take_suffix();
        Ok(repeat_last(self.alloc, nodes, quantifier, greedy, suffix)?)
    }

    /// The literal that is next.
    fn next_literal(&self) -> Option<(char, bool)>
        ensures value { (names : Names) → IfSome result (λ p. first_gives (node_of names)
            (point_of self.now) ≡ Some (Literal p.0 p.1)) }
        ensures some { IfSome result (λ p. 0 < length self.now.rest.now) }
    {
        as_literal(self.next()?)
    }

    /// Pieces that begin with a literal, of which the first one is this.
    #[inline(never)]
    fn read_literals(
        &mut self,
        nodes: &mut Vec<Expr>,
        val: char,
        casei: bool,
    ) -> Result<(), AllocError>
        requires some { 0 < length self.old.rest.now }
        requires there { (names : Names) → first_gives (node_of names) (point_of self.old)
            ≡ Some (Literal val casei) }
        ensures pushes { (names : Names) → IfOk result (λ u. PushesRow names
            self.old self.new nodes.old.items nodes.new.items) }
        ensures shorter { IfOk result (λ u. length self.new.rest.now + 1
            ≤ length self.old.rest.now) }
    {
        self.read_literal(nodes, val, casei)?;
        while let Some((val, casei)) = self.next_literal() {
            self.read_literal(nodes, val, casei)?;
        }
        Ok(())
    }

    /// The literal that is next, and its quantifier where it has one.
    #[inline(always)]
    fn read_literal(
        &mut self,
        nodes: &mut Vec<Expr>,
        val: char,
        casei: bool,
    ) -> Result<(), AllocError>
        requires some { 0 < length self.old.rest.now }
        requires there { (names : Names) → first_gives (node_of names) (point_of self.old)
            ≡ Some (Literal val casei) }
        ensures pushes { (names : Names) → IfOk result (λ u. Pushes (SpellsSome names)
            self.old self.new nodes.old.items nodes.new.items) }
        ensures shorter { IfOk result (λ u. length self.new.rest.now + 1
            ≤ length self.old.rest.now) }
    {
        self.skip();
        if self.is_at_quantifier() {
            return self.repeat_literal(nodes, val, casei);
        }
        add_literal(self.alloc, nodes, val, casei)
    }

    /// The quantifier behind a literal, around it.
    #[inline(never)]
    fn repeat_literal(
        &mut self,
        nodes: &mut Vec<Expr>,
        val: char,
        casei: bool,
    ) -> Result<(), AllocError>
        ensures pushes { IfOk result (λ u. Pushes (Quantifies (Literal val casei))
            self.old self.new nodes.old.items nodes.new.items) }
        ensures shorter { IfOk result (λ u. length self.new.rest.now
            ≤ length self.old.rest.now) }
    {
        match self.next_quantifier() {
            Some((quantifier, greedy)) => {
                self.skip();
                let suffix = self.take_suffix();
                push_repeated(self.alloc, nodes, val, casei, quantifier, greedy, suffix)
            }
            None => push_literal(self.alloc, nodes, val, casei),
        }
    }

    fn is_at_quantifier(&self) -> bool
        ensures { result ≡ is_at quantifier_of (point_of self.now) }
    {
        match self.next() {
            Some(token) => as_quantifier(token).is_some(),
            None => false,
        }
    }

    fn next_suffix(&self) -> Option<Suffix>
        ensures value { result ≡ first_gives suffix (point_of self.now) }
        ensures some { IfSome result (λ q. 0 < length self.now.rest.now) }
    {
        as_suffix(self.next()?)
    }

    /// What may follow a quantifier.
    fn take_suffix(&mut self) -> Option<Suffix>
        ensures spells { SpellsSuffix (point_of self.old) (point_of self.new) result }
        ensures shorter { length self.new.rest.now ≤ length self.old.rest.now }
    {
        match self.next_suffix() {
            Some(found) => {
                self.skip();
                Some(found)
            }
            None => None,
        }
    }

    fn next_opening(&self) -> Option<Opening<'a>>
        ensures value { option_map opening_of result ≡ first_gives opening (point_of self.now) }
        ensures some { IfSome result (λ q. 0 < length self.now.rest.now) }
    {
        as_opening(self.next()?)
    }

    fn next_enclosing(&self) -> Option<Enclosing>
        ensures value { IfSome result (λ e. first_gives opening (point_of self.now)
            ≡ Some (Around e)) }
        ensures some { IfSome result (λ e. 0 < length self.now.rest.now) }
    {
        as_enclosing(self.next()?)
    }

    fn next_group(&self) -> Option<usize>
        ensures value { IfSome result (λ n. first_gives opening (point_of self.now)
            ≡ Some (Group n None)) }
        ensures some { IfSome result (λ n. 0 < length self.now.rest.now) }
    {
        as_group(self.next()?)
    }

    fn next_class(&self) -> Option<bool>
        ensures value { result ≡ first_gives class_open (point_of self.now) }
        ensures some { IfSome result (λ q. 0 < length self.now.rest.now) }
    {
        as_class_open(self.next()?)
    }

    #[cycle(reading)]
    fn read_atom(&mut self, names: &GroupNames, nodes: &mut Vec<Expr>) -> Result<(), Failure>
        ensures pushes { IfOk result (λ u. Pushes (SpellsAtom (pairs_in names.now.pairs))
            self.old self.new nodes.old.items nodes.new.items) }
        ensures fails { IfErr result (Fails (pairs_in names.now.pairs) is_calm
            (SpellsAtom (pairs_in names.now.pairs)) (point_of self.old)) }
        ensures shorter { IfOk result (λ u. length self.new.rest.now + 1
            ≤ length self.old.rest.now) }
    {
        if let Some((val, casei)) = self.next_literal() {
            push_literal(self.alloc, nodes, val, casei)?;
            self.skip();
            return Ok(());
        }
        if let Some(enclosing) = self.next_enclosing() {
            self.skip();
            return self.read_enclosed(names, nodes, enclosing);
        }
        if let Some(_) = self.next_group() {
            self.skip();
            return self.read_group(names, nodes);
        }
        self.read_other(names, nodes)
    }

    /// An atom of one token, a class, or what begins with an opening that is behind a pointer.
    #[inline(never)]
    #[cycle(reading)]
    fn read_other(&mut self, names: &GroupNames, nodes: &mut Vec<Expr>) -> Result<(), Failure>
        ensures pushes { IfOk result (λ u. Pushes (SpellsAtom (pairs_in names.now.pairs))
            self.old self.new nodes.old.items nodes.new.items) }
        ensures fails { IfErr result (Fails (pairs_in names.now.pairs) is_calm
            (SpellsAtom (pairs_in names.now.pairs)) (point_of self.old)) }
        ensures shorter { IfOk result (λ u. length self.new.rest.now + 1
            ≤ length self.old.rest.now) }
    {
        if let Some(opening) = self.next_opening() {
            let place = self.place();
            self.skip();
            return self.read_opened(names, nodes, opening, place);
        }
        if let Some(casei) = self.next_class() {
            self.skip();
            return self.read_class(nodes, casei);
        }
        self.read_node(names, nodes)
    }

    /// An atom of one token.
    #[inline(never)]
    fn read_node(&mut self, names: &GroupNames, nodes: &mut Vec<Expr>) -> Result<(), Failure>
        ensures pushes { IfOk result (λ u. Pushes (SpellsNode (pairs_in names.now.pairs))
            self.old self.new nodes.old.items nodes.new.items) }
        ensures fails { IfErr result (Fails (pairs_in names.now.pairs) is_calm
            (λ x y e. Takes (node_of (pairs_in names.now.pairs)) x e y) (point_of self.old)) }
        ensures shorter { IfOk result (λ u. length self.new.rest.now + 1
            ≤ length self.old.rest.now) }
    {
        let Some(token) = self.next() else {
            return Err(self.misfit());
        };
        match node(self.alloc, names, token)? {
            Some(found) => {
                nodes.push(found)?;
                self.skip();
                Ok(())
            }
            None => Err(self.misfit()),
        }
    }

    fn next_class_piece(&self) -> Option<ClassPiece<'a>>
        ensures value { option_map piece_text result
            ≡ first_gives class_text (point_of self.now) }
        ensures some { IfSome result (λ q. 0 < length self.now.rest.now) }
    {
        as_class_piece(self.next()?)
    }

    fn is_at_class_close(&self) -> bool
        ensures value { result ≡ is_at class_close (point_of self.now) }
        ensures some { result ≡ true → 0 < length self.now.rest.now }
    {
        match self.next() {
            Some(token) => is_class_close(token),
            None => false,
        }
    }

    /// The rest of a class.
    #[inline(never)]
    fn read_class(&mut self, nodes: &mut Vec<Expr>, casei: bool) -> Result<(), Failure>
        ensures pushes { IfOk result (λ u. Pushes (SpellsRest casei)
            self.old self.new nodes.old.items nodes.new.items) }
        ensures fails { (names : Names) → IfErr result (Fails names anything
            SpellsClass (point_of self.old)) }
        ensures shorter { IfOk result (λ u. length self.new.rest.now
            ≤ length self.old.rest.now) }
    {
        let mut text = String::new(self.alloc);
        text.push('[')?;
        while let Some(piece) = self.next_class_piece() {
            push_piece(&mut text, piece)?;
            self.skip();
        }
        if !self.is_at_class_close() {
            return Err(self.misfit());
        }
        self.skip();
        text.push(']')?;
        nodes.push(Expr::Delegate { inner: text, casei })?;
        Ok(())
    }

    /// What follows an opening token, which begins at the byte `place`, up to its closing parenthesis.
    #[cycle(reading)]
    fn read_opened(
        &mut self,
        names: &GroupNames,
        nodes: &mut Vec<Expr>,
        opening: Opening<'a>,
        place: usize,
    ) -> Result<(), Failure>
        ensures pushes { IfOk result (λ u. Pushes
            (SpellsOpened (pairs_in names.now.pairs) (opening_of opening.entry))
            self.old self.new nodes.old.items nodes.new.items) }
        ensures fails { IfErr result (FailsOpened (pairs_in names.now.pairs)
            (opening_of opening.entry) (point_of self.old)) }
        ensures shorter { IfOk result (λ u. length self.new.rest.now
            ≤ length self.old.rest.now) }
    {
        match opening {
            Opening::Enclosing(enclosing) => self.read_enclosed(names, nodes, enclosing),
            Opening::Group { .. } => self.read_group(names, nodes),
            Opening::AbsentBar => self.read_absent(names, nodes),
            Opening::If(found) => self.read_if(names, nodes, found, place),
            Opening::IfPattern => {
                let condition = self.read_boxed(names, nodes)?;
                self.read_bodies(names, nodes, condition)
            }
            Opening::IfLook(look) => {
                let body = self.read_boxed(names, nodes)?;
                let condition = look_boxed(self.alloc, body, look)?;
                self.read_bodies(names, nodes, condition)
            }
        }
    }

    /// The rest of a group that captures nothing.
    #[cycle(reading)]
    fn read_enclosed(
        &mut self,
        names: &GroupNames,
        nodes: &mut Vec<Expr>,
        enclosing: Enclosing,
    ) -> Result<(), Failure>
        ensures pushes { IfOk result (λ u. Pushes
            (SpellsOpened (pairs_in names.now.pairs) (Around enclosing))
            self.old self.new nodes.old.items nodes.new.items) }
        ensures fails { IfErr result (FailsOpened (pairs_in names.now.pairs)
            (Around enclosing) (point_of self.old)) }
        ensures shorter { IfOk result (λ u. length self.new.rest.now
            ≤ length self.old.rest.now) }
    {
        self.read_last(names, nodes)?;
        Ok(enclose_last(self.alloc, nodes, enclosing)?)
    }

    /// The rest of a group.
    #[cycle(reading)]
    fn read_group(&mut self, names: &GroupNames, nodes: &mut Vec<Expr>) -> Result<(), Failure>
        ensures pushes { (number : ℕ) → (name : Option (List ℕ))
            → IfOk result (λ u. Pushes (SpellsOpened (pairs_in names.now.pairs) (Group number name))
            self.old self.new nodes.old.items nodes.new.items) }
        ensures fails { (number : ℕ) → (name : Option (List ℕ))
            → IfErr result (FailsOpened (pairs_in names.now.pairs) (Group number name)
            (point_of self.old)) }
        ensures shorter { IfOk result (λ u. length self.new.rest.now
            ≤ length self.old.rest.now) }
    {
        self.read_last(names, nodes)?;
        Ok(group_last(self.alloc, nodes)?)
    }

    /// Alternatives, and the closing parenthesis behind them.
    #[inline(always)]
    #[cycle(reading)]
    fn read_last(&mut self, names: &GroupNames, nodes: &mut Vec<Expr>) -> Result<(), Failure>
        ensures pushes { IfOk result (λ u. Pushes (SpellsLast (pairs_in names.now.pairs))
            self.old self.new nodes.old.items nodes.new.items) }
        ensures fails { IfErr result (Fails (pairs_in names.now.pairs) anything
            (SpellsLast (pairs_in names.now.pairs)) (point_of self.old)) }
        ensures shorter { IfOk result (λ u. length self.new.rest.now
            ≤ length self.old.rest.now) }
    {
        self.read_alternatives(names, nodes)?;
        self.read_close()
    }

    /// The same, in a box.
    #[cycle(reading)]
    fn read_boxed(
        &mut self,
        names: &GroupNames,
        nodes: &mut Vec<Expr>,
    ) -> Result<Box<Expr>, Failure>
        ensures boxes { IfOk result (λ b. Boxes (SpellsLast (pairs_in names.now.pairs))
            self.old self.new nodes.old.items nodes.new.items b.value) }
        ensures fails { IfErr result (Fails (pairs_in names.now.pairs) anything
            (SpellsLast (pairs_in names.now.pairs)) (point_of self.old)) }
        ensures shorter { IfOk result (λ u. length self.new.rest.now
            ≤ length self.old.rest.now) }
    {
        self.read_last(names, nodes)?;
        Ok(pop_boxed(self.alloc, nodes)?)
    }

    /// What follows `(?~|`.
    #[inline(never)]
    #[cycle(reading)]
    fn read_absent(&mut self, names: &GroupNames, nodes: &mut Vec<Expr>) -> Result<(), Failure>
        ensures pushes { IfOk result (λ u. Pushes
            (SpellsOpened (pairs_in names.now.pairs) AbsentBar)
            self.old self.new nodes.old.items nodes.new.items) }
        ensures fails { IfErr result (FailsOpened (pairs_in names.now.pairs)
            AbsentBar (point_of self.old)) }
        ensures shorter { IfOk result (λ u. length self.new.rest.now
            ≤ length self.old.rest.now) }
    {
        let absent = self.read_boxed_branch(names, nodes)?;
        if self.is_at_bar() {
            self.skip();
            let exp = self.read_boxed(names, nodes)?;
            return Ok(push_expression(nodes, absent, exp)?);
        }
        self.read_close()?;
        Ok(push_stopper(nodes, absent)?)
    }

    /// A conditional that asks for a group; without branches the condition alone.
    #[inline(never)]
    #[cycle(reading)]
    fn read_if(
        &mut self,
        names: &GroupNames,
        nodes: &mut Vec<Expr>,
        found: Reference<'a>,
        place: usize,
    ) -> Result<(), Failure>
        ensures pushes { IfOk result (λ u. Pushes
            (SpellsOpened (pairs_in names.now.pairs) (If (reference_of found.entry)))
            self.old self.new nodes.old.items nodes.new.items) }
        ensures fails { IfErr result (FailsOpened (pairs_in names.now.pairs)
            (If (reference_of found.entry)) (point_of self.old)) }
        ensures shorter { IfOk result (λ u. length self.new.rest.now
            ≤ length self.old.rest.now) }
    {
        let condition = boxed_reference(self.alloc, names, found, place)?;
        if self.is_at_close() {
            self.skip();
            return Ok(push_boxed(nodes, condition)?);
        }
        self.read_bodies(names, nodes, condition)
    }

    /// The branches of a conditional, up to its closing parenthesis.
    #[cycle(reading)]
    fn read_bodies(
        &mut self,
        names: &GroupNames,
        nodes: &mut Vec<Expr>,
        condition: Box<Expr>,
    ) -> Result<(), Failure>
        ensures pushes { OneCharEach condition.value → IfOk result (λ u. Pushes
            (SpellsBodies (pairs_in names.now.pairs) (tree_of condition.value))
            self.old self.new nodes.old.items nodes.new.items) }
        ensures fails { IfErr result (Fails (pairs_in names.now.pairs) anything
            (SpellsBodies (pairs_in names.now.pairs) (tree_of condition.value))
            (point_of self.old)) }
        ensures shorter { IfOk result (λ u. length self.new.rest.now
            ≤ length self.old.rest.now) }
    {
        let true_branch = self.read_boxed_branch(names, nodes)?;
        if self.is_at_bar() {
            self.skip();
            let false_branch = self.read_boxed(names, nodes)?;
            return Ok(push_conditional(nodes, condition, true_branch, false_branch)?);
        }
        self.read_close()?;
        let false_branch = empty_boxed(self.alloc)?;
        Ok(push_conditional(nodes, condition, true_branch, false_branch)?)
    }
}
