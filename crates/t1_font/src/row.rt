//! The row of a text: all its tokens, one by one, as far as the reader goes. Type 1 Font Format 1.1, chapter 2.

ghost use Rattle.std.specs.Prelude.{Bool, IfOk, IfSome, ◌++◌, ◌≡◌, ◌<◌, ◌^◌, ◌&&◌, None, if◌then◌else◌, length, nat_le};
ghost use Rattle.std.specs.Option.{option_map};
ghost use Rattle.t1_font.specs.Private.Readings.{Is};
ghost use Rattle.t1_font.specs.Private.Statements.{turn_view, view_if_any};
ghost use Rattle.t1_font.specs.Private.Tokens.{Sees, found_of};
ghost use Rattle.t1_font.specs.Private.Turning.{HasTurned, IsAhead, IsListPart, IsTaken, IsTurned};
ghost use Rattle.t1_font.specs.Private.Entries.{IsFirstPart};
ghost use Rattle.t1_font.specs.declared.mode.PrivateMode.TheVariants.{Glyphs, Subrs};
ghost use Rattle.t1_font.specs.declared.row.Role.{Role as Roles};
ghost use Rattle.t1_font.specs.declared.row.Role.TheVariants.{Other, Reader};
ghost use Rattle.t1_font.specs.Views.{bytes_of};
ghost use Rattle.t1_font.specs.Rows.{IsPart, after_first, charstring_in, clear_row, first_in, is_in_glyphs, left_behind, name_in, nothing_stated, private_row, role_of, row_left, row_of, row_token, text_turn, tokens_left, tokens_until, turns_left, token_before, token_in_row};

use crate::clear_text::clear_turn;
use crate::font::Font;
use crate::mode::{ClearMode, PrivateMode, TextMode};
use crate::private_text::{LAST_SUBR, private_token};
use crate::statement::{Statement, Turn};
use crate::tokens::{
    charstring_with_word, is_any_word, is_name, is_word, name, natural, token_ahead, wanted,
};
use crate::unread::Unread;
use t1_scan::Token;

/// What a token is to the reader.
#[derive(Clone, Copy)]
pub enum Role {
    /// A token like any other.
    Other,
    /// The name `/Subrs` or `/CharStrings` at which the reader begins a list.
    List,
    /// The word between the length and the bytes of a charstring.
    Reader,
}

/// A token of a row.
#[derive(Clone, Copy)]
pub struct TokenInRow<'a> {
    /// The token. Its place is counted from where its turn began.
    pub token: Token<'a>,
    /// What it is to the reader.
    pub role: Role,
}

impl<'a> TokenInRow<'a> {
    /// The name that it is, without its slash; None where it is no name.
    pub fn name(&self) -> Option<&'a [u8]>
        ensures { bytes_of result ≡ name_in (token_in_row self.now) }
    {
        if is_name(self.token.kind) {
            Some(name(self.token.text))
        } else {
            None
        }
    }
}

/// The entry of a charstring.
#[derive(Clone, Copy)]
pub struct Entry<'a> {
    /// The token that begins it: a glyph's name, or `dup`.
    pub first: Token<'a>,
    /// How many numbers come then.
    pub numbers: usize,
    /// The word before the bytes.
    pub word: Token<'a>,
}

/// A part of a row.
#[derive(Clone, Copy)]
pub enum Part<'a> {
    Token(TokenInRow<'a>),
    /// The tokens of the entry of a charstring.
    Entry(Entry<'a>),
}

/// What is left of a row. Nothing is kept of the tokens before.
#[derive(Clone, Copy)]
pub struct Row<'a> {
    /// What is left of this turn's text, until so many bytes are left.
    text: &'a [u8],
    /// The first token of that and what follows it, where the turn has read it.
    first: Option<(Token<'a>, &'a [u8])>,
    stop: usize,
    /// What the next token is to the reader, and whether the last is the word before a charstring.
    role: Role,
    ends: bool,
    /// What is left after this turn, if the text isn't over.
    mode: TextMode,
    left: &'a [u8],
    is_over: bool,
}

/// Whether reading is among the glyphs.
fn is_in_glyphs(mode: TextMode) -> bool
    ensures { result ≡ is_in_glyphs mode }
{
    matches!(mode, TextMode::Private(PrivateMode::Glyphs))
}

/// A turn of either text, by a reader that knows of nothing before; and the first token that it read, where it is handed on.
#[tactic(auto, unfolding(crate::specs::Rows::text_turn, crate::specs::PrivateText::private_turn_by))]
fn text_turn<'a>(
    mode: TextMode,
    text: &'a [u8],
) -> Result<(Option<(Token<'a>, &'a [u8])>, Turn<'a, TextMode>), Unread>
    ensures turn { Is (λ p. turn_view p.1) result (text_turn nothing_stated mode text.now) }
    ensures first { IfOk result (λ p. IsAhead text.now p.0) }
{
    match mode {
        TextMode::Clear(mode) => match clear_turn(mode, text)? {
            Turn::Over(rest) => Ok((None, Turn::Over(rest))),
            Turn::Goes(statement, next, rest) => {
                Ok((None, Turn::Goes(statement, TextMode::Clear(next), rest)))
            }
        },
        TextMode::Private(mode) => {
            let found = wanted(text, Unread::BadCharStrings)?;
            let (token, rest) = found;
            match private_token(None, mode, token.kind, token.text, rest)? {
                Turn::Over(rest) => Ok((Some(found), Turn::Over(rest))),
                Turn::Goes(statement, next, rest) => {
                    Ok((
                        Some(found),
                        Turn::Goes(statement, TextMode::Private(next), rest),
                    ))
                }
            }
        }
    }
}

/// The part that a token among the CharStrings begins, and what is left after it: the entry of a glyph, or a word.
#[inline(always)]
fn glyph_part<'a>(token: Token<'a>, rest: &'a [u8]) -> Option<(Part<'a>, &'a [u8])>
    ensures { IfSome result (λ p. IsFirstPart Glyphs (found_of token.entry rest.now) p.0 p.1.now) }
{
    if is_name(token.kind) {
        let Ok((word, _, left)) = charstring_with_word(rest, Unread::BadCharStrings) else {
            return None;
        };
        let entry = Entry {
            first: token,
            numbers: 1,
            word,
        };
        return Some((Part::Entry(entry), left));
    }
    if is_any_word(token.kind) && !is_word(b"end", token.kind, token.text) {
        let role = Role::Other;
        return Some((Part::Token(TokenInRow { token, role }), rest));
    }
    None
}

/// The part that a token among the Subrs begins, and what is left after it: the entry of a Subr, or a word.
#[inline(always)]
fn subr_part<'a>(token: Token<'a>, rest: &'a [u8]) -> Option<(Part<'a>, &'a [u8])>
    ensures { IfSome result (λ p. IsFirstPart Subrs (found_of token.entry rest.now) p.0 p.1.now) }
{
    if is_word(b"dup", token.kind, token.text) {
        let (number, rest) = token_ahead(rest)?;
        let Ok(_) = natural(Unread::BadSubrs, LAST_SUBR, number.kind) else {
            return None;
        };
        let Ok((word, _, left)) = charstring_with_word(rest, Unread::BadSubrs) else {
            return None;
        };
        let entry = Entry {
            first: token,
            numbers: 2,
            word,
        };
        return Some((Part::Entry(entry), left));
    }
    if is_any_word(token.kind) {
        let role = Role::Other;
        return Some((Part::Token(TokenInRow { token, role }), rest));
    }
    None
}

/// What the first token of a turn is to the reader.
fn role_of(mode: TextMode, statement: Option<Statement<'_>>, next: TextMode) -> Role
    ensures { result ≡ role_of mode (view_if_any statement.entry) next }
{
    match statement {
        Some(Statement::Size(_)) => Role::List,
        None if is_in_glyphs(next) && !is_in_glyphs(mode) => Role::List,
        _ => Role::Other,
    }
}

/// The bytes of a charstring that a turn takes.
fn charstring_of(statement: Option<Statement<'_>>) -> Option<&[u8]>
    ensures { bytes_of result ≡ charstring_in (view_if_any statement.entry) }
{
    match statement {
        Some(Statement::Subr(_, bytes) | Statement::Glyph(_, bytes)) => Some(bytes),
        _ => None,
    }
}

/// How many bytes are left where the tokens of a turn end: before the byte ahead of a charstring, or where the turn ends.
fn left_behind(charstring: Option<&[u8]>, rest: &[u8]) -> usize
    ensures { result ≡ left_behind (bytes_of charstring.entry) (length rest.now) }
{
    match charstring {
        Some(bytes) => rest.len() + bytes.len() + 1,
        None => rest.len(),
    }
}

/// The first token of a text, if it is known and more than so many bytes are left there.
#[inline(always)]
fn first_before<'a>(
    stop: usize,
    text: &'a [u8],
    first: Option<(Token<'a>, &'a [u8])>,
) -> Option<(Token<'a>, &'a [u8])>
    requires { IsAhead text.now first }
    ensures { (role : Roles) (ends : Bool) → tokens_left role ends stop text.now result ≡ tokens_until role ends stop text.now }
{
    if stop < text.len() { first } else { None }
}

impl<'a> Row<'a> {
    /// The row of a text that isn't begun.
    #[tactic(auto, unfolding(crate::specs::Rows::tokens_within, crate::specs::Rows::token_before), using(crate::proofs::RowsLeft::few_in_text))]
    fn new(mode: TextMode, text: &'a [u8]) -> Row<'a>
        ensures all { row_left result ≡ row_of mode text.now }
        ensures few { length (row_left result) < 2 ^ 63 }
    {
        Row {
            text: &[],
            first: None,
            stop: 0,
            role: Role::Other,
            ends: false,
            mode,
            left: text,
            is_over: false,
        }
    }

    /// The row of a font's clear text, to its word `eexec`.
    pub fn clear(font: &Font<'a>) -> Row<'a>
        ensures all { row_left result ≡ clear_row font.now }
        ensures few { length (row_left result) < 2 ^ 63 }
    {
        Row::new(TextMode::Clear(ClearMode::Outside), font.clear_text())
    }

    /// The row of a font's private text, to the `end` of its CharStrings.
    pub fn private(font: &Font<'a>) -> Row<'a>
        ensures all { row_left result ≡ private_row font.now }
        ensures few { length (row_left result) < 2 ^ 63 }
    {
        Row::new(TextMode::Private(PrivateMode::Outside), font.private_text())
    }

    /// The next token of this turn, and what follows it.
    #[tactic(auto, unfolding(crate::specs::Rows::token_before))]
    fn token_before(&self) -> Option<(Token<'a>, &'a [u8])>
        ensures { Sees (λ p. found_of p.0 p.1.now) result (token_before self.now.stop self.now.text.now) }
    {
        if self.text.len() <= self.stop {
            return None;
        }
        token_ahead(self.text)
    }

    /// What the next token is to the reader, if this follows it.
    fn role_before(&self, rest: &[u8]) -> Role
        ensures { result ≡ (if self.now.ends && nat_le (length rest.now) self.now.stop then Reader else self.now.role) }
    {
        if self.ends && rest.len() <= self.stop {
            Role::Reader
        } else {
            self.role
        }
    }

    /// Goes on behind a token, which is the next.
    #[inline(always)]
    fn pass(&mut self, token: Token<'a>, rest: &'a [u8]) -> TokenInRow<'a>
        ensures token { token_in_row result ≡ row_token self.old.role self.old.ends self.old.stop (found_of token.entry rest.now) }
        ensures left { row_left self.new ≡ tokens_until Other self.old.ends self.old.stop rest.now ++ turns_left self.old }
    {
        let role = self.role_before(rest);
        self.text = rest;
        self.first = None;
        self.role = Role::Other;
        TokenInRow { token, role }
    }

    /// Takes the next token of this turn.
    #[inline(always)]
    fn take(&mut self) -> Option<TokenInRow<'a>>
        ensures { IsTaken self.old self.new result }
    {
        if let Some((token, rest)) = self.first {
            return Some(self.pass(token, rest));
        }
        let (token, rest) = self.token_before()?;
        Some(self.pass(token, rest))
    }

    /// Begins the next turn; false where there is none.
    fn turn(&mut self) -> bool
        requires { HasTurned self.old }
        ensures { IsTurned self.old self.new result }
    {
        if self.is_over {
            return false;
        }
        let Ok((first, turn)) = text_turn(self.mode, self.left) else {
            return false;
        };
        self.text = self.left;
        match turn {
            Turn::Over(rest) => {
                self.stop = rest.len();
                self.first = first_before(rest.len(), self.left, first);
                self.role = Role::Other;
                self.ends = false;
                self.is_over = true;
            }
            Turn::Goes(statement, next, rest) => {
                let charstring = charstring_of(statement);
                self.stop = left_behind(charstring, rest);
                self.first = first_before(self.stop, self.left, first);
                self.role = role_of(self.mode, statement, next);
                self.ends = charstring.is_some();
                self.mode = next;
                self.left = rest;
            }
        }
        true
    }

    /// The next token of the row, which goes on behind it.
    pub fn next(&mut self) -> Option<TokenInRow<'a>>
        ensures first { option_map token_in_row result ≡ first_in (row_left self.old) }
        ensures rest { row_left self.new ≡ after_first (row_left self.old) }
    {
        'turns: loop {
            if let Some(token) = self.take() {
                return Some(token);
            }
            if !self.turn() {
                return None;
            }
        }
    }

    /// The next part of the Subrs or of the CharStrings, where one begins here.
    #[inline(always)]
    fn list_part(&mut self) -> Option<Part<'a>>
        requires { HasTurned self.old }
        ensures { IsListPart self.old self.new result }
    {
        if self.is_over {
            return None;
        }
        match self.mode {
            TextMode::Private(PrivateMode::Glyphs) => {
                let (token, rest) = token_ahead(self.left)?;
                let (part, left) = glyph_part(token, rest)?;
                self.left = left;
                Some(part)
            }
            TextMode::Private(PrivateMode::Subrs) => {
                let (token, rest) = token_ahead(self.left)?;
                let (part, left) = subr_part(token, rest)?;
                self.left = left;
                Some(part)
            }
            TextMode::Private(PrivateMode::Outside) | TextMode::Clear(_) => None,
        }
    }

    /// The next part of the row, which goes on behind it.
    pub fn part(&mut self) -> Option<Part<'a>>
        ensures { IsPart result (row_left self.old) (row_left self.new) }
    {
        'turns: loop {
            if let Some(token) = self.take() {
                return Some(Part::Token(token));
            }
            if let Some(part) = self.list_part() {
                return Some(part);
            }
            if !self.turn() {
                return None;
            }
        }
    }
}
