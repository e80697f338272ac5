//! Globs, and the names that they match.

ghost use Rattle.std.specs.Prelude.{◌≡◌, ◌==◌, ◌+◌, ◌≤◌, ◌&&◌, Bool, nat_le, position, ℕ, List, [], ◌∷◌, if◌then◌else◌, not, IfOk, MatchOption, drop, length, map, option_map};
ghost use Rattle.std.specs.List.{list_any};
ghost use Rattle.std.specs.Str.{chars};
ghost use Rattle.t1_names.specs.GlobValues.{glob_of, piece_of, pieces_of};
ghost use Rattle.t1_names.specs.Globs.{AreRead, any_then, IsRead, IsRow, does_match, fits, front, in_set, is_excluded, is_slash, last_part, matches, members_at, one_then, piece_then, repeats, set_front, set_or_itself, star_front};

use std::alloc::{AllocError, Global};

/// A piece of a glob.
#[derive(Drop)]
pub enum Piece {
    /// A character that matches itself.
    Itself(char),
    /// `?`: one character, but no `/`.
    AnyChar,
    /// `[abc]` or `[!abc]`: one character of a set or none of it, but no `/`.
    Set(CharSet),
    /// `*`: any characters but `/`.
    Star,
    /// `**`: any characters.
    DoubleStar,
}

/// The characters of a set, as they are written: `a-z` is a range.
#[derive(Drop)]
pub struct CharSet {
    negated: bool,
    members: Vec<char>,
}

/// A glob, which matches names character by character:
///
/// - `*` matches any characters but `/`, `**` any characters;
/// - `?` matches one character but `/`;
/// - `[abc]` and `[a-z]` match one character of the set, `[!abc]` one that isn't in it; none of them matches `/`;
/// - all else matches itself, and so does a `[` without an end before the next `/`. A set ends at the first `]` that
///   isn't its first character.
///
/// A glob matches a whole name. One without `/` matches a name too whose last part it matches.
#[derive(Drop)]
pub struct Glob {
    pieces: Vec<Piece>,
    has_slash: bool,
}

impl Glob {
    /// Reads a glob. Each text is one.
    pub fn read(alloc: Global, text: &str) -> Result<Glob, AllocError>
        ensures { IfOk result (λ glob. IsRead (chars text.now) (glob_of glob)) }
    {
        let text = chars_of(alloc, text)?;
        Ok(Glob {
            pieces: read_pieces(alloc, text.as_slice())?,
            has_slash: has_slash(text.as_slice()),
        })
    }

    /// Whether it matches a name. The row is one longer than the name; what was in it doesn't matter.
    fn does_match(&self, name: &[char], row: &mut [bool]) -> bool
        requires { length row.old ≡ length name.now + 1 }
        ensures { result ≡ does_match (glob_of self.now) name.now }
    {
        match_pieces(self.pieces.as_slice(), name, row);
        row[0] || (!self.has_slash && row[last_part(name)])
    }
}

/// Whether one of these globs matches a name. The time grows with the length of the name times that of the globs.
pub fn is_excluded(alloc: Global, name: &str, globs: &[Glob]) -> Result<bool, AllocError>
    ensures { IfOk result (λ excluded. excluded ≡ is_excluded (map glob_of globs.now) name.now) }
{
    if globs.is_empty() {
        return Ok(false);
    }
    let name = chars_of(alloc, name)?;
    let mut row = row_for(alloc, name.as_slice())?;
    Ok(does_one_match(globs, name.as_slice(), row.as_mut_slice()))
}

/// Whether one of these globs matches a name.
fn does_one_match(globs: &[Glob], name: &[char], row: &mut [bool]) -> bool
    requires { length row.old ≡ length name.now + 1 }
    ensures { result ≡ list_any (λ glob. does_match (glob_of glob) name.now) globs.now }
{
    for glob in globs {
        if glob.does_match(name, row) {
            return true;
        }
    }
    false
}

/// The characters of a text.
fn chars_of(alloc: Global, text: &str) -> Result<Vec<char>, AllocError>
    ensures { IfOk result (λ all. all.items ≡ chars text.now) }
{
    text.chars().collect(alloc)
}

/// A row for a name, which is one longer.
fn row_for(alloc: Global, name: &[char]) -> Result<Vec<bool>, AllocError>
    ensures { IfOk result (λ row. length row.items ≡ length name.now + 1) }
{
    let mut row = Vec::new(alloc);
    for _character in name {
        row.push(false)?;
    }
    row.push(false)?;
    Ok(row)
}

/// Whether a slash is among these characters.
fn has_slash(text: &[char]) -> bool
    ensures { result ≡ list_any is_slash text.now }
{
    text.iter().any(|c| *c == '/')
}

/// Where the last part of a name begins.
fn last_part(name: &[char]) -> usize
    ensures within { result ≤ length name.now }
    ensures part { drop result name.now ≡ last_part name.now }
{
    let mut start = name.len();
    while start > 0 && name[start - 1] != '/' {
        start -= 1;
    }
    start
}

/// Fills a row for these pieces, the last one first.
fn match_pieces(pieces: &[Piece], name: &[char], row: &mut [bool])
    requires { length row.old ≡ length name.now + 1 }
    ensures { IsRow (matches (pieces_of pieces.now)) name.now row.new }
{
    match_end(name, row);
    let mut left = pieces.len();
    while left > 0 {
        left -= 1;
        match_piece(&pieces[left], name, row);
    }
}

/// Fills a row for no piece: just the end of the name passes.
fn match_end(name: &[char], row: &mut [bool])
    requires { length row.old ≡ length name.now + 1 }
    ensures { IsRow (matches []) name.now row.new }
{
    for at in 0..name.len() {
        row[at] = false;
    }
    row[name.len()] = true;
}

/// Turns the row of some pieces into that of one more before them.
fn match_piece(piece: &Piece, name: &[char], row: &mut [bool])
    requires { length row.old ≡ length name.now + 1 }
    ensures { (passes : List ℕ → Bool) → IsRow passes name.now row.old → IsRow (piece_then (piece_of piece.now) passes) name.now row.new }
{
    if repeats(piece) {
        match_some(piece, name, row);
    } else {
        match_one(piece, name, row);
    }
}

/// The same for a piece that matches any number of characters.
fn match_some(piece: &Piece, name: &[char], row: &mut [bool])
    requires { length row.old ≡ length name.now + 1 }
    ensures { (passes : List ℕ → Bool) → IsRow passes name.now row.old → IsRow (any_then (fits (piece_of piece.now)) passes) name.now row.new }
{
    let mut at = name.len();
    while at > 0 {
        at -= 1;
        row[at] = row[at] | (fits(piece, name[at]) & row[at + 1]);
    }
}

/// The same for a piece that matches one character.
fn match_one(piece: &Piece, name: &[char], row: &mut [bool])
    requires { length row.old ≡ length name.now + 1 }
    ensures { (passes : List ℕ → Bool) → IsRow passes name.now row.old → IsRow (one_then (fits (piece_of piece.now)) passes) name.now row.new }
{
    for at in 0..name.len() {
        row[at] = fits(piece, name[at]) & row[at + 1];
    }
    row[name.len()] = false;
}

/// Whether a piece matches any number of characters.
fn repeats(piece: &Piece) -> bool
    ensures { result ≡ repeats (piece_of piece.now) }
{
    match piece {
        Piece::Star | Piece::DoubleStar => true,
        Piece::Itself(_) | Piece::AnyChar | Piece::Set(_) => false,
    }
}

/// Whether a piece matches a character.
fn fits(piece: &Piece, c: char) -> bool
    ensures { result ≡ fits (piece_of piece.now) c }
{
    match piece {
        Piece::Itself(own) => c == *own,
        Piece::AnyChar | Piece::Star => c != '/',
        Piece::Set(set) => c != '/' && is_in(set, c),
        Piece::DoubleStar => true,
    }
}

/// Whether a set matches a character.
fn is_in(set: &CharSet, c: char) -> bool
    ensures { result ≡ (if set.now.negated then not (in_set set.now.members.items c) else in_set set.now.members.items c) }
{
    let found = is_member(set.members.as_slice(), c);
    if set.negated { !found } else { found }
}

/// Whether a character is among the members of a set.
fn is_member(members: &[char], c: char) -> bool
    ensures { result ≡ in_set members.now c }
{
    let mut rest = members;
    while let Some((first, more)) = rest.split_first() {
        match range_end(more) {
            Some((last, after)) => {
                if is_between(*first, c, last) {
                    return true;
                }
                rest = after;
            }
            None => {
                if c == *first {
                    return true;
                }
                rest = more;
            }
        }
    }
    false
}

/// Whether a character is in a range.
fn is_between(first: char, c: char, last: char) -> bool
    ensures { result ≡ (nat_le first c && nat_le c last) }
{
    first <= c && c <= last
}

/// The end of a range and what is after it, where a `-` that isn't the last character is after the beginning.
fn range_end(more: &[char]) -> Option<(char, &[char])>
    ensures { MatchOption result ((last : _) (rest : _) → more.now ≡ 45 ∷ last ∷ rest → ⊥) (λ end. more.now ≡ 45 ∷ end.0 ∷ end.1.now) }
{
    let (dash, more) = more.split_first()?;
    if *dash != '-' {
        return None;
    }
    let (last, rest) = more.split_first()?;
    Some((*last, rest))
}

/// Reads the pieces of a glob.
fn read_pieces(alloc: Global, text: &[char]) -> Result<Vec<Piece>, AllocError>
    ensures { IfOk result (λ pieces. AreRead text.now (pieces_of pieces.items)) }
{
    let mut pieces = Vec::new(alloc);
    let mut rest = text;
    while let Some((first, more)) = rest.split_first() {
        let (piece, after) = read_front(alloc, *first, more)?;
        pieces.push(piece)?;
        rest = after;
    }
    Ok(pieces)
}

/// Reads the first piece of a glob, and returns what is after it too.
fn read_front(alloc: Global, first: char, rest: &[char]) -> Result<(Piece, &[char]), AllocError>
    ensures { IfOk result (λ read. (piece_of read.0 ≡ (front first rest.now).piece) × (read.1.now ≡ (front first rest.now).rest)) }
{
    match first {
        '*' => Ok(read_star(rest)),
        '?' => Ok((Piece::AnyChar, rest)),
        '[' => read_set(alloc, rest),
        _ => Ok((Piece::Itself(first), rest)),
    }
}

/// Reads what is after a `*`.
fn read_star(rest: &[char]) -> (Piece, &[char])
    ensures { (piece_of result.0 ≡ (star_front rest.now).piece) × (result.1.now ≡ (star_front rest.now).rest) }
{
    match rest.split_first() {
        Some((next, after)) if *next == '*' => (Piece::DoubleStar, after),
        _ => (Piece::Star, rest),
    }
}

/// Reads what is after a `[`.
fn read_set(alloc: Global, rest: &[char]) -> Result<(Piece, &[char]), AllocError>
    ensures { IfOk result (λ read. (piece_of read.0 ≡ (set_front rest.now).piece) × (read.1.now ≡ (set_front rest.now).rest)) }
{
    match rest.split_first() {
        Some((mark, body)) if *mark == '!' => read_members(alloc, true, rest, body),
        _ => read_members(alloc, false, rest, rest),
    }
}

/// Reads a set whose members begin `body`, where `rest` is what is after its `[`.
fn read_members<'a>(
    alloc: Global,
    negated: bool,
    rest: &'a [char],
    body: &'a [char],
) -> Result<(Piece, &'a [char]), AllocError>
    ensures { IfOk result (λ read. (piece_of read.0 ≡ (set_or_itself negated rest.now (members_at body.now)).piece)
        × (read.1.now ≡ (set_or_itself negated rest.now (members_at body.now)).rest)) }
{
    match members_at(body) {
        Some((members, after)) => {
            let set = CharSet {
                negated,
                members: Vec::from_slice(alloc, members)?,
            };
            Ok((Piece::Set(set), after))
        }
        None => Ok((Piece::Itself('['), rest)),
    }
}

/// The members of a set, and what is after its end, if it has one.
fn members_at(body: &[char]) -> Option<(&[char], &[char])>
    ensures { option_map (λ found. record { members = found.0.now; rest = found.1.now }) result ≡ members_at body.now }
{
    let (_first, more) = body.split_first()?;
    let end = set_end(more)?;
    let members = &body[..end + 1];
    if has_slash(members) {
        return None;
    }
    Some((members, &more[end + 1..]))
}

/// Where the first `]` is.
fn set_end(more: &[char]) -> Option<usize>
    ensures { result ≡ position (λ c. c == 93) more.now }
{
    more.iter().position(|c| *c == ']')
}
