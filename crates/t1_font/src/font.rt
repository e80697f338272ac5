//! The font: what was stated last of each thing. Type 1 Font Format 1.1, chapter 2.

ghost use Rattle.std.specs.Prelude.{◌≡◌, ◌≤◌, [], false, Some, nat_eq, length, map, is_some, OnOk, IfErr, slice_index_or};
ghost use Rattle.std.specs.Option.{unwrap_or};
ghost use Rattle.std.specs.Map.{lookup};
ghost use Rattle.t1_font.specs.Fonts.{FontValue, Marks, value_of, plain, encoding, code, subr, glyph, glyph_name, is_encoding_twice, is_glyph_twice, is_key_twice, is_subr_twice, once_more, with_texts};
ghost use Rattle.t1_font.specs.Entries.{entry_view};
ghost use Rattle.t1_font.specs.Keys.{index_of, same_name};
ghost use Rattle.t1_font.specs.LenIv.{len_iv_of};
ghost use Rattle.t1_font.specs.Private.Room.{HasRoom, HasRoomFor};
ghost use Rattle.t1_font.specs.PrivateText.{has_key};
ghost use Rattle.t1_font.specs.Puts.{put, put_one};
ghost use Rattle.t1_font.specs.Private.Statements.{lexeme_of, statement_view, view_if_any};
ghost use Rattle.t1_font.specs.Values.{absent};
ghost use Rattle.t1_font.specs.Views.{bytes_of, name_pair, number_pair};
ghost use Rattle.t1_font.specs.declared.key.Key.TheVariants.{LenIv};
ghost use Rattle.t1_font.specs.declared.unread.Unread.TheVariants.{Memory};
ghost use Rattle.t1_font.specs.Bounds.{most_glyphs};

use crate::encoding::Encoding;
use crate::entry::{Entry, value};
use crate::key::Key;
use crate::plain_values::{PLAIN_KEYS, PlainValues};
use crate::statement::Statement;
use crate::unread::Unread;
use indexmap::{IndexMap, IndexSet};
use std::alloc::Global;
use std::marker::Model;
use t1_scan::Token;

/// A Type 1 font, as its clear text and its private text state it.
#[derive(Drop)]
pub struct Font<'a> {
    plain: PlainValues,
    encoding: Encoding,
    codes: IndexMap<u32, &'a [u8]>,
    bad_code: bool,
    size: Option<u32>,
    subrs: IndexMap<u32, &'a [u8]>,
    subrs_twice: IndexSet<u32>,
    glyphs: IndexMap<&'a [u8], &'a [u8]>,
    glyphs_twice: IndexSet<&'a [u8]>,
    no_end: bool,
    extra: bool,
    key_times: [u8; PLAIN_KEYS],
    encoding_times: u8,
    clear_text: &'a [u8],
    private_text: &'a [u8],
}

impl<'a> Model for Font<'a> {
    ghost use Rattle.std.specs.Prelude.{◌≤◌, length, map};
    ghost use Rattle.t1_font.specs.Fonts.{FontValue};
    ghost use Rattle.t1_font.specs.Bounds.{most_glyphs};
    ghost use Rattle.t1_font.specs.Views.{name_pair, names_now, number_pair};

    ghost Value = { FontValue };

    ghost view = { λ f. record {
      plain = f.plain;
      encoding = f.encoding;
      codes = map number_pair f.codes.entries;
      bad_code = f.bad_code;
      size = f.size;
      subrs = map number_pair f.subrs.entries;
      subrs_twice = f.subrs_twice.keys;
      glyphs = map name_pair f.glyphs.entries;
      glyphs_twice = names_now f.glyphs_twice.keys;
      no_end = f.no_end;
      extra = f.extra;
      key_times = f.key_times;
      encoding_times = f.encoding_times;
      clear_text = f.clear_text.now;
      private_text = f.private_text.now;
    } };

    ghost invariant = { λ f. length f.glyphs.entries ≤ most_glyphs };
}

/// How often something is stated, with once more; two stands for more as well.
fn once_more(times: u8) -> u8
    ensures { result ≡ once_more times }
{
    if times == 0 { 1 } else { 2 }
}

impl<'a> Font<'a> {
    /// A font of which nothing is stated.
    #[tactic(auto, unfolding(crate::specs::Fonts::value_of))]
    pub(crate) fn new(alloc: Global, no_end: bool, extra: bool) -> Font<'a>
        ensures { result ≡ value_of (record { no_end = no_end; extra = extra }) [] }
    {
        Font {
            plain: PlainValues::new(),
            encoding: Encoding::Absent,
            codes: IndexMap::new(alloc),
            bad_code: false,
            size: None,
            subrs: IndexMap::new(alloc),
            subrs_twice: IndexSet::new(alloc),
            glyphs: IndexMap::new(alloc),
            glyphs_twice: IndexSet::new(alloc),
            no_end,
            extra,
            key_times: [0; PLAIN_KEYS],
            encoding_times: 0,
            clear_text: &[],
            private_text: &[],
        }
    }

    /// Whether a plain key, or a noted one, was stated twice or more.
    pub fn is_key_twice(&self, key: Key) -> bool
        ensures { result ≡ is_key_twice self.now key }
    {
        self.key_times[key.place()] == 2
    }

    /// Whether an Encoding was stated twice or more.
    pub fn is_encoding_twice(&self) -> bool
        ensures { result ≡ is_encoding_twice self.now }
    {
        self.encoding_times == 2
    }

    /// Takes the texts that were read: the clear one to the end of its word `eexec`, and the private one.
    pub(crate) fn with_texts(mut self, clear_text: &'a [u8], private_text: &'a [u8]) -> Font<'a>
        ensures { result ≡ with_texts clear_text.now private_text.now self.entry }
    {
        self.clear_text = clear_text;
        self.private_text = private_text;
        self
    }

    /// The clear text to the end of its word `eexec`.
    pub fn clear_text(&self) -> &'a [u8]
        ensures { result.now ≡ self.now.clear_text }
    {
        self.clear_text
    }

    /// The private text, also what follows the `end` of its CharStrings.
    pub fn private_text(&self) -> &'a [u8]
        ensures { result.now ≡ self.now.private_text }
    {
        self.private_text
    }

    /// The glyphs, in the order of their first appearance, each with its last charstring: at most 65,535.
    pub fn glyphs(&self) -> &IndexMap<&'a [u8], &'a [u8]>
        ensures entries { map name_pair result.now.entries ≡ self.now.glyphs }
        ensures few { length self.now.glyphs ≤ most_glyphs }
    {
        &self.glyphs
    }

    /// The name of a glyph by its place, from 0; empty past the last.
    pub fn glyph_name(&self, place: usize) -> &'a [u8]
        ensures { result.now ≡ glyph_name self.now place }
    {
        match self.glyphs.get_index(place) {
            Some((name, _)) => *name,
            None => &[],
        }
    }

    /// The Subrs, in the order of their first appearance, each with its last charstring.
    pub fn subrs(&self) -> &IndexMap<u32, &'a [u8]>
        ensures { map number_pair result.now.entries ≡ self.now.subrs }
    {
        &self.subrs
    }

    /// The charstring of a Subr. Most fonts state their Subrs in the order of their numbers, from 0 on.
    #[inline(always)]
    pub fn subr(&self, number: u32) -> Option<&'a [u8]>
        ensures { bytes_of result ≡ lookup (nat_eq number) self.now.subrs }
    {
        match self.subrs.get_index(number as usize) {
            Some((there, bytes)) if *there == number => Some(*bytes),
            _ => self.subr_elsewhere(number),
        }
    }

    /// The same of a font that states them in another order.
    #[inline(never)]
    fn subr_elsewhere(&self, number: u32) -> Option<&'a [u8]>
        ensures { bytes_of result ≡ lookup (nat_eq number) self.now.subrs }
    {
        self.subrs.get(&number).copied()
    }

    /// How many Subrs the private text says that there are; 0 where it has none.
    pub fn subr_size(&self) -> u32
        ensures { result ≡ unwrap_or self.now.size 0 }
    {
        self.size.unwrap_or(0)
    }

    /// What a plain key has, once more.
    pub fn entry(&self, key: Key) -> Entry
        ensures { entry_view result ≡ slice_index_or self.now.plain (index_of key) absent }
    {
        self.value(key).copied()
    }

    /// A reference to the value of a plain key: nothing is copied.
    pub fn value(&self, key: Key) -> &Entry
        ensures { entry_view result.now ≡ slice_index_or self.now.plain (index_of key) absent }
    {
        self.plain.entry(key)
    }

    /// How many random bytes are before each charstring; -1 where charstrings aren't encrypted.
    pub fn len_iv(&self) -> i8
        ensures { result ≡ len_iv_of (slice_index_or self.now.plain (index_of LenIv) absent) }
    {
        self.value(Key::LenIv).len_iv()
    }

    /// The form of the Encoding.
    pub fn encoding(&self) -> Encoding
        ensures { result ≡ self.now.encoding }
    {
        self.encoding
    }

    /// The name that a custom encoding has for a code; none past 255.
    pub fn encoded(&self, code: u32) -> Option<&'a [u8]>
        ensures { bytes_of result ≡ lookup (nat_eq code) self.now.codes }
    {
        self.codes.get(&code).copied()
    }

    /// Whether a custom encoding has a code that isn't whole from 0 to 255.
    pub fn bad_code(&self) -> bool
        ensures { result ≡ self.now.bad_code }
    {
        self.bad_code
    }

    /// Whether a glyph, by its place, is stated twice.
    pub fn glyph_twice(&self, glyph: usize) -> bool
        ensures { result ≡ is_glyph_twice self.now glyph }
    {
        match self.glyphs.get_index(glyph) {
            Some((name, _)) => self.glyphs_twice.contains(name),
            None => false,
        }
    }

    /// Whether a Subr, by its number, is stated twice.
    pub fn subr_twice(&self, number: u32) -> bool
        ensures { result ≡ is_subr_twice self.now number }
    {
        self.subrs_twice.contains(&number)
    }

    /// Whether the file is a row of segments that no end segment closes.
    pub fn no_end(&self) -> bool
        ensures { result ≡ self.now.no_end }
    {
        self.no_end
    }

    /// Whether bytes follow the file's end segment.
    pub fn extra(&self) -> bool
        ensures { result ≡ self.now.extra }
    {
        self.extra
    }

    /// Drops the font, in a function of its own: one that drops a font beside other ends takes long to prove.
    pub fn let_go(self) {}

    /// Whether the size of the Subrs is stated.
    pub(crate) fn has_size(&self) -> bool
        ensures { result ≡ is_some self.now.size }
    {
        self.size.is_some()
    }

    /// How many glyphs there are.
    pub(crate) fn glyph_count(&self) -> usize
        ensures { result ≡ length self.now.glyphs }
    {
        self.glyphs.len()
    }

    /// Whether there is a glyph of this name.
    pub(crate) fn has_glyph(&self, name: &[u8]) -> bool
        ensures { result ≡ has_key same_name self.now.glyphs name.now }
    {
        self.glyphs.contains_key(&name)
    }

    /// Takes what a text states. Where memory is wanting the font is of no more use.
    #[inline(always)]
    pub(crate) fn put_one(&mut self, statement: Option<Statement<'a>>) -> Result<(), Unread>
        requires { HasRoomFor self.old (view_if_any statement) }
        ensures ok { OnOk result (self.new ≡ put_one self.old (view_if_any statement.entry)) }
        ensures memory { IfErr result (λ e. e ≡ Memory) }
    {
        match statement {
            None => Ok(()),
            Some(statement) => self.put(statement),
        }
    }

    #[inline(never)]
    fn put(&mut self, statement: Statement<'a>) -> Result<(), Unread>
        requires { HasRoomFor self.old (Some (statement_view statement)) }
        ensures ok { OnOk result (self.new ≡ put self.old (statement_view statement.entry)) }
        ensures memory { IfErr result (λ e. e ≡ Memory) }
    {
        match statement {
            Statement::Plain(key, token) => {
                self.put_plain(key, token);
                Ok(())
            }
            Statement::Encoding(form) => {
                self.put_encoding(form);
                Ok(())
            }
            Statement::Code(code, name) => self.put_code(code, name),
            Statement::BadCode => {
                self.bad_code = true;
                Ok(())
            }
            Statement::Size(size) => {
                self.size = Some(size);
                Ok(())
            }
            Statement::Subr(number, bytes) => self.put_subr(number, bytes),
            Statement::Glyph(name, bytes) => self.put_glyph(name, bytes),
        }
    }

    fn put_plain(&mut self, key: Key, token: Token<'a>)
        ensures { self.new ≡ put self.old (plain key (lexeme_of token.entry)) }
    {
        self.plain.put(key, value(token.kind, token.text));
        let place = key.place();
        self.key_times[place] = once_more(self.key_times[place]);
    }

    fn put_encoding(&mut self, form: Encoding)
        ensures { self.new ≡ put self.old (encoding form) }
    {
        self.encoding = form;
        self.codes.clear();
        self.bad_code = false;
        self.encoding_times = once_more(self.encoding_times);
    }

    #[tactic(auto, using(crate::proofs::FontMaps::number_put))]
    fn put_code(&mut self, number: u32, name: &'a [u8]) -> Result<(), Unread>
        ensures ok { OnOk result (self.new ≡ put self.old (code number name.now)) }
        ensures memory { IfErr result (λ e. e ≡ Memory) }
    {
        self.codes.insert(number, name)?;
        Ok(())
    }

    fn put_subr(&mut self, number: u32, bytes: &'a [u8]) -> Result<(), Unread>
        ensures ok { OnOk result (self.new ≡ put self.old (subr number bytes.now)) }
        ensures memory { IfErr result (λ e. e ≡ Memory) }
    {
        let before = self.subrs.insert(number, bytes)?;
        if before.is_some() {
            self.subrs_twice.insert(number)?;
        }
        Ok(())
    }

    fn put_glyph(&mut self, name: &'a [u8], bytes: &'a [u8]) -> Result<(), Unread>
        requires { HasRoom self.old name.now }
        ensures ok { OnOk result (self.new ≡ put self.old (glyph name.now bytes.now)) }
        ensures memory { IfErr result (λ e. e ≡ Memory) }
    {
        let before = self.glyphs.insert(name, bytes)?;
        if before.is_some() {
            self.glyphs_twice.insert(name)?;
        }
        Ok(())
    }
}
