//! The pages of rules and refusals, as `--explain` prints them.

ghost use Rattle.std.specs.Prelude.{◌≡◌, ◌∷◌, ◌++◌, IfErr, IfOk, map, option_map, string_bytes};
ghost use Rattle.std.specs.List.{flat_map};
ghost use Rattle.t1_answer_all.specs.Explaining.{IsExplained, IsUnknown, explained_text, page_line, page_of, page_text, pages_of, unknown_among};
ghost use Rattle.t1_answer_all.specs.Usage.{IsToldSo};
ghost use Rattle.t1_forms.specs.PageValues.{page_value};

use crate::usage::no_page;
use std::alloc::{AllocError, Global};
use t1_forms::Page;
use t1_rules::{Rule, rule_level};
use t1_run::UsageError;

/// The pages whose codes the words are, an empty line between two. Without a word: a list of all.
pub(crate) fn explanation_of(
    alloc: Global,
    pages: &[Page],
    words: &[String],
) -> Result<String, UsageError>
    ensures text { IfOk result (λ text. IsExplained (map page_value pages.now) (map string_bytes words.now) (string_bytes text)) }
    ensures none { IfErr result (IsToldSo (IsUnknown (map page_value pages.now) (map string_bytes words.now))) }
{
    match unknown_among(pages, words) {
        Some(word) => Err(no_page(alloc, word.as_str())),
        None => Ok(explained_text(alloc, pages, words)?),
    }
}

/// The first word that is no code.
fn unknown_among<'a>(pages: &[Page], words: &'a [String]) -> Option<&'a String>
    ensures { option_map (λ word. string_bytes word.now) result ≡ unknown_among (map page_value pages.now) (map string_bytes words.now) }
{
    words
        .iter()
        .find(|word| page_of(pages, word.as_str()).is_none())
}

/// The pages of words, or a list of all.
fn explained_text(alloc: Global, pages: &[Page], words: &[String]) -> Result<String, AllocError>
    ensures { IfOk result (λ text. string_bytes text
        ≡ explained_text (map page_value pages.now) (pages_of (map page_value pages.now) (map string_bytes words.now))) }
{
    let named = pages_of(alloc, pages, words)?;
    match named.as_slice() {
        [] => list_text(alloc, pages),
        [first, others @ ..] => pages_text(alloc, first, others),
    }
}

/// The pages whose codes the words are.
fn pages_of<'a>(
    alloc: Global,
    pages: &'a [Page],
    words: &[String],
) -> Result<Vec<&'a Page>, AllocError>
    ensures { IfOk result (λ named. map (λ page. page_value page.now) named.items
        ≡ pages_of (map page_value pages.now) (map string_bytes words.now)) }
{
    let mut named = Vec::new(alloc);
    for word in words {
        if let Some(page) = page_of(pages, word.as_str()) {
            named.push(page)?;
        }
    }
    Ok(named)
}

/// The page whose code a word is, in capitals or small letters.
fn page_of<'a>(pages: &'a [Page], word: &str) -> Option<&'a Page>
    ensures { option_map (λ page. page_value page.now) result ≡ page_of (map page_value pages.now) word.now }
{
    pages
        .iter()
        .find(|page| page.code.eq_ignore_ascii_case(word))
}

/// Pages, an empty line between two.
fn pages_text(alloc: Global, first: &Page, others: &[&Page]) -> Result<String, AllocError>
    ensures { IfOk result (λ text. string_bytes text
        ≡ page_text (page_value first.now) ++ flat_map (λ page. 10 ∷ page_text page) (map (λ page. page_value page.now) others.now)) }
{
    let mut text = page_text(alloc, first)?;
    for page in others {
        text.push('\n')?;
        text.push_str(page_text(alloc, page)?.as_str())?;
    }
    Ok(text)
}

/// A page: its heading, an empty line, and what is below it.
fn page_text(alloc: Global, page: &Page) -> Result<String, AllocError>
    ensures { IfOk result (λ text. string_bytes text ≡ page_text (page_value page.now)) }
{
    let Page {
        code,
        title,
        text,
        ..
    } = *page;
    format!(in alloc; "{code} {title}\n\n{text}\n")
}

/// A list of pages, a line each.
fn list_text(alloc: Global, pages: &[Page]) -> Result<String, AllocError>
    ensures { IfOk result (λ text. string_bytes text ≡ flat_map page_line (map page_value pages.now)) }
{
    let mut text = String::new(alloc);
    for page in pages {
        text.push_str(page_line(alloc, page)?.as_str())?;
    }
    Ok(text)
}

/// The line of a page in the list: its heading, and after that of a rule the level.
fn page_line(alloc: Global, page: &Page) -> Result<String, AllocError>
    ensures { IfOk result (λ line. string_bytes line ≡ page_line (page_value page.now)) }
{
    let Page { code, title, .. } = *page;
    match Rule::from_code(code.as_bytes()) {
        Some(rule) => {
            let level = rule_level(rule).text();
            format!(in alloc; "{code} {title} ({level})\n")
        }
        None => format!(in alloc; "{code} {title}\n"),
    }
}
