//! Texts and names that words give for options.
ghost use Rattle.std.specs.Prelude.{◌≡◌, IfOk, IfErr, IfSome, Ok, Err, codes, map, option_map};
ghost use Rattle.std.specs.{List.{All}, Str.{IsUtf8}};
ghost use Rattle.clap.specs.Words.{rows_of, found_of, first_of, all_of};
ghost use Rattle.run_words.specs.{Numbers.{epoch_in}, Options.{needed, all_needed, given}, Orders.{Gives, IsCut}};

use crate::fault::WordsFault;
use crate::numbers::epoch_in;
use clap::ArgMatches;
use item_list::ItemList;
use num_time::Name;
use std::alloc::{AllocError, Global};

// The text given for an option or a word.
fn text_of<'a>(matches: &ArgMatches<'a>, name: &str) -> Option<&'a str>
    ensures { option_map (λ text. text.now) result ≡ first_of name.now (rows_of (found_of matches.now)) }
{
    matches.get_str(name)
}

// The texts given for words of which there may be more than one, in their order.
fn texts_of<'b, 'a>(matches: &'b ArgMatches<'a>, name: &str) -> Option<&'b [&'a str]>
    ensures { option_map (λ texts. map (λ text. text.now) texts.now) result ≡ all_of name.now (rows_of (found_of matches.now)) }
{
    matches.get_strs(name)
}

/// The text of an option or a word that has to be there.
#[tactic(auto, unfolding(crate::specs::Options::needed))]
pub(crate) fn needed<'a>(matches: &ArgMatches<'a>, name: &str) -> Result<&'a str, WordsFault>
    ensures given { IfOk result (λ text. needed name.now (rows_of (found_of matches.now)) ≡ Ok text.now) }
    ensures absent { IfErr result (λ fault. needed name.now (rows_of (found_of matches.now)) ≡ Err fault) }
{
    match text_of(matches, name) {
        Some(text) => Ok(text),
        None => Err(WordsFault::Option),
    }
}

/// The samples of an epoch, where the option is given.
#[tactic(auto, unfolding(crate::specs::Options::given))]
pub(crate) fn epoch_given(matches: &ArgMatches) -> Result<Option<u64>, WordsFault>
    ensures epoch { result ≡ given (codes "epoch") epoch_in (rows_of (found_of matches.now)) }
    ensures cut { IfOk result IsCut }
{
    match text_of(matches, "epoch") {
        Some(text) => Ok(Some(epoch_in(text)?)),
        None => Ok(None),
    }
}

/// The name of a text.
pub(crate) fn name_of(alloc: Global, text: &str) -> Result<Name, AllocError>
    ensures same { IfOk result (λ name. name ≡ text.now) }
    ensures text { IfOk result IsUtf8 }
{
    Name::new(alloc, text.as_bytes())
}

/// The name given for an option that may be absent.
pub(crate) fn name_given(
    alloc: Global,
    matches: &ArgMatches,
    name: &str,
) -> Result<Option<Name>, AllocError>
    ensures same { IfOk result (λ given. given ≡ first_of name.now (rows_of (found_of matches.now))) }
    ensures text { IfOk result (λ given. IfSome given IsUtf8) }
{
    match text_of(matches, name) {
        Some(text) => Ok(Some(name_of(alloc, text)?)),
        None => Ok(None),
    }
}

// The names of texts.
fn names_of(alloc: Global, texts: &[&str]) -> Result<ItemList<Name>, AllocError>
    ensures same { IfOk result (λ names. names ≡ map (λ text. text.now) texts.now) }
    ensures texts { IfOk result (All IsUtf8) }
{
    let mut names = Vec::new(alloc);
    for text in texts {
        names.push(name_of(alloc, text)?)?;
    }
    Ok(ItemList::of(names))
}

/// The names of words of which one has to be there, in their order.
#[tactic(auto, unfolding(crate::specs::Options::all_needed))]
pub(crate) fn all_needed(
    alloc: Global,
    matches: &ArgMatches,
    name: &str,
) -> Result<ItemList<Name>, WordsFault>
    ensures names { Gives result (all_needed name.now (rows_of (found_of matches.now))) }
    ensures texts { IfOk result (All IsUtf8) }
{
    match texts_of(matches, name) {
        Some(texts) if !texts.is_empty() => Ok(names_of(alloc, texts)?),
        _ => Err(WordsFault::Option),
    }
}
