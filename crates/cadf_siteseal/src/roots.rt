//! What a seal has of a part's atoms, in the words of a line.
ghost use Rattle.std.specs.Prelude.{◌≡◌, ◌++◌, OnOk};
ghost use Rattle.cadf_linefile.specs.Numbers.{first_word, words_after};
ghost use Rattle.cadf_siteseal.specs.Roots.{positive_in, root_in, roots_in, roots_text, root_text};

use cadf_inventory::digest_of;
use cadf_json::Memory;
use cadf_linefile::{cut_at_blank, number_in};
use cadf_tree::Root;
use std::alloc::Global;

/// Returns the bytes before the first space, and those after it; of a text without a space all of it, and none.
pub(crate) fn cut(text: &[u8]) -> (&[u8], &[u8])
    ensures first { result.0.now ≡ first_word text.now }
    ensures rest { result.1.now ≡ words_after text.now }
{
    match cut_at_blank(text) {
        Some((first, rest)) => (first, rest),
        None => (text, &[]),
    }
}

/// Decodes a number from 1 on. `None` if the word is none.
fn positive_in(word: &[u8]) -> Option<u64>
    ensures { result ≡ positive_in word.now }
{
    let number = number_in(word)?;
    if number == 0 { None } else { Some(number) }
}

/// Decodes the root of a number and a hash. `None` if the words are no such.
fn root_in(count: &[u8], hash: &[u8]) -> Option<Root>
    ensures { result ≡ root_in count.now hash.now }
{
    let count = positive_in(count)?;
    let hash = digest_of(hash)?;
    Some(Root { count, hash })
}

/// Decodes the roots of the facts and of the keys. `None` if the text is anything else.
pub(crate) fn roots_in(text: &[u8]) -> Option<(Root, Root)>
    ensures { result ≡ roots_in text.now }
{
    let (count, rest) = cut(text);
    let (hash, rest) = cut(rest);
    let (key_count, key_hash) = cut(rest);
    let facts = root_in(count, hash)?;
    let keys = root_in(key_count, key_hash)?;
    Some((facts, keys))
}

/// Appends the words of a root.
fn push_root(alloc: Global, line: &mut Vec<u8>, root: &Root) -> Result<(), Memory>
    ensures { OnOk result (line.new.items ≡ line.old.items ++ root_text root.now) }
{
    line.extend_from_slice(itoa::Buffer::new().format(root.count).as_bytes())?;
    line.push(b' ')?;
    line.extend_from_slice(hex::encode(alloc, &root.hash)?.as_bytes())?;
    Ok(())
}

/// Appends the words of the roots of the facts and of the keys.
pub(crate) fn push_roots(
    alloc: Global,
    line: &mut Vec<u8>,
    facts: &Root,
    keys: &Root,
) -> Result<(), Memory>
    ensures { OnOk result (line.new.items ≡ line.old.items ++ roots_text facts.now keys.now) }
{
    push_root(alloc, line, facts)?;
    line.push(b' ')?;
    push_root(alloc, line, keys)
}
