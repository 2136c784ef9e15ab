//! The dictionary of some lists with the nodes of its tree, and the digests of the lists.

ghost use Rattle.std.specs.Prelude.{◌≡◌, ◌<◌, [], length, map, slice_index_or, IfOk};
ghost use Rattle.ats_tree.specs.Kept.{kept_digests};
ghost use Rattle.ats_dict.specs.Dictionary.{dict_leaves};
ghost use Rattle.ats_lists.specs.KeptList.{kept_list};
ghost use Rattle.ats_commit.specs.Trees.{dict_entry};
ghost use Rattle.ats_index.specs.Inner.Kept.{all_list_digests};

use crate::memory::OutOfMemory;
use ats_dict::Dictionary;
use ats_hash::{Hash32, HashKind, Steps};
use ats_lists::{Format, ListDigests, Lists};
use ats_tree::{Leaves, Nodes};
use std::alloc::Global;

// The digests of list `i`, counted from 0, in this format.
fn digests_of_list<H: Hash32>(
    alloc: Global,
    format: Format,
    lists: &Lists,
    i: u32,
) -> Result<ListDigests, OutOfMemory>
    requires { i < length lists.now }
    ensures { IfOk result (λ kept. kept ≡ kept_list H.hash format (slice_index_or lists.now i ([], [])).1) }
{
    Ok(ListDigests::of::<H>(alloc, format, lists.list(i), &mut Steps::new(alloc))?)
}

/// The digests of each list in this format, by one thread.
pub(crate) fn digests_of_lists<H: Hash32>(
    alloc: Global,
    format: Format,
    lists: &Lists,
) -> Result<Vec<ListDigests>, OutOfMemory>
    ensures { IfOk result (λ digests. digests.items ≡ all_list_digests H.hash format lists.now) }
{
    let mut digests = Vec::with_capacity(alloc, lists.len() as usize)?;
    for i in 0..lists.len() {
        digests.push(digests_of_list::<H>(alloc, format, lists, i)?)?;
    }
    Ok(digests)
}

/// The dictionary that has an entry for each list, from their digests in this format.
pub(crate) fn dictionary_of<H: HashKind>(
    alloc: Global,
    format: Format,
    lists: &Lists,
    digests: &[ListDigests],
) -> Result<Dictionary, OutOfMemory>
    requires { digests.now ≡ all_list_digests H.hash format lists.now }
    ensures { IfOk result (λ made. made ≡ map (dict_entry H.hash format) lists.now) }
{
    let mut dictionary = Dictionary::new(alloc);
    for i in 0..lists.len() {
        let root = digests[i as usize].root();
        dictionary.push(lists.term(i), lists.list(i).len() as u32, &root)?;
    }
    Ok(dictionary)
}

// The nodes of a dictionary's tree.
fn dictionary_nodes<H: Hash32>(alloc: Global, dictionary: &Dictionary) -> Result<Nodes, OutOfMemory>
    ensures { IfOk result (λ nodes. nodes ≡ kept_digests H.hash (dict_leaves dictionary.now)) }
{
    // A dictionary has at most 2^24 terms.
    prove!(dictionary.len() >= 2);
    Ok(Nodes::of::<H, _>(alloc, dictionary, &mut Steps::new(alloc))?)
}

/// A dictionary, and the nodes of its tree.
#[derive(Drop)]
pub(crate) struct DictionaryTree {
    pub(crate) dictionary: Dictionary,
    pub(crate) nodes: Nodes,
}

/// The dictionary of lists with its tree, from their digests in this format, by one thread.
pub(crate) fn dictionary_tree<H: Hash32>(
    alloc: Global,
    format: Format,
    lists: &Lists,
    digests: &[ListDigests],
) -> Result<DictionaryTree, OutOfMemory>
    requires { digests.now ≡ all_list_digests H.hash format lists.now }
    ensures dictionary { IfOk result (λ made. made.dictionary ≡ map (dict_entry H.hash format) lists.now) }
    ensures nodes { IfOk result (λ made. made.nodes ≡ kept_digests H.hash (dict_leaves made.dictionary)) }
{
    let dictionary = dictionary_of::<H>(alloc, format, lists, digests)?;
    let nodes = dictionary_nodes::<H>(alloc, &dictionary)?;
    Ok(DictionaryTree { dictionary, nodes })
}
