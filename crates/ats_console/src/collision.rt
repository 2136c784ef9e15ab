//! The lines that are printed if what is accepted and an archive contain two different strings with the same digest.

ghost use Rattle.std.specs.Prelude.{◌≡◌, IfOk, string_bytes};
ghost use Rattle.ats_console.specs.CollisionLines.{tree_words, lines_of_pair, lines_of_strings, lines_of_collision, lines_of_shard_collision};

use ats_tree::{Place, Tree};
use std::alloc::{AllocError, Global};

fn tree_words(alloc: Global, tree: Tree) -> Result<String, AllocError>
    ensures { IfOk result (λ words. string_bytes words ≡ tree_words tree) }
{
    match tree {
        Tree::Header => format!(in alloc; "header"),
        Tree::Dictionary => format!(in alloc; "dictionary"),
        Tree::List { term } => format!(in alloc; "list {term}"),
        Tree::Documents => format!(in alloc; "documents"),
        Tree::Terms { doc } => format!(in alloc; "terms {doc}"),
    }
}

/// The place of two strings, and each of them after its name, a line each. The strings may have any length.
pub fn pair_lines(
    alloc: Global,
    place: &str,
    name: &str,
    text: &[u8],
    other_name: &str,
    other: &[u8],
) -> Result<Vec<u8>, AllocError>
    ensures { IfOk result (λ lines. lines.items ≡ lines_of_pair place.now name.now text.now other_name.now other.now) }
{
    let text = hex::encode(alloc, text)?;
    let other = hex::encode(alloc, other)?;
    let lines = format!(in alloc; "collision {place}\n{name} {text}\n{other_name} {other}\n")?;
    Ok(lines.into_bytes())
}

/// A place by the words of its tree and its two numbers, the archive's own string, and the string that was checked, a line
/// each. The strings may have any length.
pub fn strings_lines(
    alloc: Global,
    tree: &str,
    depth: u8,
    turns: u32,
    ours: &[u8],
    theirs: &[u8],
) -> Result<Vec<u8>, AllocError>
    ensures { IfOk result (λ lines. lines.items ≡ lines_of_strings tree.now depth turns ours.now theirs.now) }
{
    let place = format!(in alloc; "{tree} depth {depth} turns {turns}")?;
    pair_lines(alloc, place.as_str(), "ours", ours, "theirs", theirs)
}

/// Those of a proof's string.
pub fn collision_lines(
    alloc: Global,
    place: Place,
    ours: &[u8],
    theirs: &[u8],
) -> Result<Vec<u8>, AllocError>
    ensures { IfOk result (λ lines. lines.items ≡ lines_of_collision place ours.now theirs.now) }
{
    let tree = tree_words(alloc, place.tree)?;
    strings_lines(alloc, tree.as_str(), place.depth, place.turns, ours, theirs)
}

/// Those of a string of the proof of a shard, with the number of the shard, from 0, before its tree.
pub fn shard_collision_lines(
    alloc: Global,
    shard: u32,
    place: Place,
    ours: &[u8],
    theirs: &[u8],
) -> Result<Vec<u8>, AllocError>
    ensures { IfOk result (λ lines. lines.items ≡ lines_of_shard_collision shard place ours.now theirs.now) }
{
    let tree = tree_words(alloc, place.tree)?;
    let words = format!(in alloc; "shard {shard} {tree}")?;
    strings_lines(
        alloc,
        words.as_str(),
        place.depth,
        place.turns,
        ours,
        theirs,
    )
}
