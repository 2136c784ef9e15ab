//! The first clash of what the first leaves of a list in blocks give.

ghost use Rattle.std.specs.Prelude.{◌≡◌, ℕ, ◌+◌, ◌*◌, ◌^◌, ◌<◌, ◌≤◌, List, length, map, min, All, IsSome, option_map};
ghost use Rattle.std.specs.Option.{option_or};
ghost use Rattle.std.specs.List.{range_with_len};
ghost use Rattle.ats_tree.specs.Differences.{moved, collision_or, first_collision};
ghost use Rattle.ats_tree.specs.Part.{RisesFrom, IsPart};
ghost use Rattle.ats_tree.specs.Rebuild.{need};
ghost use Rattle.ats_tree.specs.Shown.{places, positions_of};
ghost use Rattle.ats_tree.specs.Strings.{strings};
ghost use Rattle.ats_tree.specs.Tree.{tree_of};
ghost use Rattle.ats_lists.specs.Blocks.{blocks_in};
ghost use Rattle.ats_lists.specs.Inner.BlockRoots.{AreBlockRoots};
ghost use Rattle.ats_lists.specs.ChainClash.{list_difference_of};
ghost use Rattle.ats_lists.specs.Inner.ChainClash.{numbers_in, IsFirstInTrees, link_at};
ghost use Rattle.ats_lists.specs.ChainPrefix.{block_need, chain_rebuilt, chain_strings};

use crate::chain_rebuilding::{BLOCK, BLOCKS, pass_next};
use crate::own_list::OwnList;
use ats_hash::{Hash32, Steps};
use ats_tree::{
    Clash, ComparedPart, HashedString, OwnNodes, Revealed, collides, first_clash_in_part,
};

/// The tree of one block, of a list of our own.
#[derive(Drop)]
struct OwnBlock<'o, O> {
    own: &'o O,
    block: u32,
    pub ghost few: { block < 1024 },
}

impl<O: OwnList> OwnNodes<HashedString> for OwnBlock<'_, O> {
    ghost use Rattle.ats_lists.specs.Inner.ChainClash.{ours_in};

    ghost ours = { λ b node. ours_in (O.ours b.own.now) b.block node };

    fn at(&self, depth: u8, turns: u32) -> Option<HashedString> {
        if depth > 6 {
            return None;
        }
        let place = turns % (1 << depth);
        self.own.at(1 + depth, BLOCK * self.block + place)
    }
}

/// The first clash in the trees of some blocks, and the block where it is. If there is none, `block` is the number of
/// the blocks.
#[derive(Clone, Copy)]
struct TreeClash {
    block: usize,
    clash: Option<Clash<HashedString>>,
}

/// The first clash between our own strings and those that rebuilding the digest of a list of `f` leaves in blocks
/// hashes, from its first `k` leaves: a block's string, the strings of its tree in pre-order, then the next block's.
/// Our string is hashed only if it differs from theirs. The depth and the turns of the clash are its two numbers.
pub fn chain_first_clash<'a, H: Hash32, R: Revealed<'a>, O: OwnList>(
    f: u32,
    k: u32,
    revealed: &mut R,
    own: &O,
    steps: &mut Steps,
) -> Option<Clash<HashedString>>
    requires rebuilds { IsSome (chain_rebuilt H.hash f (R.shown revealed.old) (R.digests revealed.old)) }
    requires few { k ≤ 65536 }
    requires front { positions_of (R.shown revealed.old) ≡ range_with_len 0 k }
    requires short { All (λ s. length s.1 ≤ 127) (R.shown revealed.old) }
    requires space { steps.old ≤ 2 ^ 63 }
    ensures clash { option_map list_difference_of result ≡ first_collision H.hash (O.ours own.now)
        (chain_strings H.hash f (R.shown revealed.old) (R.digests revealed.old)) }
    ensures cost { steps.new ≤ steps.old + 5 * f }
{
    // Digests have 32 bytes.
    let _facts = revealed.position();
    let blocks = k.div_ceil(BLOCK);
    let mut all = [[0; 32]; BLOCKS];
    let roots = &mut all[..blocks as usize];
    let first = search_trees::<H, R, O>(f, roots, revealed, own, steps);
    let Some(next) = pass_next::<R>(BLOCK * blocks < f, revealed, steps) else {
        unreachable!()
    };
    search_links::<H, O>(roots, next, first, own, steps)
}

/// The first clash in the trees of the blocks of which some leaf is shown, of a list of `f` leaves. It rebuilds their
/// roots.
fn search_trees<'a, H: Hash32, R: Revealed<'a>, O: OwnList>(
    f: u32,
    roots: &mut [[u8; 32]],
    revealed: &mut R,
    own: &O,
    steps: &mut Steps,
) -> TreeClash
    requires some { 1 ≤ length (R.shown revealed.old) }
    requires front { positions_of (R.shown revealed.old) ≡ range_with_len 0 (length (R.shown revealed.old)) }
    requires within { length (R.shown revealed.old) ≤ f }
    requires size { length roots.old ≡ blocks_in (length (R.shown revealed.old)) }
    requires few { length (R.shown revealed.old) ≤ 65536 }
    requires enough { block_need f (R.shown revealed.old) ≤ length (R.digests revealed.old) }
    requires short { All (λ s. length s.1 ≤ 127) (R.shown revealed.old) }
    requires space { steps.old + 5 * f < 2 ^ 64 }
    ensures whole { AreBlockRoots H.hash f (R.shown revealed.old) (R.digests revealed.old) roots.new
        (R.shown revealed.new) (R.digests revealed.new) }
    ensures first { IsFirstInTrees H.hash (O.ours own.now) f (R.shown revealed.old) (R.digests revealed.old)
        (length roots.new) result.block (option_map list_difference_of result.clash) }
    // Each block leaves two steps, which its own string takes.
    ensures cost { steps.new + 2 * length roots.new ≤ steps.old + 5 * min f (64 * length roots.new) }
{
    let mut first = TreeClash {
        block: roots.len(),
        clash: None,
    };
    for j in 0..roots.len() {
        let block = j as u32;
        let n = BLOCK.min(f - BLOCK * block);
        let tree = search_tree::<H, R, O>(block, n, revealed, own, steps);
        roots[j] = tree.digest;
        if first.clash.is_none() && tree.clash.is_some() {
            first = TreeClash {
                block: j,
                clash: tree.clash,
            };
        }
    }
    first
}

/// The first clash in the tree of one block, which has `n` places, with the digest of this tree.
fn search_tree<'a, H: Hash32, R: Revealed<'a>, O: OwnList>(
    block: u32,
    n: u32,
    revealed: &mut R,
    own: &O,
    steps: &mut Steps,
) -> ComparedPart<HashedString>
    requires inside { block < 1024 }
    requires some { 1 ≤ n }
    requires few { n ≤ 64 }
    requires rising { RisesFrom (64 * block) (R.shown revealed.old) }
    requires enough { need (tree_of (places (64 * block) n (R.shown revealed.old))) ≤ length (R.digests revealed.old) }
    requires short { All (λ s. length s.1 ≤ 127) (R.shown revealed.old) }
    requires space { steps.old + 5 * n < 2 ^ 64 }
    ensures whole { IsPart H.hash (64 * block) n (R.shown revealed.old) (R.digests revealed.old)
        result.digest (R.shown revealed.new) (R.digests revealed.new) }
    ensures clash { option_map list_difference_of result.clash ≡ first_collision H.hash (O.ours own.now)
        (map (moved (numbers_in block))
        (strings H.hash (tree_of (places (64 * block) n (R.shown revealed.old))) (R.digests revealed.old))) }
    ensures cost { steps.new + 2 ≤ steps.old + 5 * n }
{
    let start = BLOCK * block;
    let nodes: OwnBlock<'_, O> = OwnBlock { own, block };
    let ComparedPart { digest, clash } = first_clash_in_part::<H, R, HashedString, _>(
        start, n, revealed, &nodes, steps,
    );
    let Some(clash) = clash else {
        return ComparedPart {
            digest,
            clash: None,
        };
    };
    let clash = Clash {
        depth: 1 + clash.depth,
        turns: start + clash.turns,
        ours: clash.ours,
        theirs: clash.theirs,
    };
    ComparedPart {
        digest,
        clash: Some(clash),
    }
}

/// The first clash of some blocks with these roots, if `next` is the digest after the last of them, and `first` is the
/// first clash in their trees. The string of a block comes before those of its tree.
fn search_links<H: Hash32, O: OwnList>(
    roots: &[[u8; 32]],
    next: [u8; 32],
    first: TreeClash,
    own: &O,
    steps: &mut Steps,
) -> Option<Clash<HashedString>>
    requires few { length roots.now ≤ 1024 }
    requires space { steps.old + 2 * length roots.now < 2 ^ 64 }
    ensures clash { option_map list_difference_of result ≡ option_or (first_collision H.hash (O.ours own.now)
        (map (link_at H.hash roots.now next) (range_with_len 0 (min (length roots.now) (first.block + 1)))))
        (option_map list_difference_of first.clash) }
    ensures cost { steps.new ≤ steps.old + 2 * length roots.now }
{
    let mut digest = next;
    let mut clash = first.clash;
    for j in (0..roots.len()).rev() {
        let root = roots[j];
        let theirs = HashedString::tagged(3, &root, &digest);
        digest = H::digest2(3, &root, &digest, steps);
        if j <= first.block {
            clash = link_clash_or::<H, O>(own, BLOCK * j as u32, theirs, &digest, clash, steps);
        }
    }
    clash
}

/// The clash of a block's string with ours, if we have one that differs from it and has its digest, which is given;
/// else `later`.
fn link_clash_or<H: Hash32, O: OwnList>(
    own: &O,
    turns: u32,
    theirs: HashedString,
    digest: &[u8; 32],
    later: Option<Clash<HashedString>>,
    steps: &mut Steps,
) -> Option<Clash<HashedString>>
    requires digest { digest.now ≡ H.hash theirs }
    requires space { steps.old + 1 < 2 ^ 64 }
    ensures clash { option_map list_difference_of result
        ≡ collision_or H.hash (O.ours own.now (record { depth = 0; turns = turns }))
        (record { place = record { depth = 0; turns = turns }; text = theirs }) (option_map list_difference_of later) }
    ensures cost { steps.new ≤ steps.old + 1 }
{
    match own.at(0, turns) {
        Some(ours) if collides::<H, _>(&ours, &theirs, digest, steps) => Some(Clash {
            depth: 0,
            turns,
            ours,
            theirs,
        }),
        _ => later,
    }
}
