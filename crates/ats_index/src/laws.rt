//! The laws of an index's bytes, as contracts of functions that do nothing.

ghost use Rattle.std.specs.Prelude.{◌≡◌, ◌<◌, ◌≤◌, ◌^◌, ◌⊎◌, ℕ, List, length};
ghost use Rattle.std.specs.List.{All};
ghost use Rattle.ats_commit.specs.Archive.{Archive};
ghost use Rattle.ats_index.specs.Spelling.{IsSpelling};
ghost use Rattle.ats_index.specs.LoadFaults.{IsLoadFault};
ghost use Rattle.ats_index.specs.declared.load.LoadFault.TheVariants.{BadIndex};

use ats_hash::HashKind;

/// Index bytes determine the archive: they are the spelling of one archive at most.
pub fn index_bytes_say_one_archive<H: HashKind>()
    ensures { (bytes : List ℕ) (archive other : Archive)
        → IsSpelling H.hash bytes archive → IsSpelling H.hash bytes other → archive ≡ other }
{}

/// Bytes are an archive's index or a bad index, never both. A bad index has exactly one place of fault.
pub fn bad_indexes_have_one_place<H: HashKind>()
    ensures one { (bytes : List ℕ) (at other : ℕ)
        → IsLoadFault H.hash bytes (BadIndex at) → IsLoadFault H.hash bytes (BadIndex other) → at ≡ other }
    ensures some { (bytes : List ℕ) → All (λ b. b < 256) bytes
        → ((archive : Archive) × IsSpelling H.hash bytes archive)
        ⊎ ((at : ℕ) × IsLoadFault H.hash bytes (BadIndex at)) }
    ensures none { (bytes : List ℕ) (at : ℕ) (archive : Archive)
        → IsLoadFault H.hash bytes (BadIndex at) → ¬ IsSpelling H.hash bytes archive }
{}

/// An index has at most 2^29 bytes, which is the limit of an index file. Its texts take at most 2^24 bytes and 4 for
/// the length of each, after the first 9 bytes. They have at most 2^24 terms, so at most as many entries of 6 bytes,
/// and as many distinct terms with 5 bytes more. A term has at most 12 bytes for each byte of its word, since a
/// character folds to at most three, of at most 4 bytes. The root has 32.
pub fn index_bytes_are_few<H: HashKind>()
    ensures { (bytes : List ℕ) (archive : Archive) → IsSpelling H.hash bytes archive → length bytes ≤ 2 ^ 29 }
{}
