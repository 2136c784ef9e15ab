//! The index of an archive.

ghost use Rattle.std.specs.Prelude.{◌≡◌, ◌<◌, ◌≤◌, [], ℕ, List, length, map, slice_index_or, IfOk, OnOk, MatchOption};
ghost use Rattle.ats_tree.specs.Kept.{kept_digests};
ghost use Rattle.ats_tree.specs.Tree.{mth};
ghost use Rattle.ats_lists.specs.KeptChain.{kept_chain};
ghost use Rattle.ats_lists.specs.KeptList.{kept_list};
ghost use Rattle.ats_lists.specs.Leaf.{leaf_bytes};
ghost use Rattle.ats_postings.specs.Lists.{lists_of};
ghost use Rattle.ats_postings.specs.declared.entry.Entry.{Entry};
ghost use Rattle.ats_lists.specs.declared.format.Format.TheVariants.{One, Two};
ghost use Rattle.ats_dict.specs.Dictionary.{dict_leaves};
ghost use Rattle.ats_doctree.specs.Impacts.{doc_terms};
ghost use Rattle.ats_doctree.specs.Sentinels.{terms_leaves};
ghost use Rattle.ats_commit.specs.Trees.{dictionary_of, documents_of, leaf_of_terms};
ghost use Rattle.ats_commit.specs.Root.{header_parts, root_of};
ghost use Rattle.ats_commit.specs.Own.{AreTexts};
ghost use Rattle.ats_index.specs.Parts.{all_leaves, archive_in};
ghost use Rattle.ats_index.specs.Inner.Parts.{all_terms};
ghost use Rattle.ats_index.specs.Inner.Kept.{all_list_digests, all_term_digests};
ghost use Rattle.ats_index.specs.Spelling.{IsSpelling, index_bytes};
ghost use Rattle.ats_index.specs.LoadFaults.{IsDifference};

use crate::compare::{Comparer, Takes};
use crate::dictionary::DictionaryTree;
use crate::doc_leaves::DocumentsTree;
use crate::documents::DocumentParts;
use crate::header::header_of;
use crate::memory::OutOfMemory;
use crate::write::{index_size, put_lists, put_texts};
use ats_base::Bytes;
use ats_commit::root_of_header_in;
use ats_dict::{Dictionary, Header};
use ats_doctree::{DocLeaf, DocTerms};
use ats_hash::{Hash32, HashKind, Steps};
use ats_impact::Collection;
use ats_lists::{Chain, Format, ListDigests, Lists};
use ats_tree::Nodes;
use std::alloc::Global;
use std::marker::{Model, PhantomData};

/// A collection of 1 to 65,536 texts with all that its root commits to, under a hash function. Its lists are hashed in one
/// format.
///
/// It keeps its allocator, the digests of its lists, and those of all nodes of its trees except the texts tree: about 64
/// bytes a leaf.
#[derive(Drop)]
pub struct Index<H: HashKind> {
    pub(crate) alloc: Global,
    format: Format,
    collection: Collection,
    lists: Lists,
    dictionary: Dictionary,
    terms: Vec<DocTerms>,
    leaves: Vec<DocLeaf>,
    header: Header,
    root: [u8; 32],
    list_digests: Vec<ListDigests>,
    term_nodes: Vec<Nodes>,
    dict_nodes: Nodes,
    docs_nodes: Nodes,
    kind: PhantomData<H>,
}

impl<H: HashKind> Model for Index<H> {
    ghost use Rattle.ats_commit.specs.Archive.{Archive};
    ghost use Rattle.ats_index.specs.Parts.{archive_in};
    ghost use Rattle.ats_index.specs.Inner.Parts.{IsIndexOf};
    ghost use Rattle.ats_index.specs.Inner.Kept.{AreNodesOf};

    ghost Value = { Archive };

    ghost view = { λ i. archive_in i.format i.collection };

    ghost invariant = { λ i.
        IsIndexOf H.hash (archive_in i.format i.collection) i.lists i.dictionary i.terms.items i.leaves.items i.header i.root
        × AreNodesOf H.hash (archive_in i.format i.collection) i.list_digests.items i.term_nodes.items i.dict_nodes i.docs_nodes };
}

impl<H: HashKind> Index<H> {
    /// The root of the archive.
    pub fn root(&self) -> [u8; 32]
        ensures { result ≡ root_of H.hash self.now }
    {
        self.root
    }

    /// How the lists are hashed.
    pub fn format(&self) -> Format
        ensures { result ≡ self.now.format }
    {
        self.format
    }

    /// The header. The root is its digest under the format's tag.
    pub fn header(&self) -> &Header
        ensures parts { result.now ≡ header_parts H.hash self.now }
        ensures texts { AreTexts self.now.texts }
    {
        &self.header
    }

    /// The texts.
    pub fn collection(&self) -> &Collection
        ensures same { result.now ≡ self.now.texts }
        ensures texts { AreTexts self.now.texts }
    {
        &self.collection
    }

    /// The texts, without the rest.
    pub fn into_collection(self) -> Collection
        ensures { result ≡ self.texts }
    {
        self.collection
    }

    /// The inverted lists.
    pub fn lists(&self) -> &Lists
        ensures { result.now ≡ lists_of self.now.texts }
    {
        &self.lists
    }

    /// The distinct terms, each with the number of its documents and the root of its list.
    pub fn dictionary(&self) -> &Dictionary
        ensures { result.now ≡ dictionary_of H.hash self.now }
    {
        &self.dictionary
    }

    /// The terms of a document, counted from 0, with their impacts.
    pub fn doc_terms(&self, doc: u32) -> &DocTerms
        requires { doc < length self.now.texts }
        ensures { result.now ≡ doc_terms self.now.texts doc }
    {
        &self.terms[doc as usize]
    }

    /// The leaf of a document, counted from 0, in the documents tree.
    pub fn doc_leaf(&self, doc: u32) -> &DocLeaf
        requires { doc < length self.now.texts }
        ensures { result.now ≡ leaf_of_terms H.hash (doc_terms self.now.texts doc) }
    {
        &self.leaves[doc as usize]
    }

    /// The leaves of all documents in the documents tree, in the order of documents: 1 to 65,536.
    pub fn doc_leaves(&self) -> &[DocLeaf]
        ensures leaves { result.now ≡ all_leaves H.hash self.now.texts }
        ensures few { length result.now ≤ 65536 }
    {
        &self.leaves
    }

    /// The digests of list `i`, counted from 0.
    pub fn list_digests(&self, i: u32) -> &ListDigests
        requires { i < length (lists_of self.now.texts) }
        ensures { (d : List ℕ × List Entry)
            → result.now ≡ kept_list H.hash self.now.format (slice_index_or (lists_of self.now.texts) i d).1 }
    {
        &self.list_digests[i as usize]
    }

    /// The digests of the tree of list `i`, counted from 0, if each list is one tree.
    pub fn list_nodes(&self, i: u32) -> &Nodes
        requires inside { i < length (lists_of self.now.texts) }
        requires format { self.now.format ≡ One }
        ensures { (d : List ℕ × List Entry)
            → result.now ≡ kept_digests H.hash (map leaf_bytes (slice_index_or (lists_of self.now.texts) i d).1) }
    {
        match self.list_digests(i) {
            ListDigests::Tree(nodes) => nodes,
            ListDigests::Blocks(_) => unreachable!(),
        }
    }

    /// The digests of list `i`, counted from 0, if the lists are in blocks.
    pub fn list_chain(&self, i: u32) -> &Chain
        requires inside { i < length (lists_of self.now.texts) }
        requires format { self.now.format ≡ Two }
        ensures { (d : List ℕ × List Entry)
            → result.now ≡ kept_chain H.hash (map leaf_bytes (slice_index_or (lists_of self.now.texts) i d).1) }
    {
        match self.list_digests(i) {
            ListDigests::Tree(_) => unreachable!(),
            ListDigests::Blocks(chain) => chain,
        }
    }

    /// The digests of the tree of a document's terms. Documents are counted from 0.
    pub fn doc_nodes(&self, doc: u32) -> &Nodes
        requires { doc < length self.now.texts }
        ensures { result.now ≡ kept_digests H.hash (terms_leaves (doc_terms self.now.texts doc)) }
    {
        &self.term_nodes[doc as usize]
    }

    /// The digests of the dictionary's tree.
    pub fn dict_nodes(&self) -> &Nodes
        ensures { result.now ≡ kept_digests H.hash (dict_leaves (dictionary_of H.hash self.now)) }
    {
        &self.dict_nodes
    }

    /// The digests of the documents tree.
    pub fn docs_nodes(&self) -> &Nodes
        ensures { result.now ≡ kept_digests H.hash (documents_of H.hash self.now.texts) }
    {
        &self.docs_nodes
    }

    /// The bytes of the index. Numbers are written high byte first: `ATSI`, the version in one byte, 1 for lists that are
    /// trees and 2 for lists in blocks, the number of texts in 4, and each text after its length in 4. Then the number of terms in 4 and, for each in byte order, its
    /// length in one, the term, the number of its entries in 4, and each entry in 6. Then the root.
    pub fn bytes(&self) -> Result<Bytes, OutOfMemory>
        ensures { IfOk result (λ bytes. IsSpelling H.hash bytes self.now) }
    {
        let mut bytes = Bytes::with_room(self.alloc, index_size(&self.collection, &self.lists))?;
        self.put(&mut bytes)?;
        Ok(bytes)
    }

    // Puts the bytes of the index.
    fn put<W: Takes>(&self, to: &mut W) -> Result<(), OutOfMemory>
        ensures bytes { (about : List ℕ) → W.has to.old about []
            → OnOk result (W.has to.new about (index_bytes H.hash self.now)) }
        ensures texts { AreTexts self.now.texts }
    {
        put_texts(to, self.format, &self.collection)?;
        put_lists(to, &self.lists)?;
        to.put(&self.root)?;
        Ok(())
    }

    /// The first place where these bytes differ from those of the index, if they do. The bytes of the index are not
    /// kept: they are compared while they are written.
    pub(crate) fn difference(&self, bytes: &[u8]) -> Result<Option<u64>, OutOfMemory>
        ensures { IfOk result (λ found.
            MatchOption found (bytes.now ≡ index_bytes H.hash self.now)
            (IsDifference bytes.now (index_bytes H.hash self.now))) }
    {
        let mut comparer = Comparer::new(bytes);
        self.put(&mut comparer)?;
        Ok(comparer.difference())
    }
}

impl<H: Hash32> Index<H> {
    // The index of a collection in this format, from its lists, the terms of its documents, and the digests of all these.
    pub(crate) fn assembled(
        alloc: Global,
        format: Format,
        collection: Collection,
        parts: DocumentParts,
        dictionary: DictionaryTree,
        documents: DocumentsTree,
        texts_root: [u8; 32],
    ) -> Self
        requires lists { parts.lists ≡ lists_of collection }
        requires terms { parts.terms.items ≡ all_terms collection }
        requires term_nodes { parts.term_nodes.items ≡ all_term_digests H.hash collection }
        requires list_digests { parts.list_digests.items ≡ all_list_digests H.hash format (lists_of collection) }
        requires dictionary { dictionary.dictionary ≡ dictionary_of H.hash (archive_in format collection) }
        requires dict_nodes { dictionary.nodes ≡ kept_digests H.hash (dict_leaves dictionary.dictionary) }
        requires leaves { documents.leaves.items ≡ all_leaves H.hash collection }
        requires docs_nodes { documents.nodes ≡ kept_digests H.hash (documents_of H.hash collection) }
        requires texts_root { texts_root ≡ mth H.hash collection }
        ensures { result ≡ archive_in format collection }
    {
        let header = header_of::<H>(&collection, &dictionary, &documents, texts_root);
        let root = root_of_header_in::<H>(format, &header, &mut Steps::new(alloc));
        let DocumentParts {
            lists,
            list_digests,
            terms,
            term_nodes,
        } = parts;
        let DictionaryTree {
            dictionary,
            nodes: dict_nodes,
        } = dictionary;
        let DocumentsTree {
            leaves,
            nodes: docs_nodes,
        } = documents;
        Index {
            alloc,
            format,
            collection,
            lists,
            dictionary,
            terms,
            leaves,
            header,
            root,
            list_digests,
            term_nodes,
            dict_nodes,
            docs_nodes,
            kind: PhantomData,
        }
    }
}
