//! The public types of the rooms cross threads.

fn cross<T: Send + Sync>() {}

#[test]
fn types_of_texts_and_trees_cross_threads() {
    cross::<ats_hash::Steps>();
    cross::<ats_hash::Sha>();
    cross::<ats_hash::Weak>();
    cross::<ats_tree::Nodes>();
    cross::<ats_tree::Digests>();
    cross::<ats_tree::OutOfMemory>();
    cross::<ats_tree::TreeFault>();
    cross::<ats_tree::HashedString>();
    cross::<ats_tree::Place>();
    cross::<ats_tree::Tree>();
    cross::<ats_tree::Clash<ats_tree::HashedString>>();
    cross::<ats_tree::ComparedPart<ats_tree::HashedString>>();
    cross::<ats_terms::OutOfMemory>();
    cross::<ats_terms::QueryFault>();
    cross::<ats_terms::Terms>();
    cross::<ats_terms::TermCounts>();
    cross::<ats_terms::Query>();
    cross::<ats_terms::Spot>();
    cross::<ats_impact::OutOfMemory>();
    cross::<ats_impact::ROut>();
    cross::<ats_impact::CollectionFault>();
    cross::<ats_impact::Top>();
    cross::<ats_impact::Row>();
    cross::<ats_impact::Rows>();
    cross::<ats_impact::Texts>();
    cross::<ats_impact::Collection>();
    cross::<ats_dict::Dictionary>();
    cross::<ats_dict::DictLeaf<'static>>();
    cross::<ats_dict::OutOfMemory>();
    cross::<ats_dict::Spot>();
    cross::<ats_dict::Header>();
    cross::<ats_doctree::DocTerms>();
    cross::<ats_doctree::OutOfMemory>();
    cross::<ats_doctree::Spot>();
    cross::<ats_doctree::DocLeaf>();
}

#[test]
fn types_of_archives_cross_threads() {
    cross::<ats_lists::OutOfMemory>();
    cross::<ats_lists::Chain>();
    cross::<ats_lists::Format>();
    cross::<ats_lists::ListDigests>();
    cross::<ats_postings::Entry>();
    cross::<ats_lists::ListsBuilder<'static>>();
    cross::<ats_lists::Lists>();
    cross::<ats_lists::ListLeaves<'static>>();
    cross::<ats_commit::DocLeaves<'static>>();
    cross::<ats_commit::TextLeaves<'static>>();
    cross::<ats_index::Index<ats_hash::Sha>>();
    cross::<ats_index::LoadFault>();
    cross::<ats_index::OutOfMemory>();
}

#[test]
fn types_of_the_outside_cross_threads() {
    cross::<ats_base::Bytes>();
    cross::<ats_base::MemShelf>();
    cross::<ats_base::MemSink>();
    cross::<ats_base::MemLink>();
    cross::<ats_base::MemCaller>();
    cross::<ats_base::MemDoor>();
    cross::<ats_base::GatherFault>();
    cross::<ats_base::Failed>();
    cross::<ats_base::OutOfMemory>();
}

#[test]
fn types_of_walks_cross_threads() {
    cross::<ats_bound::OutOfMemory>();
    cross::<ats_bound::Bracket>();
    cross::<ats_bound::Lane<'static>>();
    cross::<ats_bound::Walk>();
    cross::<ats_bound::Cut>();
    cross::<ats_bound::Brackets>();
    cross::<ats_bound::Picks>();
    cross::<ats_bound::Work>();
    cross::<ats_bound::Mark>();
    cross::<ats_bound::Share>();
    cross::<ats_bound::Span>();
    cross::<ats_bound::Running<'static>>();
    cross::<ats_bound::Scored<'static>>();
    cross::<ats_tra::OutOfMemory>();
    cross::<ats_tnra::OutOfMemory>();
}

#[test]
fn types_of_proofs_cross_threads() {
    cross::<ats_prover::ProveFault>();
    cross::<ats_proof::Algorithm>();
    cross::<ats_proof::ProofView<'static>>();
    cross::<ats_proof::DictView<'static>>();
    cross::<ats_proof::ListsView<'static>>();
    cross::<ats_proof::ListView<'static>>();
    cross::<ats_proof::ListCursor<'static>>();
    cross::<ats_proof::DocsView<'static>>();
    cross::<ats_proof::DocView<'static>>();
    cross::<ats_proof::DocsCursor<'static>>();
    cross::<ats_proof::TermsView<'static>>();
    cross::<ats_proof::DigestRun<'static>>();
    cross::<ats_proof::Feeder>();
    cross::<ats_grammar::Reader<'static>>();
    cross::<ats_proof::ShapeKind>();
    cross::<ats_proof::ShapeFault>();
    cross::<ats_proof::ProofWriter>();
    cross::<ats_proof::Slot>();
    cross::<ats_proof::TermLeaf<'static>>();
    cross::<ats_proof::OutOfMemory>();
    cross::<ats_client::OutOfMemory>();
    cross::<ats_client::Refusal>();
    cross::<ats_client::Rejection>();
    cross::<ats_client::VerifyFault>();
    cross::<ats_client::Clash>();
}

#[test]
fn types_of_audits_cross_threads() {
    cross::<ats_audit::OutOfMemory>();
    cross::<ats_audit::Verdict>();
    cross::<ats_audit::Verdicts>();
    cross::<ats_audit::Job<'static>>();
    cross::<ats_all_proof::OutOfMemory>();
    cross::<ats_all_proof::BothFault>();
    cross::<ats_all_proof::BothRefusal>();
    cross::<ats_all_proof::BothVerdict>();
    cross::<ats_text_proof::OutOfMemory>();
    cross::<ats_text_proof::TextRefusal>();
    cross::<ats_text_proof::TextClash>();
    cross::<ats_text_proof::TextVerdict>();
    cross::<ats_text_proof::TextView<'static>>();
    cross::<ats_growth_proof::OutOfMemory>();
    cross::<ats_growth_proof::Grown>();
    cross::<ats_growth_proof::GrowFault>();
    cross::<ats_growth_proof::GrowthRefusal>();
    cross::<ats_growth_proof::GrowthVerdict>();
    cross::<ats_growth_proof::GrowthView<'static>>();
}
