//! The end of a walk of the lists.

use crate::bracket::Brackets;
use crate::cut::Cut;
use crate::picks::Picks;

/// The cut at which a walk ends, the brackets of the documents met there, the places of the chosen answer among them,
/// and the most that any other document can score.
#[derive(Drop)]
pub struct Walk {
    pub cut: Cut,
    pub brackets: Brackets,
    pub picks: Picks,
    pub threshold: u64,
}
