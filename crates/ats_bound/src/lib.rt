//! Cuts of inverted lists, brackets of scores, and when an answer is settled.
//!
//! A cut shows the first entries of each list of a query. What is shown bounds the score of each document that it
//! names by a bracket, and that of every other document by a threshold. An answer is settled if these bounds alone
//! prove it right.
//!
//! The room stands on the entries of `ats_postings`, the number of rows of `ats_impact` and the steps of `ats_hash`. A
//! walk shows more of the lists, turn by turn, until an answer is settled: [`Running`] bounds scores by the shown
//! entries only, [`Scored`] is given the scores. [`settled`] returns exactly whether the rules of a settled answer
//! hold, and if any answer is settled, the one from [`choose`] is. Each walk of whole lists takes the turns of one
//! schedule, reports at each cut exactly whether that answer is settled there, and ends, at one cut with one answer. A
//! settled answer is a top answer if the brackets contain the scores. What one shard of a catalog is asked for is a
//! [`Share`] if it goes by scores, else a [`Span`] for each row and a floor: [`Scored`] and [`Running`] report exactly
//! whether a cut shows it. A [`Work`] begins with zero marks. How places are looked up, brackets sorted, what is known
//! kept and open answers found may change freely.
//!
//! ```
//! use ats_impact::Top;
//!
//! let top = Top::new(1)?;
//! let brackets = [
//!     Bracket { doc: 0, lo: 12756, hi: 20394 },
//!     Bracket { doc: 1, lo: 7638, hi: 7638 },
//! ];
//! let picks = choose(alloc, &brackets, top)?; // [0], the place of document 0
//! let done = settled(&brackets, picks.as_slice(), 7638, top); // true
//! ```
#![tactic(auto)]

mod best;
mod bounds;
mod bracket;
mod choosing;
mod cursors;
mod cut;
mod lane;
mod laws;
mod memory;
mod met_documents;
mod pages;
mod picks;
mod running;
mod scored;
mod settling;
mod share;
mod span;
mod turns;
mod unsettled;
mod unshown;
mod walk;
mod work;

pub use bracket::{Bracket, Brackets};
pub use choosing::choose;
pub use cut::Cut;
pub use lane::Lane;
pub use laws::{
    cuts_bound_scores, known_scores_settle_by_the_test, rests_are_held_or_missing,
    scores_are_sums_over_lists, settled_answers_are_top, settled_answers_pass_the_test, walks_end,
    walks_end_at_one_cut, walks_tell_the_chosen_answer,
};
pub use memory::OutOfMemory;
pub use picks::Picks;
pub use running::Running;
pub use scored::Scored;
pub use settling::settled;
pub use share::Share;
pub use span::Span;
pub use walk::Walk;
pub use work::{Mark, Work};
