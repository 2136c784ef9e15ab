//! `growth`: the check that nothing was withdrawn.

ghost use Rattle.std.specs.Prelude.{◌≡◌, IfOk, IfErr};
ghost use Rattle.ats_growth_check.specs.Headline.{IsGrownOrCollides};
ghost use Rattle.ats_growth_check.specs.Value.{Growth};
ghost use Rattle.ats_growth_check.specs.Bytes.{IsAcceptedGrowth};
ghost use Rattle.ats_plan.specs.Runs.{IsDone, IsStopped};
ghost use Rattle.ats_console.specs.Kinds.{CheckStop, growth_kind, line_of_grown};
ghost use Rattle.ats_console.specs.declared.stops.Stop.TheVariants.{Shelf as AtShelf, Memory};
ghost use Rattle.ats_checkers.specs.Commands.{growth_plan};

use ats_base::Shelf;
use ats_console::{GROWTH_FILE_LIMIT, Stop, grown_line, read, refused, rejected};
use ats_growth_check::{GrowthView, check_growth};
use ats_hash::{Hash32, Steps};
use ats_refusal::{Rejection, growth_refusal_words};
use std::alloc::Global;

// The line of the numbers of bytes that are accepted as the growth from one root to the other.
fn growth_to_line<H: Hash32>(
    alloc: Global,
    bytes: &[u8],
    old: &[u8; 32],
    new: &[u8; 32],
) -> Result<Vec<u8>, Stop>
    ensures ok { IfOk result (λ text. (growth : Growth) × IsAcceptedGrowth H.hash old.now new.now bytes.now growth
        × IsGrownOrCollides H.hash old.now new.now growth × (text.items ≡ line_of_grown growth.old.documents growth.new.documents)) }
    ensures stop { IfErr result (CheckStop (growth_kind H.hash old.now new.now) bytes.now) }
{
    let growth = match GrowthView::read(bytes) {
        Ok(growth) => growth,
        Err(fault) => return Err(rejected(Rejection::Shape(fault))),
    };
    let mut steps = Steps::new(alloc);
    match check_growth::<H>(old, new, &growth, &mut steps) {
        Ok(grown) => Ok(grown_line(alloc, grown)?),
        Err(refusal) => Err(refused(growth_refusal_words(refusal))),
    }
}

/// The line of `growth`.
pub(crate) fn growth<H: Hash32, S: Shelf>(
    alloc: Global,
    old: &[u8; 32],
    new: &[u8; 32],
    file: &str,
    shelf: &mut S,
) -> Result<Vec<u8>, Stop>
    ensures ok { IfOk result (λ text. IsDone
        (growth_plan H.hash (record { old = old.now; new = new.now; file = file.now }))
        (S.told shelf.old) (S.told shelf.new) text.items) }
    ensures stop { IfErr result (IsStopped AtShelf Memory
        (growth_plan H.hash (record { old = old.now; new = new.now; file = file.now }))
        (S.told shelf.old) (S.told shelf.new)) }
{
    let bytes = read::shaped(alloc, file, GROWTH_FILE_LIMIT, shelf)?;
    growth_to_line::<H>(alloc, bytes.as_slice(), old, new)
}
