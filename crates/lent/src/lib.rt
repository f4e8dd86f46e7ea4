// Settling on a single entry that is lent, amended where it stands. What decides is by value; the lent entry is only read and stored back.
#![tactic(auto)]

ghost use Rattle.std.specs.Prelude.{◌≡◌};
ghost use Rattle.terms.specs.Refusals.{answer_of};
ghost use Rattle.entry.specs.Acts.{told};
ghost use Rattle.lent.specs.Lent.{fits_alone, fits_decrement, lent};

use entry::{Act, Entry, ReturnCount, Weight};
use terms::Refusal;

// A decrement is settled on the entry. Refused, the entry stays as it was.
#[tactic(auto, unfolding(crate::specs::Lent::lent))]
pub fn settle(e: &mut Entry, m: ReturnCount, n: Weight) -> Result<(), Refusal>
    ensures { (answer_of result ≡ (lent e.old m n).refusal) × (e.new ≡ (lent e.old m n).entry) }
{
    let act = settled(*e, m, n);
    *e = act.entry;
    act.refusal.map_or(Ok(()), Err)
}

// The act on the entry by value: a number of the entry or of the decrement that is out of its range is refused first.
#[tactic(auto, using(crate::proofs::LentLaws::lent_in_range), unfolding(crate::specs::Lent::lent))]
fn settled(e: Entry, m: ReturnCount, n: Weight) -> Act<Entry>
    ensures { told result ≡ lent e m n }
{
    if !fits_alone(e) || !decrement_fits(m, n) {
        return Act {
            refusal: Some(Refusal::Shape),
            entry: e,
        };
    }
    e.settled(m, n)
}

// Whether the entry's own numbers are in their ranges.
#[tactic(auto, unfolding(crate::specs::Lent::fits_alone))]
fn fits_alone(e: Entry) -> bool
    ensures { result ≡ fits_alone e }
{
    match e {
        Entry::Absent => true,
        Entry::AtOwner(d) => d.fits(),
        Entry::Elsewhere(remote) => remote.fits(),
    }
}

// Whether the decrement's numbers are in their ranges.
fn decrement_fits(m: ReturnCount, n: Weight) -> bool
    ensures { result ≡ fits_decrement m n }
{
    m.fits() && n.fits()
}
