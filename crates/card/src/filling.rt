// Filling a signature of any kind, and seeing what hits then.
ghost use Rattle.std.specs.Prelude.{◌≡◌, IfOk};
ghost use Rattle.card.specs.Fills.{Filled, hitting, never_inserted, ascending_of};

use signature::Signature;
use signature::members::is_among;
use std::alloc::{AllocError, Global};

// The lines that a summary speaks of are those below this one.
const SHOWN: u16 = 64;

pub(crate) fn fill<S: Signature>(signature: &mut S, lines: &[u16])
    ensures { Filled S.Signature.has S.Signature.inserts signature.old lines.now signature.new }
{
    for line in lines {
        signature.insert(*line);
    }
}

pub(crate) fn hits<S: Signature>(heap: Global, signature: &S) -> Result<Vec<u16>, AllocError>
    ensures { IfOk result (λ v. v.items ≡ hitting (S.Signature.has signature.now)) }
{
    (0..SHOWN).filter(|line| signature.hit(*line)).collect(heap)
}

// How many of the hits were never inserted.
pub(crate) fn false_hits(hits: &[u16], inserted: &[u16]) -> usize
    ensures { result ≡ never_inserted inserted.now hits.now }
{
    hits.iter()
        .filter(|line| !is_among(**line, inserted))
        .count()
}

// The numbers, all below `end`, each once and in ascending order.
pub(crate) fn ascending(heap: Global, numbers: &[u16], end: u16) -> Result<Vec<u16>, AllocError>
    ensures { IfOk result (λ v. v.items ≡ ascending_of end numbers.now) }
{
    (0..end)
        .filter(|number| is_among(*number, numbers))
        .collect(heap)
}
