// The lines of the listing, each without the newline that ends it.
ghost use Rattle.std.specs.Prelude.{◌≡◌, ◌++◌, IfOk, string_bytes, decimal};
ghost use Rattle.std.specs.List.{flat_map};
ghost use Rattle.card.specs.Listings.{after_space, spaced_text, insertion_text, summary_text};
ghost use Rattle.card.specs.Fills.{Filled, ascending_of};

use crate::filling::{ascending, false_hits, fill, hits};
use signature::Signature;
use std::alloc::{AllocError, Global};
use std::fmt::Write;

fn sequence(heap: Global, first: u16, rest: &[u16]) -> Result<String, AllocError>
    ensures { IfOk result (λ s. string_bytes s ≡ decimal first ++ flat_map after_space rest.now) }
{
    let mut text = first.to_string(heap)?;
    for number in rest {
        write!(text, " {number}")?;
    }
    Ok(text)
}

fn spaced(heap: Global, numbers: &[u16]) -> Result<String, AllocError>
    ensures { IfOk result (λ s. string_bytes s ≡ spaced_text numbers.now) }
{
    match numbers {
        [] => String::from_str(heap, "none"),
        [first, rest @ ..] => sequence(heap, *first, rest),
    }
}

fn bits_shown(heap: Global, bits: &[u16], end: u16) -> Result<String, AllocError>
    ensures { IfOk result (λ s. string_bytes s ≡ spaced_text (ascending_of end bits.now)) }
{
    let shown = ascending(heap, bits, end)?;
    spaced(heap, &shown)
}

// What the insert of a line sets in the two registers, given its bits in each.
pub fn insertion(
    heap: Global,
    line: u16,
    wide_bits: &[u16],
    narrow_bits: &[u16],
) -> Result<String, AllocError>
    ensures { IfOk result (λ s. string_bytes s ≡ insertion_text line wide_bits.now narrow_bits.now) }
{
    let wide = bits_shown(heap, wide_bits, 1024)?;
    let narrow = bits_shown(heap, narrow_bits, 128)?;
    format!(in heap; "line {line}: 1024-bit register sets {wide}, 128-bit register sets {narrow}")
}

// Inserts the lines, and says which lines hit then and how many of these were never inserted.
pub fn summary<S: Signature>(
    heap: Global,
    name: &str,
    signature: &mut S,
    lines: &[u16],
) -> Result<String, AllocError>
    ensures fills { Filled S.Signature.has S.Signature.inserts signature.old lines.now signature.new }
    ensures tells { IfOk result (λ s. string_bytes s ≡ summary_text name.now (S.Signature.has signature.new) lines.now) }
{
    fill(signature, lines);
    let found = hits(heap, signature)?;
    let shown = spaced(heap, &found)?;
    let falsely = false_hits(&found, lines);
    format!(in heap; "{name}: hits {shown}, {falsely} false")
}
