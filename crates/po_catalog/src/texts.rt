//! Whether texts that are given can stand in an entry.

ghost use Rattle.std.specs.Prelude.{MatchResult, All, IsTrue, ◌↔◌};
ghost use Rattle.po_catalog.specs.Prelude.{EntryTextFault, HasTexts, Meets, borrowed_entry, quoted_texts};

use po_entry::{EOT, NUL, Need, meets, optional_meets};
use po_syntax::PoFault;

/// Whether an entry can have these texts. Refused with `NotUtf8` where a text is not UTF-8, then
/// with `ForbiddenByte` for a NUL, or for an EOT (byte 4) in its context or msgid.
pub(crate) fn check_texts(
    context: Option<&[u8]>,
    id: &[u8],
    plural: Option<&[u8]>,
    forms: &[&[u8]],
) -> Result<(), PoFault>
    ensures { MatchResult result (λ _. HasTexts (borrowed_entry context.entry id.now plural.entry forms.now))
        (EntryTextFault (borrowed_entry context.entry id.now plural.entry forms.now)) }
{
    if !all_meet(Need::Utf8, context, id, plural, forms) {
        return Err(PoFault::NotUtf8);
    }
    if !all_meet(Need::Without(NUL), context, id, plural, forms) {
        return Err(PoFault::ForbiddenByte);
    }
    let lacks_eot = optional_meets(Need::Without(EOT), context) & meets(Need::Without(EOT), id);
    if !lacks_eot {
        return Err(PoFault::ForbiddenByte);
    }
    Ok(())
}

/// Whether all texts meet the need.
fn all_meet(
    need: Need,
    context: Option<&[u8]>,
    id: &[u8],
    plural: Option<&[u8]>,
    forms: &[&[u8]],
) -> bool
    ensures { IsTrue result
        ↔ All (Meets need) (quoted_texts (borrowed_entry context.entry id.now plural.entry forms.now)) }
{
    // `&` and not `&&`: without branches, so that the proof takes one operand after another.
    optional_meets(need, context)
        & meets(need, id)
        & optional_meets(need, plural)
        & forms.iter().all(|form| meets(need, form))
}
