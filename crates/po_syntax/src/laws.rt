//! Laws of PO texts, each the contract of a function that does nothing: a call brings the law into
//! a proof.
ghost use Rattle.std.specs.Prelude.{◌≡◌, ◌≢◌, ◌⊎◌, ◌<◌, ◌≤◌, ℕ, List, [], ◌∷◌, ◌++◌, length, All, IsUtf8, ◌^◌, take};
ghost use Rattle.po_syntax.specs.declared.fault.PoFault.{PoFault};
ghost use Rattle.po_syntax.specs.Prelude.{SpellsString, HoldsText, TextItem, LineFault, HasFaultOnLine, ItemsAreOnTheirLines, MarkIsOmitted, LinesLeft, SpellsLeft, LeftStops, IsPiece, EndsInComment, EndsInString, lines_len, LeftAnew, SpellsText, TextFault, quoted, written_bytes, WritesQuoted, lettered_bytes, lettered_text, HoldsItems};
ghost use Rattle.po_syntax.specs.Internal.{OpeningQuote, token_at};

/// A text spells at most one list of items.
#[tactic(auto, using(crate::proofs::OneOutcome::text_once))]
pub fn one_reading()
    ensures { (text : List ℕ) (items others : List TextItem)
        → SpellsText text items → SpellsText text others → items ≡ others }
{}

/// No text both spells items and has a fault.
#[tactic(auto, using(crate::proofs::OneOutcome::text_not_faulty))]
pub fn no_fault_where_items()
    ensures { (text : List ℕ) (items : List TextItem) (fault : PoFault) (line : ℕ)
        → SpellsText text items → TextFault text fault line → ⊥ }
{}

/// A text has at most one first fault, on one line.
#[tactic(auto, using(crate::proofs::OneOutcome::fault_once))]
pub fn one_fault()
    ensures { (text : List ℕ) (fault other : PoFault) (line index : ℕ)
        → TextFault text fault line → TextFault text other index
        → (fault ≡ other) × (line ≡ index) }
{}

/// Every text either spells items or has a first fault.
pub fn items_or_fault()
    ensures { (text : List ℕ)
        → ((items : List TextItem) × SpellsText text items)
        ⊎ ((fault : PoFault) × (line : ℕ) × TextFault text fault line) }
{}

/// No fault of a text is out of memory.
#[tactic(auto, using(crate::proofs::Faults::text_reported))]
pub fn no_fault_is_memory()
    ensures { (text : List ℕ) (fault : PoFault) (line : ℕ)
        → TextFault text fault line → fault ≢ PoFault.OutOfMemory }
{}

/// After an opening quote a text spells at most one string, which ends at one place.
#[tactic(auto, using(crate::proofs::OneOutcome::strings_once))]
pub fn one_string()
    ensures { (text bytes others rest end : List ℕ)
        → SpellsString text bytes rest → SpellsString text others end
        → (bytes ≡ others) × (rest ≡ end) }
{}

/// A line holds items, at most one list of them, or has a fault, at most one, and not both.
pub fn items_or_fault_of_line()
    ensures some { (line : ℕ) (text : List ℕ)
        → ((items : List TextItem) × HoldsItems line text items) ⊎ ((fault : PoFault) × LineFault text fault) }
    ensures items { (line : ℕ) (text : List ℕ) (items others : List TextItem)
        → HoldsItems line text items → HoldsItems line text others → items ≡ others }
    ensures fault { (text : List ℕ) (fault other : PoFault)
        → LineFault text fault → LineFault text other → fault ≡ other }
    ensures either { (line : ℕ) (text : List ℕ) (items : List TextItem) (fault : PoFault)
        → HoldsItems line text items → LineFault text fault → ⊥ }
{}

/// The line of an item is one more than the LFs before it, and that line holds the item. So is the
/// line of a fault, which is 0 only for a text that is too long.
#[tactic(auto, using(crate::proofs::LineNumbers::items_on_lines, crate::proofs::LineNumbers::fault_on_line))]
pub fn lines_are_numbered()
    ensures items { (text : List ℕ) (items : List TextItem) → ItemsAreOnTheirLines text items }
    ensures fault { (text : List ℕ) (fault : PoFault) (line : ℕ)
        → TextFault text fault line → HasFaultOnLine text fault line }
{}

/// A text after the bytes EF BB BF spells the items of the text, if it is within the limit and
/// doesn't begin with these bytes itself.
pub fn byte_order_mark_is_omitted()
    ensures { (text : List ℕ) (items : List TextItem) → MarkIsOmitted text items }
{}

/// The quoted form of bytes is a quote, what is written for each byte, and a quote.
#[tactic(auto, using(crate::proofs::QuotedForms::quoted_written))]
pub fn quoted_form_is_written()
    ensures { (bytes : List ℕ) → WritesQuoted bytes (quoted bytes) }
{}

/// Each escape of one letter is read and written as the manual has it, worked out by hand.
pub fn letters_are_escaped()
    ensures read { (rest : List ℕ) → SpellsString (lettered_text ++ 34 ∷ rest) lettered_bytes rest }
    ensures written { quoted lettered_bytes ≡ 34 ∷ (lettered_text ++ 34 ∷ []) }
{}

/// The quoted form of bytes without NUL spells just these bytes, and its last byte is the closing
/// quote.
pub fn quoted_form_spells()
    ensures spelt { (bytes rest : List ℕ) → All (λ b. (0 < b) × (b < 256)) bytes
        → SpellsString (written_bytes bytes ++ 34 ∷ rest) bytes rest }
    ensures read { (bytes rest : List ℕ) → All (λ b. (0 < b) × (b < 256)) bytes
        → (inside : List ℕ) × (token_at (quoted bytes ++ rest) ≡ OpeningQuote inside)
        × SpellsString inside bytes rest }
{}

/// The comments of a text are UTF-8 on one line without NUL and without CRs at their end, and its
/// strings hold no NUL.
#[tactic(auto, using(crate::proofs::ItemTexts::text_items))]
pub fn items_hold_text()
    ensures { (text : List ℕ) (items : List TextItem) → SpellsText text items → All HoldsText items }
{}

/// The quoted form of a UTF-8 text is UTF-8, and that of any bytes holds no byte below space.
#[tactic(auto, using(crate::proofs::QuotedForms::quoted_utf8, crate::proofs::QuotedForms::quoted_shown))]
pub fn quoted_form_holds_text()
    ensures utf8 { (bytes : List ℕ) → IsUtf8 bytes → IsUtf8 (quoted bytes) }
    ensures shown { (bytes : List ℕ)
        → All (λ b. b < 256) bytes → All (λ b. 32 ≤ b) (quoted bytes) }
{}

/// After a piece, what is left reads on: where it spells items, what was left before spells those
/// of the piece and then these; its first fault is the first fault of what was left before; and it
/// begins with no item with which an entry of the piece could go on. A piece ends in a string, or
/// from 65,536 bytes on in a comment, or the text ends with it.
pub fn pieces_are_cut_off()
    ensures spelt { (size : ℕ) (old new : LinesLeft) (items more : List TextItem)
        → IsPiece size old new items → SpellsLeft new more → SpellsLeft old (items ++ more) }
    ensures all { (size : ℕ) (old new : LinesLeft) (items : List TextItem)
        → IsPiece size old new items → new.lines ≡ [] → SpellsLeft old items }
    ensures stops { (size : ℕ) (old new : LinesLeft) (items : List TextItem) (fault : PoFault) (line : ℕ)
        → IsPiece size old new items → LeftStops new fault line → LeftStops old fault line }
    ensures ends { (size : ℕ) (old new : LinesLeft) (items : List TextItem) (piece : IsPiece size old new items)
        → (new.lines ≡ []) ⊎ EndsInString items
        ⊎ ((2 ^ 16 ≤ lines_len (take piece.read.count old.lines)) × EndsInComment items) }
    ensures anew { (size : ℕ) (old new : LinesLeft) (items : List TextItem)
        → IsPiece size old new items → LeftAnew new }
    ensures shorter { (size : ℕ) (old new : LinesLeft) (items : List TextItem)
        → IsPiece size old new items → old.lines ≢ [] → length new.lines < length old.lines }
{}
