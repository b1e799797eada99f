//! Substitution in one pass, whatever the pieces ("Invoking the envsubst program" of the GNU
//! gettext manual).
ghost use Rattle.std.specs.Prelude.{◌≡◌, ◌+◌, ◌-◌, ◌*◌, ◌^◌, ◌<◌, ◌≤◌, min, true, false, [], ◌++◌, drop, length, if◌then◌else◌, is_err, IsErr, IfOk, OnOk, OnErr, Err};
ghost use Rattle.std.specs.Io.KnownBytes.{Appends, Keeps};
ghost use Rattle.runs.specs.Prelude.{AppendsPrefix};
ghost use Rattle.envsubst.specs.Prelude.{is_undecided, Advances, Stops, values_of_substituter, substitution, pairs_in, names_given};
ghost use Rattle.envsubst.specs.Internal.Sorted.{values_of_replacements};

use crate::holding::{Step, ending, next_step};
use crate::replacements::Replacements;
use arrayvec::ArrayVec;
use runs::{ByteOut, ToolFault, put_all};
use std::marker::Model;

/// Room for `${` and the longest name.
type Held = ArrayVec<u8, 257>;

/// Replaces the references `$NAME` and `${NAME}` of a text that comes in pieces. It holds back the
/// bytes at a piece's end that may begin a reference, and nothing else, and doesn't allocate.
#[derive(Drop)]
pub struct Substituter<'a> {
    replacements: Replacements<'a>,
    held: Held,
    has_failed: bool,
}

impl<'a> Model for Substituter<'a> {
    ghost use Rattle.std.specs.Prelude.{◌≡◌, true};
    ghost use Rattle.envsubst.specs.Substituter.{SubstituterView};
    ghost use Rattle.envsubst.specs.Holding.{is_undecided};

    ghost Value = { SubstituterView };

    ghost view = { λ s. record {
      vars = s.replacements.vars;
      only = s.replacements.only;
      held = s.held.items;
      has_failed = s.has_failed;
    } };

    ghost invariant = { λ s. is_undecided s.held.items ≡ true };
}

impl<'a> Substituter<'a> {
    /// Replaces references by the values of these pairs of name and value, of which the first with
    /// a name counts; a name without a pair is replaced by nothing. Where `only` is given,
    /// references to other names are copied. Pairs that are sorted by name, and sorted names, are
    /// searched by binary search.
    pub fn new(vars: &'a [(&'a [u8], &'a [u8])], only: Option<&'a [&'a [u8]]>) -> Self
        ensures vars { result.vars ≡ pairs_in vars.now }
        ensures only { result.only ≡ names_given only.entry }
        ensures held { result.held ≡ [] }
        ensures has_failed { result.has_failed ≡ false }
    {
        Substituter {
            replacements: Replacements::new(vars, only),
            held: Held::new(),
            has_failed: false,
        }
    }

    /// Takes one more piece of the text. After a `WriteFault` each later call returns `WriteFault`
    /// and writes nothing.
    pub fn feed<W: ByteOut>(&mut self, piece: &[u8], writer: &mut W) -> Result<(), ToolFault>
        requires failures { W.failures writer.old < 2 ^ 63 }
        ensures ok { OnOk result (Advances (values_of_substituter self.old) (self.old.held ++ piece.now) self.new.held
            (W.contents writer.old) (W.contents writer.new)) }
        ensures stops { OnErr result (Stops (values_of_substituter self.old) (self.old.held ++ piece.now)
            (W.contents writer.old) (W.contents writer.new)) }
        ensures fault { OnErr result (result ≡ Err ToolFault.WriteFault) }
        ensures failed { self.old.has_failed ≡ true → IsErr result }
        ensures quiet { self.old.has_failed ≡ true
            → Keeps (W.contents writer.old) (W.contents writer.new) }
        ensures has_failed { self.new.has_failed ≡ is_err result }
        ensures vars { self.new.vars ≡ self.old.vars }
        ensures only { self.new.only ≡ self.old.only }
        ensures limit { length self.new.held ≤ 257 }
        ensures no_failure { OnOk result (W.failures writer.new ≡ W.failures writer.old) }
        ensures cause { OnErr result (W.failures writer.new
            ≡ W.failures writer.old + (if self.old.has_failed then 0 else 1)) }
    {
        if self.has_failed {
            return Err(ToolFault::WriteFault);
        }
        let outcome = pass(&self.replacements, &mut self.held, piece, writer);
        self.has_failed = outcome.is_err();
        outcome
    }

    /// Ends the text: what is held back is written, and replaced if it is a reference.
    pub fn finish<W: ByteOut>(self, writer: &mut W) -> Result<(), ToolFault>
        requires failures { W.failures writer.old < 2 ^ 63 }
        ensures ok { OnOk result (Appends (W.contents writer.old) (W.contents writer.new)
            (substitution (values_of_substituter self.entry) self.entry.held)) }
        ensures prefix { OnErr result (AppendsPrefix (W.contents writer.old) (W.contents writer.new)
            (substitution (values_of_substituter self.entry) self.entry.held)) }
        ensures fault { OnErr result (result ≡ Err ToolFault.WriteFault) }
        ensures failed { self.entry.has_failed ≡ true → IsErr result }
        ensures quiet { self.entry.has_failed ≡ true
            → Keeps (W.contents writer.old) (W.contents writer.new) }
        ensures no_failure { OnOk result (W.failures writer.new ≡ W.failures writer.old) }
        ensures cause { OnErr result (W.failures writer.new
            ≡ W.failures writer.old + (if self.entry.has_failed then 0 else 1)) }
    {
        if self.has_failed {
            return Err(ToolFault::WriteFault);
        }
        match ending(&self.replacements, &self.held) {
            Some(value) => put_all(writer, value),
            None => put_all(writer, &self.held),
        }
    }
}

/// Takes the whole piece.
fn pass<W: ByteOut>(
    replacements: &Replacements<'_>,
    held: &mut Held,
    piece: &[u8],
    writer: &mut W,
) -> Result<(), ToolFault>
    requires undecided { is_undecided held.old.items ≡ true }
    requires failures { W.failures writer.old < 2 ^ 64 - 1 }
    ensures undecided { is_undecided held.new.items ≡ true }
    ensures ok { OnOk result (Advances (values_of_replacements replacements.now) (held.old.items ++ piece.now)
        held.new.items (W.contents writer.old) (W.contents writer.new)) }
    ensures stops { OnErr result (Stops (values_of_replacements replacements.now) (held.old.items ++ piece.now)
        (W.contents writer.old) (W.contents writer.new)) }
    ensures fault { OnErr result (result ≡ Err ToolFault.WriteFault) }
    ensures no_failure { OnOk result (W.failures writer.new ≡ W.failures writer.old) }
    ensures cause { OnErr result (W.failures writer.new ≡ W.failures writer.old + 1) }
{
    let mut at = 0;
    while at < piece.len() {
        at += advance(replacements, held, &piece[at..], writer)?;
    }
    Ok(())
}

/// Takes some bytes of a piece, or writes those that are held back. Returns how many were taken.
fn advance<W: ByteOut>(
    replacements: &Replacements<'_>,
    held: &mut Held,
    piece: &[u8],
    writer: &mut W,
) -> Result<usize, ToolFault>
    requires some { 0 < length piece.now }
    requires undecided { is_undecided held.old.items ≡ true }
    requires failures { W.failures writer.old < 2 ^ 64 - 1 }
    ensures undecided { is_undecided held.new.items ≡ true }
    ensures bound { IfOk result (λ taken. taken ≤ length piece.now) }
    ensures progress { IfOk result (λ taken.
        min 1 (length held.new.items) < 2 * taken + min 1 (length held.old.items)) }
    ensures ok { IfOk result (λ taken. Advances (values_of_replacements replacements.now)
        (held.old.items ++ piece.now) (held.new.items ++ drop taken piece.now)
        (W.contents writer.old) (W.contents writer.new)) }
    ensures stops { OnErr result (Stops (values_of_replacements replacements.now) (held.old.items ++ piece.now)
        (W.contents writer.old) (W.contents writer.new)) }
    ensures fault { OnErr result (result ≡ Err ToolFault.WriteFault) }
    ensures no_failure { OnOk result (W.failures writer.new ≡ W.failures writer.old) }
    ensures cause { OnErr result (W.failures writer.new ≡ W.failures writer.old + 1) }
{
    match next_step(replacements, held, piece) {
        Step::Hold => {
            held.push(piece[0]);
            Ok(1)
        }
        Step::Write(text, taken) => {
            put_all(writer, text)?;
            held.clear();
            Ok(taken)
        }
    }
}
