//! Laws of the profile's check, each the contract of a function that does nothing: a call brings
//! the law into a proof.
ghost use Rattle.std.specs.Prelude.{◌≡◌, ◌↔◌, List, Some};
ghost use Rattle.plural_rule.specs.Prelude.{RuleView};
ghost use Rattle.msgfmt.specs.Prelude.{FirstFault, InputEntry, Reported, first_fault};

/// The check of messages that have a header with this rule finds the first of their faults: that
/// there is no readable rule, that of an entry, or that of the rule's value at a count.
#[tactic(auto, using(crate::proofs::ProfileFaults::first_found))]
pub fn first_profile_fault()
    ensures { (entries : List InputEntry) (rule : RuleView) (reported : Reported)
        → (first_fault entries rule ≡ Some reported) ↔ FirstFault entries rule reported }
{}
