//! Laws of plural rules, each the contract of a function that does nothing: a call brings the law
//! into a proof.
ghost use Rattle.std.specs.Prelude.{◌≡◌, ◌≢◌, ◌+◌, ◌≤◌, ◌↔◌, ℕ, List, None, Some, codes};
ghost use Rattle.plural_rule.specs.declared.operator.Operator.{Operator};
ghost use Rattle.plural_rule.specs.declared.operator.Operator.TheVariants.{And, Or};
ghost use Rattle.plural_rule.specs.declared.rule.Reason.{Reason};
ghost use Rattle.plural_rule.specs.declared.rule.Source.TheVariants.{Default};
ghost use Rattle.plural_rule.specs.Prelude.{Evaluates, Tree, value, visited, nodes, Spelt, expression_of, nplurals_of, RuleView, IsReadable, IsRuleOf, IsWithin, default_rule, expression_limit};
ghost use Rattle.plural_rule.specs.Evaluator.{Binary, Conditional, Count, Not, Number};

/// A text spells at most one expression.
pub fn one_tree()
    ensures { (text : List ℕ) (t u : Tree) → Spelt t text → Spelt u text → t ≡ u }
{}

/// The value of an expression is the one that C's operators give it, and it has none where C leaves
/// that undefined: where it divides by 0.
#[tactic(auto, using(crate::proofs::Evaluation::value_evaluates))]
pub fn value_evaluates()
    ensures { (count : ℕ) (tree : Tree) (number : ℕ) → value tree count ≡ Some number ↔ Evaluates count tree number }
{}

/// No evaluation visits more nodes than there are.
#[tactic(auto, using(crate::proofs::HeaderRules::visited_le_nodes))]
pub fn visited_at_most_nodes()
    ensures { (tree : Tree) (count : ℕ) → visited tree count ≤ nodes tree }
{}

/// Each node that is evaluated is visited once. The second operand of `||` is evaluated where the
/// first is 0, that of `&&` where it isn't, and that of every other operator; of `?:` only the
/// operand that the condition chooses. None is after an operand without a value.
pub fn needed_nodes_are_visited()
    ensures leaves { (count number : ℕ) → (visited Count count ≡ 1) × (visited (Number number) count ≡ 1) }
    ensures negation { (a : Tree) (count : ℕ) → visited (Not a) count ≡ 1 + visited a count }
    ensures disjunction { (a b : Tree) (count x : ℕ) → value a count ≡ Some x
        → (x ≡ 0 → visited (Binary Or a b) count ≡ 1 + visited a count + visited b count)
        × (x ≢ 0 → visited (Binary Or a b) count ≡ 1 + visited a count) }
    ensures conjunction { (a b : Tree) (count x : ℕ) → value a count ≡ Some x
        → (x ≢ 0 → visited (Binary And a b) count ≡ 1 + visited a count + visited b count)
        × (x ≡ 0 → visited (Binary And a b) count ≡ 1 + visited a count) }
    ensures others { (op : Operator) (a b : Tree) (count x : ℕ) → op ≢ Or → op ≢ And → value a count ≡ Some x
        → visited (Binary op a b) count ≡ 1 + visited a count + visited b count }
    ensures undefined { (op : Operator) (a b : Tree) (count : ℕ) → value a count ≡ None
        → visited (Binary op a b) count ≡ 1 + visited a count }
    ensures choice { (a b c : Tree) (count x : ℕ) → value a count ≡ Some x
        → (x ≢ 0 → visited (Conditional a b c) count ≡ 1 + visited a count + visited b count)
        × (x ≡ 0 → visited (Conditional a b c) count ≡ 1 + visited a count + visited c count) }
    ensures no_choice { (a b c : Tree) (count : ℕ) → value a count ≡ None
        → visited (Conditional a b c) count ≡ 1 + visited a count }
{}

/// The default rule is the one of `nplurals=2; plural=n != 1;`: form 0 for the count 1, and form 1
/// for all others.
pub fn default_rule_is_of_n_other_than_1()
    ensures spelt { (reason : Reason) → IsReadable expression_limit (codes "nplurals=2; plural=n != 1;") 2
        (default_rule reason).tree }
    ensures forms { (reason : Reason) → (default_rule reason).nplurals ≡ 2 }
    ensures source { (reason : Reason) → (default_rule reason).source ≡ Default reason }
    ensures one { (reason : Reason) → value (default_rule reason).tree 1 ≡ Some 0 }
    ensures others { (reason : Reason) (count : ℕ) → count ≢ 1 → value (default_rule reason).tree count ≡ Some 1 }
{}

/// The fields of header texts, worked out by hand.
pub fn fields_of_headers()
    ensures nplurals { nplurals_of (codes "Plural-Forms: nplurals=3; plural=n>2;\nnplurals=4;") ≡ Some 3 }
    ensures blanks { nplurals_of (codes "nplurals= \t12x") ≡ Some 12 }
    ensures no_nplurals { nplurals_of (codes "plural=n; plurals=3; nplurals 4") ≡ None }
    ensures no_digit { nplurals_of (codes "nplurals=n; nplurals=3;") ≡ None }
    ensures expression { expression_of (codes "nplurals=3; plural= n>2 ;\nplural=0;") ≡ Some (codes " n>2 ") }
    ensures to_the_line_end { expression_of (codes "plural=n\n;") ≡ Some (codes "n") }
    ensures to_the_end { expression_of (codes "plural=n") ≡ Some (codes "n") }
    ensures no_expression { expression_of (codes "nplurals=3; plural n>2;") ≡ None }
{}

/// An expression that is read has at most 4,096 bytes.
pub fn expressions_have_4096_bytes()
    ensures { expression_limit ≡ 4096 }
{}

/// A header text has one rule.
#[tactic(auto, using(crate::proofs::HeaderRules::one_rule))]
pub fn one_rule()
    ensures { (limit : ℕ) (header : List ℕ) (rule other : RuleView) →
        IsRuleOf limit header rule → IsRuleOf limit header other → rule ≡ other }
{}

/// A header text whose expression is within a limit has the same rule under every larger limit.
#[tactic(auto, using(crate::proofs::HeaderRules::longer_limit))]
pub fn longer_limit()
    ensures { (limit longer : ℕ) (header : List ℕ) (rule : RuleView) →
        limit ≤ longer → IsWithin limit header →
        IsRuleOf limit header rule ↔ IsRuleOf longer header rule }
{}
