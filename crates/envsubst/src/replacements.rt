//! What the references to a name become ("Invoking the envsubst program" of the GNU gettext
//! manual).
ghost use Rattle.std.specs.Prelude.{◌≡◌};
ghost use Rattle.std.specs.Option.{option_map};
ghost use Rattle.envsubst.specs.Internal.Sorted.{AreVariablesSorted, values_of_replacements};
ghost use Rattle.envsubst.specs.Prelude.{is_replaced, names_given, pairs_in, value_of};

use std::marker::Model;

/// Variables, and the names to be replaced if they are given. What is sorted by name is searched by
/// binary search, all else from the beginning.
#[derive(Drop)]
pub(crate) struct Replacements<'a> {
    vars: &'a [(&'a [u8], &'a [u8])],
    only: Option<&'a [&'a [u8]]>,
    are_variables_sorted: bool,
    are_names_sorted: bool,
}

impl<'a> Model for Replacements<'a> {
    ghost use Rattle.std.specs.Prelude.{◌≡◌, true, IfSome};
    ghost use Rattle.envsubst.specs.Internal.Sorted.{AreNamesSorted, AreVariablesSorted, ReplacementsView};
    ghost use Rattle.envsubst.specs.Replacements.{pairs_in, names_given};

    ghost Value = { ReplacementsView };

    ghost view = { λ r. record { vars = pairs_in r.vars.now; only = names_given r.only } };

    ghost invariant = { λ r. (r.are_variables_sorted ≡ true → AreVariablesSorted r.vars.now)
        × (r.are_names_sorted ≡ true → IfSome r.only (λ names. AreNamesSorted names.now)) };
}

impl<'a> Replacements<'a> {
    /// References are replaced by the values of these pairs of name and value, of which the first
    /// with a name counts; a name without a pair is replaced by nothing. Where `only` is given,
    /// references to other names aren't replaced.
    pub(crate) fn new(vars: &'a [(&'a [u8], &'a [u8])], only: Option<&'a [&'a [u8]]>) -> Self
        ensures vars { result.vars ≡ pairs_in vars.now }
        ensures only { result.only ≡ names_given only.entry }
    {
        let are_names_sorted = match only {
            Some(names) => names.is_sorted_by(|a, b| b.cmp(a).is_ge()),
            None => false,
        };
        Replacements {
            vars,
            only,
            are_variables_sorted: vars.is_sorted_by(|a, b| b.0.cmp(a.0).is_ge()),
            are_names_sorted,
        }
    }

    /// What a reference to this name becomes: the value of the first variable of that name, empty
    /// where there is none. `None` where it isn't replaced.
    #[tactic(auto, unfolding(crate::specs::Replacements::values_of))]
    pub(crate) fn value_for(&self, name: &[u8]) -> Option<&'a [u8]>
        ensures { option_map (λ value. value.now) result ≡ values_of_replacements self.now name.now }
    {
        if !self.is_replaced(name) {
            None
        } else if self.are_variables_sorted {
            Some(sorted_value(self.vars, name))
        } else {
            Some(first_value(self.vars, name))
        }
    }

    /// Whether references to this name are replaced: all are, but for those whose name isn't among
    /// the names that are given.
    #[tactic(auto, unfolding(crate::specs::Replacements::is_replaced))]
    fn is_replaced(&self, name: &[u8]) -> bool
        ensures { result ≡ is_replaced self.now.only name.now }
    {
        match self.only {
            None => true,
            Some(names) if self.are_names_sorted => names.binary_search(&name).is_ok(),
            Some(names) => names.contains(&name),
        }
    }
}

/// The value of the first variable of that name, found from the beginning; empty where there is
/// none.
fn first_value<'a>(vars: &[(&'a [u8], &'a [u8])], name: &[u8]) -> &'a [u8]
    ensures { result.now ≡ value_of (pairs_in vars.now) name.now }
{
    for (known, value) in vars {
        if *known == name {
            return value;
        }
    }
    &[]
}

/// The value of the first variable of that name, found by binary search; empty where there is none.
fn sorted_value<'a>(vars: &[(&'a [u8], &'a [u8])], name: &[u8]) -> &'a [u8]
    requires { AreVariablesSorted vars.now }
    ensures { result.now ≡ value_of (pairs_in vars.now) name.now }
{
    let index = vars.partition_point(|variable| variable.0.cmp(name).is_lt());
    match vars.get(index) {
        Some((known, value)) => { if *known == name { value } else { &[] } }
        None => &[],
    }
}
