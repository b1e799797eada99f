//! Laws of look-up, each the contract of a function that does nothing: a call brings the law into a
//! proof.

ghost use Rattle.std.specs.Prelude.{◌≡◌, ◌≢◌, ◌⊎◌, ◌+◌, ◌<◌, ◌≤◌, ℕ, List, [], ◌∷◌, None, Some, true, false, length, slice_get};
ghost use Rattle.mo_lookup.specs.Prelude.{BoundHalves, BoundIsLogarithm, CatalogView, ChainAsksAll, ChainAsksNone, ChainAsksUpToFirst, EachKeyFindsItsTranslation, KeysLackNulAndEot, OtherKeysFindNone, Query, RuleView, SearchHalves, SearchIsBounded, answer, chain_bound, chain_comparisons, form_at, query_comparisons, search_bound, selected_form, untranslated_text, value, visited};

/// The bound of a search is 0 for no keys, and else one more than for half as many.
pub fn bound_halves()
    ensures { BoundHalves }
{}

/// The bound of a search of N keys, one at least, is floor(log2 N) + 1.
pub fn bound_is_logarithm()
    ensures { BoundIsLogarithm }
{}

/// A search makes no comparison among no keys. Else it compares the key in the middle, and goes on
/// among the keys that are left: those after the middle where it is below the key that is searched,
/// those before it where it is above, and none where it is that key.
pub fn search_halves()
    ensures { SearchHalves }
{}

/// A search never makes more comparisons than its bound.
pub fn search_is_bounded()
    ensures { SearchIsBounded }
{}

/// Where keys rise strictly, what is found under the key of a message is its own translation.
pub fn each_key_finds_its_translation()
    ensures { EachKeyFindsItsTranslation }
{}

/// Under a key that no message has, no translation is found.
pub fn other_keys_find_none()
    ensures { OtherKeysFindNone }
{}

/// A context and a msgid can be a key exactly if neither contains a NUL or an EOT.
pub fn keys_lack_nul_and_eot()
    ensures { KeysLackNulAndEot }
{}

/// A form stands at its index, counted from 0; where there is none, it is empty.
pub fn forms_stand_at_their_index()
    ensures there { (forms : List (List ℕ)) (index : ℕ) (form : List ℕ) → slice_get forms index ≡ Some form
        → form_at forms index ≡ form }
    ensures not_there { (forms : List (List ℕ)) (index : ℕ) → slice_get forms index ≡ None → form_at forms index ≡ [] }
{}

/// The value of the rule at the count itself selects the form of that index, if the rule counts so
/// many forms and there is one, else form 0 is the answer; the nodes that are evaluated are those
/// at this count. Without a plural it is form 0, and none is evaluated.
pub fn count_selects_form()
    ensures selected { (forms : List (List ℕ)) (rule : RuleView) (query : Query) (plural : List ℕ) (count index : ℕ)
        (form : List ℕ) → query.plural ≡ Some (plural, count) → value rule.tree count ≡ Some index
        → index < rule.nplurals → slice_get forms index ≡ Some form
        → answer (Some forms) rule query ≡ record { text = form; found = true; steps = visited rule.tree count } }
    ensures first { (forms : List (List ℕ)) (rule : RuleView) (query : Query) (plural : List ℕ) (count : ℕ)
        (form : List ℕ) → query.plural ≡ Some (plural, count)
        → ((index : ℕ) → value rule.tree count ≡ Some index
        → (rule.nplurals ≤ index) ⊎ (slice_get forms index ≡ None))
        → slice_get forms 0 ≡ Some form
        → answer (Some forms) rule query ≡ record { text = form; found = true; steps = visited rule.tree count } }
    ensures without_plural { (forms : List (List ℕ)) (rule : RuleView) (query : Query) (form : List ℕ)
        → query.plural ≡ None → slice_get forms 0 ≡ Some form
        → answer (Some forms) rule query ≡ record { text = form; found = true; steps = 0 } }
{}

/// A chain asks its catalogues up to the first that has the message, and that one answers; all
/// where none has it, and none for a query that can't be a key.
pub fn chain_asks_up_to_first()
    ensures first { ChainAsksUpToFirst }
    ensures all { ChainAsksAll }
    ensures none { ChainAsksNone }
{}

/// The comparisons in catalogues that are asked one after the other add up, and so do their bounds.
pub fn chain_costs_add_up()
    ensures none { (query : Query) → (chain_comparisons [] query ≡ 0) × (chain_bound [] ≡ 0) }
    ensures comparisons { (catalog : CatalogView) (rest : List CatalogView) (query : Query)
        → chain_comparisons (catalog ∷ rest) query
        ≡ query_comparisons catalog.messages query + chain_comparisons rest query }
    ensures bound { (catalog : CatalogView) (rest : List CatalogView)
        → chain_bound (catalog ∷ rest) ≡ search_bound (length catalog.messages) + chain_bound rest }
{}

/// The value of the rule selects the form of that index, if the rule counts so many forms and there
/// is one; else form 0 is selected.
pub fn forms_are_selected()
    ensures undefined { (forms : List (List ℕ)) (nplurals : ℕ) → selected_form forms nplurals None ≡ form_at forms 0 }
    ensures counted { (forms : List (List ℕ)) (nplurals index : ℕ) → index < nplurals → index < length forms
        → selected_form forms nplurals (Some index) ≡ form_at forms index }
    ensures not_counted { (forms : List (List ℕ)) (nplurals index : ℕ) → nplurals ≤ index
        → selected_form forms nplurals (Some index) ≡ form_at forms 0 }
    ensures not_there { (forms : List (List ℕ)) (nplurals index : ℕ) → length forms ≤ index
        → selected_form forms nplurals (Some index) ≡ form_at forms 0 }
{}

/// Without a translation the msgid is the answer, or for a count that isn't 1 the plural.
pub fn untranslated_texts_are_answered()
    ensures without_plural { (id : List ℕ) → untranslated_text id None ≡ id }
    ensures one { (id plural : List ℕ) → untranslated_text id (Some (plural, 1)) ≡ id }
    ensures others { (id plural : List ℕ) (count : ℕ) → count ≢ 1
        → untranslated_text id (Some (plural, count)) ≡ plural }
    ensures answered { (rule : RuleView) (query : Query)
        → answer None rule query ≡ record { text = untranslated_text query.id query.plural; found = false; steps = 0 } }
{}
