//! Laws of escapes, of COUNT, of limits and of where catalogues are looked for, each the contract
//! of a function that does nothing: a call brings the law into a proof.
ghost use Rattle.std.specs.Prelude.{◌≡◌, ◌↔◌, [], ℕ, Bool, List, None, Option, Some, codes, false, true};
ghost use Rattle.gettext.specs.declared.candidates.Environment.{Environment};
ghost use Rattle.gettext.specs.Prelude.{AreCandidates, IsDomain, IsFolder, IsLocale, count_in, GivesCount, environment_view, expansion, has_no_newline, Expands, gettext_output, request_of, candidates_of, locale_of, domain_of, folder_of, gettext_usage, catalogue_limit};

/// The expansion of a text is the text in which each escape stands for its byte, `\c` for none, and
/// any other byte for itself.
pub fn escapes_are_expanded()
    ensures { (text bytes : List ℕ) (without_newline : Bool)
        → ((bytes ≡ expansion text) × (without_newline ≡ has_no_newline text))
        ↔ Expands text bytes without_newline }
{}

/// The locale is that of LC_ALL, else that of LC_MESSAGES, else that of LANG, each where it is set
/// and not empty, else none.
pub fn locale_is_chosen()
    ensures { (env : Environment) (locale : List ℕ)
        → (locale ≡ locale_of env) ↔ IsLocale (environment_view env) locale }
{}

/// The catalogues lie below the folder of TEXTDOMAINDIR, where it is set and not empty, else below
/// `/usr/share/locale`.
pub fn folder_is_chosen()
    ensures { (env : Environment) (folder : List ℕ)
        → (folder ≡ folder_of env) ↔ IsFolder (environment_view env) folder }
{}

/// The text domain is the argument, else that of `-d`, else that of TEXTDOMAIN, each also where it
/// is empty, else none.
pub fn domain_is_chosen()
    ensures { (argument option : Option (List ℕ)) (env : Environment) (domain : Option (List ℕ))
        → (domain ≡ domain_of argument option env)
        ↔ IsDomain argument option (environment_view env) domain }
{}

/// A COUNT is the number that its decimal digits spell, where it is below 2^64, and any other text
/// is taken as 99.
pub fn counts_are_numbers()
    ensures { (text : List ℕ) (count : ℕ) → (count ≡ count_in text) ↔ GivesCount text count }
{}

/// The candidates are the five names of each language, each at its first place alone: those of
/// LANGUAGE, where it is set and not empty, up to `C` or `POSIX`, else of the locale; and none in a
/// locale that has no translations.
pub fn candidates_are_asked()
    ensures { (env : Environment) (names : List (List ℕ))
        → (names ≡ candidates_of env) ↔ AreCandidates (environment_view env) names }
{}

/// With `-s` no MSGID is echoed too: an empty line is written, and nothing with `-n`.
pub fn no_msgid_is_echoed()
    ensures usage { gettext_usage true [] ≡ Some (record { domain = None; messages = [] }) }
    ensures output { gettext_output [] (request_of [] false false true) ≡ codes "\n" }
    ensures without_newline { gettext_output [] (request_of [] false true true) ≡ [] }
{}

/// A chain has 4,294,967,295 catalogues at most.
pub fn chains_are_limited()
    ensures { catalogue_limit ≡ 4294967295 }
{}
