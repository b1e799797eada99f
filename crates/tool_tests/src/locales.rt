//! The locales of an environment, and where their catalogues lie.

use po_shell::{Environment, ToolFault, catalogue_path, catalogue_paths, locale_candidates};
use std::alloc::Global;

const UNSET: Environment<'static> = Environment {
    lc_all: None,
    lc_messages: None,
    lang: None,
    language: None,
    textdomain: None,
    textdomaindir: None,
};

type Names = &'static [&'static [u8]];

/// Environments and their candidates.
const LOCALES: &[(Environment<'static>, Names)] = &[
    (
        Environment {
            lang: Some(b"de"),
            ..UNSET
        },
        &[b"de"],
    ),
    (
        Environment {
            lang: Some(b"de_AT.UTF-8@euro"),
            ..UNSET
        },
        &[
            b"de_AT.UTF-8@euro",
            b"de_AT@euro",
            b"de@euro",
            b"de_AT",
            b"de",
        ],
    ),
    (
        Environment {
            lang: Some(b"de_AT@"),
            ..UNSET
        },
        &[b"de_AT@", b"de@", b"de_AT", b"de"],
    ),
    (
        Environment {
            lang: Some(b"de_AT.UTF-8"),
            ..UNSET
        },
        &[b"de_AT.UTF-8", b"de_AT", b"de"],
    ),
    (
        Environment {
            lang: Some(b"de@a.b_c"),
            ..UNSET
        },
        &[b"de@a.b_c", b"de"],
    ),
    (
        Environment {
            lang: Some(b".UTF-8"),
            ..UNSET
        },
        &[b".UTF-8", b""],
    ),
    (
        Environment {
            lang: Some(b"C"),
            ..UNSET
        },
        &[],
    ),
    (
        Environment {
            lang: Some(b"POSIX"),
            ..UNSET
        },
        &[],
    ),
    (
        Environment {
            lang: Some(b"de/AT"),
            ..UNSET
        },
        &[],
    ),
    (
        Environment {
            lang: Some(b""),
            ..UNSET
        },
        &[],
    ),
    (
        Environment {
            lc_all: Some(b""),
            lc_messages: Some(b"fr"),
            lang: Some(b"de"),
            ..UNSET
        },
        &[b"fr"],
    ),
    (
        Environment {
            lc_all: Some(b"C"),
            lc_messages: Some(b"fr"),
            lang: Some(b"de"),
            ..UNSET
        },
        &[],
    ),
    (UNSET, &[]),
    (
        Environment {
            lang: Some(b"de_AT"),
            language: Some(b"fr:de_AT:de"),
            ..UNSET
        },
        &[b"fr", b"de_AT", b"de"],
    ),
    (
        Environment {
            lang: Some(b"C"),
            language: Some(b"fr"),
            ..UNSET
        },
        &[],
    ),
    (
        Environment {
            lang: Some(b"de"),
            language: Some(b"fr:C:de"),
            ..UNSET
        },
        &[b"fr"],
    ),
    (
        Environment {
            lang: Some(b"de"),
            language: Some(b"C:fr"),
            ..UNSET
        },
        &[],
    ),
    (
        Environment {
            lang: Some(b"de"),
            language: Some(b"fr:POSIX"),
            ..UNSET
        },
        &[b"fr"],
    ),
    (
        Environment {
            lang: Some(b"de"),
            language: Some(b":"),
            ..UNSET
        },
        &[],
    ),
    (
        Environment {
            lang: Some(b"de"),
            language: Some(b""),
            ..UNSET
        },
        &[b"de"],
    ),
    (
        Environment {
            lang: Some(b"de"),
            language: Some(b":a/b::fr:"),
            ..UNSET
        },
        &[b"fr"],
    ),
    (
        Environment {
            lang: Some(b"de"),
            language: Some(b"de_AT:fr:de"),
            ..UNSET
        },
        &[b"de_AT", b"de", b"fr"],
    ),
];

const OF_W: Names = &[b"/d/de_AT/LC_MESSAGES/w.mo", b"/d/de/LC_MESSAGES/w.mo"];

const OF_O: Names = &[b"/d/de_AT/LC_MESSAGES/o.mo", b"/d/de/LC_MESSAGES/o.mo"];

const OF_V: Names = &[b"/d/de_AT/LC_MESSAGES/v.mo", b"/d/de/LC_MESSAGES/v.mo"];

const IN_THE_DEFAULT_FOLDER: Names = &[
    b"/usr/share/locale/de_AT/LC_MESSAGES/w.mo",
    b"/usr/share/locale/de/LC_MESSAGES/w.mo",
];

/// The text domain as an argument, of the option, and TEXTDOMAIN; TEXTDOMAINDIR; and the catalogues
/// for de_AT.
type Domain = (
    Option<&'static [u8]>,
    Option<&'static [u8]>,
    Option<&'static [u8]>,
    Option<&'static [u8]>,
    Names,
);

const DOMAINS: &[Domain] = &[
    (Some(b"w"), Some(b"o"), Some(b"v"), Some(b"/d"), OF_W),
    (Some(b"w"), None, None, Some(b"/d"), OF_W),
    (None, Some(b"o"), Some(b"v"), Some(b"/d"), OF_O),
    (None, None, Some(b"v"), Some(b"/d"), OF_V),
    (None, None, None, Some(b"/d"), &[]),
    (Some(b""), Some(b"v"), Some(b"v"), Some(b"/d"), &[]),
    (None, Some(b""), Some(b"v"), Some(b"/d"), &[]),
    (None, None, Some(b""), Some(b"/d"), &[]),
    (Some(b"a/b"), Some(b"v"), Some(b"v"), Some(b"/d"), &[]),
    (None, Some(b"a/b"), Some(b"v"), Some(b"/d"), &[]),
    (None, None, Some(b"a/b"), Some(b"/d"), &[]),
    (Some(b"w"), None, None, None, IN_THE_DEFAULT_FOLDER),
    (Some(b"w"), None, None, Some(b""), IN_THE_DEFAULT_FOLDER),
];

/// Whether names are these.
fn are(names: &[Vec<u8>], wanted: &[&[u8]]) -> bool {
    if names.len() != wanted.len() {
        return false;
    }
    for (name, wanted_name) in names.iter().zip(wanted) {
        if name.as_slice() != *wanted_name {
            return false;
        }
    }
    true
}

/// Whether these names are listed.
fn are_listed(listed: Result<Vec<Vec<u8>>, ToolFault>, wanted: &[&[u8]]) -> bool {
    match listed {
        Ok(names) => are(&names, wanted),
        Err(_) => false,
    }
}

/// Whether the catalogues of a domain are placed so.
fn are_placed(alloc: Global, domain: &Domain) -> bool {
    let (argument, option, textdomain, textdomaindir, wanted) = *domain;
    let environment = Environment {
        lang: Some(b"de_AT"),
        textdomain,
        textdomaindir,
        ..UNSET
    };
    are_listed(
        catalogue_paths(alloc, argument, option, &environment),
        wanted,
    )
}

#[test]
fn lists_the_candidates_of_locales(rt: HostRuntime) {
    for (row, (environment, wanted)) in LOCALES.iter().enumerate() {
        let listed = locale_candidates(rt.alloc(), environment);
        assert!(rt; are_listed(listed, wanted), "row {row}");
    }
}

#[test]
fn places_the_catalogues_of_a_domain(rt: HostRuntime) {
    for (row, domain) in DOMAINS.iter().enumerate() {
        assert!(rt; are_placed(rt.alloc(), domain), "row {row}");
    }
}

#[test]
fn places_a_catalogue(rt: HostRuntime) {
    let is_placed = match catalogue_path(rt.alloc(), b"/d", b"de", b"x") {
        Ok(path) => path.as_slice() == b"/d/de/LC_MESSAGES/x.mo".as_slice(),
        Err(_) => false,
    };
    assert!(rt; is_placed);
}
