//! Values of plural expressions that were worked out by hand, and why a header gives the default
//! rule.
use plural_rule::{Reason, Rule, Source};
use std::alloc::{AllocError, Global};
use std::test::Fail;

/// The default rule, for this reason: `n != 1`.
fn is_default(rule: &Rule, reason: Reason) -> bool {
    rule.source() == Source::Default(reason)
        && rule.nplurals() == 2
        && rule.nodes() == 3
        && rule.eval(1) == (Some(0), 3)
        && rule.eval(0) == (Some(1), 3)
}

/// A rule of the header text's own with so many forms.
fn is_named(rule: &Rule, forms: u64) -> bool {
    rule.source() == Source::Header && rule.nplurals() == forms
}

const THREE_FORMS: &str =
    "nplurals=3; plural=n%10==1 && n%100!=11 ? 0 : n%10>=2 && n%10<=4 && (n%100<10 || n%100>=20) ? 1 : 2;";

/// The header text, the forms and the nodes, and a count, the value there and the nodes that are
/// visited.
const EXPRESSIONS: &[(&str, u64, u32, u64, Option<u64>, u32)] = &[
    (THREE_FORMS, 3, 39, 0, Some(2), 16),
    (THREE_FORMS, 3, 39, 1, Some(0), 13),
    (THREE_FORMS, 3, 39, 2, Some(1), 27),
    (THREE_FORMS, 3, 39, 5, Some(2), 21),
    (THREE_FORMS, 3, 39, 11, Some(2), 21),
    (THREE_FORMS, 3, 39, 21, Some(0), 13),
    (THREE_FORMS, 3, 39, 22, Some(1), 32),
    (THREE_FORMS, 3, 39, u64::MAX, Some(2), 21),
    ("nplurals=2; plural=n-1;", 2, 3, 0, Some(u64::MAX), 3),
    ("nplurals=2; plural=10/n;", 2, 3, 0, None, 3),
    ("nplurals=2; plural=10%n;", 2, 3, 0, None, 3),
    ("nplurals=2; plural=n && 10/n;", 2, 5, 0, Some(0), 2),
    ("nplurals=2; plural=n && 10/n;", 2, 5, 2, Some(1), 5),
    ("nplurals=2; plural=n || 10/n;", 2, 5, 2, Some(1), 2),
    ("nplurals=2; plural=n || 10/n;", 2, 5, 0, None, 5),
    ("nplurals=2; plural=10/n ? 1 : 2;", 2, 6, 0, None, 4),
    ("nplurals=2; plural=10/n + 1/0;", 2, 7, 0, None, 4),
    ("nplurals=2; plural=!n == 1;", 2, 4, 2, Some(0), 4),
    ("nplurals=2; plural=!(n == 1);", 2, 4, 2, Some(1), 4),
    (
        "nplurals=2; plural=n==0 ? 0 : n==1 ? 1 : 2;",
        2,
        11,
        0,
        Some(0),
        5,
    ),
    (
        "nplurals=2; plural=n==0 ? 0 : n==1 ? 1 : 2;",
        2,
        11,
        2,
        Some(2),
        9,
    ),
    (
        "nplurals=2; plural=n ? n==1 ? 7 : 8 : 9;",
        2,
        9,
        1,
        Some(7),
        7,
    ),
    ("nplurals=2; plural=7-2-1;", 2, 5, 0, Some(4), 5),
    ("nplurals=2; plural=100/10/5;", 2, 5, 0, Some(2), 5),
    ("nplurals=2; plural=1+2*3;", 2, 5, 0, Some(7), 5),
    ("nplurals=2; plural=3>2>1;", 2, 5, 0, Some(0), 5),
    ("nplurals=2; plural=0==0 != 1;", 2, 5, 0, Some(0), 5),
    ("nplurals=2; plural=1||0&&0;", 2, 5, 0, Some(1), 2),
    ("nplurals=2; plural=n<=2;", 2, 3, 2, Some(1), 3),
    ("nplurals=2; plural=n>=3;", 2, 3, 2, Some(0), 3),
    ("nplurals=2; plural=\tn \t!= 1 ;", 2, 3, 1, Some(0), 3),
    ("nplurals=2; plural=(n!=1);", 2, 3, 0, Some(1), 3),
    (
        "nplurals=1; plural=18446744073709551615;",
        1,
        1,
        0,
        Some(u64::MAX),
        1,
    ),
    ("nplurals=2; plural=007;", 2, 1, 0, Some(7), 1),
];

#[test]
fn expressions(rt: HostRuntime) {
    let mut rule = Rule::of_no_header();
    for (text, forms, nodes, count, value, steps) in EXPRESSIONS {
        rule.reparse(text.as_bytes());
        let is_right = is_named(&rule, *forms)
            && rule.nodes() == *nodes
            && rule.eval(*count) == (*value, *steps);
        assert!(rt; is_right, "{text} at {count}");
    }
}

/// The header text, the number of forms, and the value at 5.
const FIELDS: &[(&str, u64, u64)] = &[
    ("nplurals=2; plural=18446744073709551615;", 2, u64::MAX),
    ("nplurals=0; plural=0;", 0, 0),
    ("nplurals= \t4; plural=n", 4, 5),
    ("nplurals=4x; plural=n\n; plural=0;", 4, 5),
    ("plural=n-1; nplurals=7", 7, 4),
    (
        "Plural-Forms: nplurals=3; plural=2; nplurals=4; plural=3;",
        3,
        2,
    ),
    ("X-Myplural=6\nnplurals=3; plural=2;", 3, 6),
];

#[test]
fn fields(rt: HostRuntime) {
    for (text, nplurals, value) in FIELDS {
        let rule = Rule::parse(text.as_bytes());
        let is_right = is_named(&rule, *nplurals) && rule.eval(5).0 == Some(*value);
        assert!(rt; is_right, "{text}");
    }
}

/// Header texts, and why each gives the default rule.
const DEFAULTS: &[(&str, Reason)] = &[
    ("", Reason::NoNumber),
    ("nplurals=INTEGER; plural=EXPRESSION;", Reason::NoNumber),
    ("plural=n;", Reason::NoNumber),
    ("nplurals=2;", Reason::NoExpression),
    (
        "nplurals=18446744073709551616; plural=n;",
        Reason::Unreadable,
    ),
    ("nplurals=2; plural=;", Reason::Unreadable),
    ("nplurals=2; plural=(n;", Reason::Unreadable),
    ("nplurals=2; plural=n);", Reason::Unreadable),
    ("nplurals=2; plural=();", Reason::Unreadable),
    ("nplurals=2; plural=n n;", Reason::Unreadable),
    ("nplurals=2; plural=n 1;", Reason::Unreadable),
    ("nplurals=2; plural=1 1;", Reason::Unreadable),
    ("nplurals=2; plural=nn;", Reason::Unreadable),
    ("nplurals=2; plural=n!;", Reason::Unreadable),
    ("nplurals=2; plural=n ? 1;", Reason::Unreadable),
    ("nplurals=2; plural=n : 1;", Reason::Unreadable),
    ("nplurals=2; plural=n ? 1 : ;", Reason::Unreadable),
    ("nplurals=2; plural=n ? : 1;", Reason::Unreadable),
    ("nplurals=2; plural=n = 1;", Reason::Unreadable),
    ("nplurals=2; plural=n & 1;", Reason::Unreadable),
    ("nplurals=2; plural=n | 1;", Reason::Unreadable),
    ("nplurals=2; plural=< = n;", Reason::Unreadable),
    ("nplurals=2; plural=n < = 1;", Reason::Unreadable),
    ("nplurals=2; plural=n ! = 1;", Reason::Unreadable),
    ("nplurals=2; plural=-1;", Reason::Unreadable),
    ("nplurals=2; plural=+n;", Reason::Unreadable),
    ("nplurals=2; plural=n++1;", Reason::Unreadable),
    ("nplurals=2; plural=N;", Reason::Unreadable),
    ("nplurals=2; plural=n,1;", Reason::Unreadable),
    (
        "nplurals=1; plural=18446744073709551616;",
        Reason::Unreadable,
    ),
    ("nplurals=2; plural=n\0;", Reason::Unreadable),
    ("nplurals=2; plural=n\r;", Reason::Unreadable),
];

#[test]
fn default_reasons(rt: HostRuntime) {
    for (text, reason) in DEFAULTS {
        assert!(rt;
            is_default(&Rule::parse(text.as_bytes()), *reason),
            "{text}"
        );
    }
}

/// `nplurals=2; plural=`, `times` times `piece`, the middle, then `times` times `closing`.
fn header(
    alloc: Global,
    times: usize,
    (piece, middle, closing): (&str, &str, &str),
) -> Result<Vec<u8>, AllocError> {
    let mut text = Vec::from_slice(alloc, b"nplurals=2; plural=")?;
    for _ in 0..times {
        text.extend_from_slice(piece.as_bytes())?;
    }
    text.extend_from_slice(middle.as_bytes())?;
    for _ in 0..times {
        text.extend_from_slice(closing.as_bytes())?;
    }
    Ok(text)
}

/// What is repeated how often before and after what, and the nodes, a count, the value there and
/// the nodes that are visited, or why it gives the default rule.
const LONG_EXPRESSIONS: &[(
    usize,
    (&str, &str, &str),
    Result<(u32, u64, u64, u32), Reason>,
)] = &[
    (1023, ("!", "n", ""), Ok((1024, 0, 1, 1024))),
    (1024, ("!", "n", ""), Ok((1025, 0, 0, 1025))),
    (4095, ("!", "n", ""), Ok((4096, 0, 1, 4096))),
    (255, ("n?n:", "n", ""), Ok((766, 0, 0, 511))),
    (255, ("n?n:", "n", ""), Ok((766, 1, 1, 3))),
    (511, ("n+", "n", ""), Ok((1023, 36028797018963968, 0, 1023))),
    (2047, ("n+", "n", ""), Ok((4095, 2, 4096, 4095))),
    (1023, ("n?n:", "n", ""), Ok((3070, 0, 0, 2047))),
    (511, ("(", "n", ")"), Ok((1, 5, 5, 1))),
    (2047, ("(", "n", ")"), Ok((1, 5, 5, 1))),
    (4096, ("!", "n", ""), Err(Reason::TooLong)),
    (1025, (" ", "", ""), Err(Reason::Unreadable)),
    (1100, (" ", "n==1", ""), Ok((3, 1, 1, 3))),
    (4096, (" ", "", ""), Err(Reason::Unreadable)),
    (4097, (" ", "", ""), Err(Reason::TooLong)),
];

/// The rule with these nodes, value and steps, or the default rule for this reason.
fn is_wanted(rule: &Rule, wanted: Result<(u32, u64, u64, u32), Reason>) -> bool {
    match wanted {
        Ok((nodes, count, value, steps)) => {
            is_named(rule, 2) && rule.nodes() == nodes && rule.eval(count) == (Some(value), steps)
        }
        Err(reason) => is_default(rule, reason),
    }
}

#[test]
fn long_expressions(rt: HostRuntime) -> Result<(), Fail> {
    for (row, (times, pieces, wanted)) in LONG_EXPRESSIONS.iter().enumerate() {
        let text = header(rt.alloc(), *times, *pieces)?;
        assert!(rt; is_wanted(&Rule::parse(&text), *wanted), "row {row}");
    }
    Ok(())
}
