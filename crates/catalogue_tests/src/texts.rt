//! Texts that several tests read.

/// An entry with a line of every kind.
pub(crate) const EVERY_LINE: &[u8] = b"#~ # c
#, fuzzy , c-format,, c-format
#: a.c:1 b.c:2
#: c.c:3
#| msgid \"o\"
msgid \"k\" \"l\"
\"m\"
msgid_plural \"p\"
msgstr [ 0 ] \"v\"
";

/// A fuzzy header, and a translated, a fuzzy, an untranslated and an obsolete message.
pub(crate) const FUZZY_AND_OBSOLETE: &[u8] = b"#, fuzzy
msgid \"\"
msgstr \"Content-Type: text/plain; charset=UTF-8\\n\"

msgid \"a\"
msgstr \"A\"

#, fuzzy
msgid \"b\"
msgstr \"B\"

msgid \"c\"
msgstr \"\"

#~ msgid \"d\"
#~ msgstr \"D\"
";

/// A byte order mark, CR LF, all five blanks, all marks, and each escape.
pub(crate) const ESCAPES: &[u8] = b"\xef\xbb\xbf#| msgctxt \"\\101\\x41\\xc3\\xa9\"\r
#~|\x0bmsgid\x0c\"\\a\\b\\t\\n\\v\\f\\r\\\\\\\"\\1777\\18\"
\t#~ msgstr[1]\"\\7\" \"q\\x7\"
#~ #. e\r\r
#|
#~
#~|
#
#=!";

/// An obsolete entry with every field, before a live one.
pub(crate) const EVERY_FIELD: &[u8] = b"# t one
#  t two\r
#. e
#: a.c:1 b.c:2
#:\tc.c:3
#, c-format,fuzzy ,, no-wrap
#| msgctxt \"pc\"
#~| msgid \"pi\" \"pj\"
#~| \"pk\"
#~| msgid_plural \"pp\"
#~ msgctxt \"c\"
#~ msgid \"i\"
#~ \"j\"
#~ msgid_plural \"p\"
#~ msgstr[0] \"f\"
#~ msgstr [ 1 ] \"g\\n\"
  #~ \"\\150\\n\"

msgid \"i\"
msgstr \"\\\"q\\\"\"
";

/// The same as it is written.
pub(crate) const EVERY_FIELD_WRITTEN: &[u8] = b"msgid \"i\"
msgstr \"\\\"q\\\"\"

# t one
#  t two
#. e
#: a.c:1 b.c:2 c.c:3
#, fuzzy, c-format, no-wrap
#~| msgctxt \"pc\"
#~| msgid \"pipjpk\"
#~| msgid_plural \"pp\"
#~ msgctxt \"c\"
#~ msgid \"ij\"
#~ msgid_plural \"p\"
#~ msgstr[0] \"f\"
#~ msgstr[1] \"\"
#~ \"g\\n\"
#~ \"h\\n\"
";
