//! Where the ranges of PN_CHARS_BASE begin and end.

/// The first and last character of each range of PN_CHARS_BASE.
static INSIDE: [char; 28] = [
    '\u{41}',
    '\u{5A}',
    '\u{61}',
    '\u{7A}',
    '\u{C0}',
    '\u{D6}',
    '\u{D8}',
    '\u{F6}',
    '\u{F8}',
    '\u{2FF}',
    '\u{370}',
    '\u{37D}',
    '\u{37F}',
    '\u{1FFF}',
    '\u{200C}',
    '\u{200D}',
    '\u{2070}',
    '\u{218F}',
    '\u{2C00}',
    '\u{2FEF}',
    '\u{3001}',
    '\u{D7FF}',
    '\u{F900}',
    '\u{FDCF}',
    '\u{FDF0}',
    '\u{FFFD}',
    '\u{10000}',
    '\u{EFFFF}',
];

/// Their neighbours outside.
static OUTSIDE: [char; 25] = [
    '\u{40}',
    '\u{5B}',
    '\u{60}',
    '\u{7B}',
    '\u{BF}',
    '\u{D7}',
    '\u{F7}',
    '\u{300}',
    '\u{36F}',
    '\u{37E}',
    '\u{2000}',
    '\u{200B}',
    '\u{200E}',
    '\u{206F}',
    '\u{2190}',
    '\u{2BFF}',
    '\u{2FF0}',
    '\u{3000}',
    '\u{E000}',
    '\u{F8FF}',
    '\u{FDD0}',
    '\u{FDEF}',
    '\u{FFFE}',
    '\u{FFFF}',
    '\u{F0000}',
];

pub(crate) fn inside() -> &'static [char] {
    &INSIDE
}

pub(crate) fn outside() -> &'static [char] {
    &OUTSIDE
}
