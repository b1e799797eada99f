//! Files that were laid out by hand.

/// A file without messages.
pub(crate) const EMPTY: [u8; 28] = [
    0xde, 0x12, 0x04, 0x95, 0, 0, 0, 0, 0, 0, 0, 0, 28, 0, 0, 0, 28, 0, 0, 0, 0, 0, 0, 0, 28, 0, 0,
    0,
];

/// The message `a`, translated as `b`.
pub(crate) const ONE: [u8; 48] = [
    0xde, 0x12, 0x04, 0x95, 0, 0, 0, 0, 1, 0, 0, 0, 28, 0, 0, 0, 36, 0, 0, 0, 0, 0, 0, 0, 44, 0, 0,
    0, 1, 0, 0, 0, 44, 0, 0, 0, 1, 0, 0, 0, 46, 0, 0, 0, b'a', 0, b'b', 0,
];

/// The same in the other byte order.
pub(crate) const ONE_BIG: [u8; 48] = [
    0x95, 0x04, 0x12, 0xde, 0, 0, 0, 0, 0, 0, 0, 1, 0, 0, 0, 28, 0, 0, 0, 36, 0, 0, 0, 0, 0, 0, 0,
    44, 0, 0, 0, 1, 0, 0, 0, 44, 0, 0, 0, 1, 0, 0, 0, 46, b'a', 0, b'b', 0,
];

/// The messages `a`, translated as `2`, and `b`, translated as `1`.
pub(crate) const TWO: [u8; 68] = [
    0xde, 0x12, 0x04, 0x95, 0, 0, 0, 0, 2, 0, 0, 0, 28, 0, 0, 0, 44, 0, 0, 0, 0, 0, 0, 0, 60, 0, 0,
    0, 1, 0, 0, 0, 60, 0, 0, 0, 1, 0, 0, 0, 62, 0, 0, 0, 1, 0, 0, 0, 64, 0, 0, 0, 1, 0, 0, 0, 66,
    0, 0, 0, b'a', 0, b'b', 0, b'2', 0, b'1', 0,
];

/// The message `x` in the empty context, in the context `c` and without a context, translated as
/// `1`, `2` and `3`.
pub(crate) const CONTEXTS: [u8; 91] = [
    0xde, 0x12, 0x04, 0x95, 0, 0, 0, 0, 3, 0, 0, 0, 28, 0, 0, 0, 52, 0, 0, 0, 0, 0, 0, 0, 76, 0, 0,
    0, 2, 0, 0, 0, 76, 0, 0, 0, 3, 0, 0, 0, 79, 0, 0, 0, 1, 0, 0, 0, 83, 0, 0, 0, 1, 0, 0, 0, 85,
    0, 0, 0, 1, 0, 0, 0, 87, 0, 0, 0, 1, 0, 0, 0, 89, 0, 0, 0, 4, b'x', 0, b'c', 4, b'x', 0, b'x',
    0, b'1', 0, b'2', 0, b'3', 0,
];
