//! Laws of system-dependent messages and of files whose keys are in any order, each the contract of
//! a function that does nothing.

ghost use Rattle.mo_expand.specs.Prelude.{ExampleIsCompleted, ExampleNeedsItsText, ExpandedFileIsMoFile, FirstTextCounts, MessageIsItsStrings, TextIsItsSegments, MessageIsAddedInOrder, MoFileIsInOrder, OneOrder, OrderAloneIsTold, SameMessageUnderKey, SortedFileIsMoFile};

/// A file of one such message that GNU's msgfmt wrote, in either byte order: a platform that has
/// the text for its name has the message.
pub fn example_is_completed()
    ensures { ExampleIsCompleted }
{}

/// A platform that lacks the text lacks the message.
pub fn example_needs_its_text()
    ensures { ExampleNeedsItsText }
{}

/// An expanded file that 32 bits reach is valid, and its messages are those of the file and the
/// system-dependent ones whose keys it lacks.
pub fn expanded_file_is_mo_file()
    ensures { ExpandedFileIsMoFile }
{}

/// A valid file is one in any order, and its messages are in order.
pub fn mo_file_is_in_order()
    ensures { MoFileIsInOrder }
{}

/// Bytes that aren't a valid file are one in any order where `NotSorted` is told of them, and else
/// aren't.
pub fn order_alone_is_told()
    ensures { OrderAloneIsTold }
{}

/// Messages have one order at most, and where two keys are equal none.
pub fn one_order()
    ensures { OneOrder }
{}

/// The file of messages in order that 32 bits reach is valid, and its messages are those in order.
pub fn sorted_file_is_mo_file()
    ensures { SortedFileIsMoFile }
{}

/// Under each key the messages in order have the message that they have in any order, or none.
pub fn same_message_under_key()
    ensures { SameMessageUnderKey }
{}

/// A message whose key is there isn't added, and the others stay as they are; any other stands
/// among them in order.
pub fn message_is_added_in_order()
    ensures { MessageIsAddedInOrder }
{}

/// The text of a string is that of its segments, of which it has 256 at most.
pub fn text_is_its_segments()
    ensures { TextIsItsSegments }
{}

/// Of a platform's texts the first one with a name counts.
pub fn first_text_counts()
    ensures { FirstTextCounts }
{}

/// A system-dependent message is there where the file has its number and both of its strings.
pub fn message_is_its_strings()
    ensures { MessageIsItsStrings }
{}
