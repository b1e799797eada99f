//! Laws of MO files, each the contract of a function that does nothing: a call brings the law into
//! a proof.

ghost use Rattle.mo_file.specs.Prelude.{OneMessageList, MoFileOrFault, LayoutIsMoFile, NoFaultOfMoFile, OneFirstFault, KnownRevisionsAreValid, NoHashTableIsLaidOut, OtherRevisionsAreRefused, big_file_of_one, file_of_two, one_message, two_messages, layout};
ghost use Rattle.std.specs.Prelude.{◌≡◌};

use crate::byte_order::Order;

/// What is laid out in the order of its keys is a valid file with these very messages.
pub fn layout_is_mo_file()
    ensures { LayoutIsMoFile }
{}

/// What is laid out has no hash table: the size of it that the file header names is 0.
pub fn no_hash_table_is_laid_out()
    ensures { NoHashTableIsLaidOut }
{}

/// A file is laid out as the manual draws it: the tables of the originals and of the translations,
/// then the originals and then the translations, in either byte order.
pub fn files_are_laid_out()
    ensures little { layout Order.Little two_messages ≡ file_of_two }
    ensures big { layout Order.Big one_message ≡ big_file_of_one }
{}

/// With any minor revision of the major revisions 0 and 1 in its place, what is laid out in the
/// order of its keys stays a valid file with these very messages.
pub fn known_revisions_are_valid()
    ensures { KnownRevisionsAreValid }
{}

/// A file of major revision 2 or above is refused with [`MoError::BadRevision`](crate::MoError),
/// whatever else is wrong with it after the second word.
pub fn other_revisions_are_refused()
    ensures { OtherRevisionsAreRefused }
{}

/// A file is valid in one byte order at most, and holds one list of messages.
pub fn one_message_list()
    ensures { OneMessageList }
{}

/// Every byte string is a valid file or has a first fault.
pub fn mo_file_or_fault()
    ensures { MoFileOrFault }
{}

/// A byte string has one first fault at most.
pub fn one_first_fault()
    ensures { OneFirstFault }
{}

/// A valid file has no first fault.
pub fn no_fault_of_mo_file()
    ensures { NoFaultOfMoFile }
{}
