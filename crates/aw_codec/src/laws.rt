//! Laws of records and their bytes (docs/FORMATS.md, "Records"). Each is a function that does
//! nothing: what it ensures is the law.

ghost use Rattle.aw_codec.specs.Laws.{SpellingsDiffer, SpellingOrFault, WholesAreRecords};

/// Two records have different spellings, and neither spelling is the front of the other.
pub fn spellings_differ()
    ensures { SpellingsDiffer }
{}

/// Bytes are the spelling of one record, or have a fault at exactly one offset, and never both.
pub fn spelling_or_fault()
    ensures { SpellingOrFault }
{}

/// What the format of a record lets stand is exactly what the records are spelled as.
pub fn wholes_are_records()
    ensures { WholesAreRecords }
{}
