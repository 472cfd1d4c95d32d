//! Laws of the format. Each is the contract of a function that does nothing.

ghost use Rattle.journal_format.specs.RoundTrip.{ReadsBack, HasOneSpelling};

/// The body of a change reads as the change, but for what its stored queries ask, and as the schema's signature where it
/// is an opening. Every change that `put_record` takes is such a change: its clause `reads_back` says so of the change at
/// hand.
pub fn reads_back()
    ensures { ReadsBack }
{}

/// What is read of bytes has just these as its body, and may be put again.
pub fn has_one_spelling()
    ensures { HasOneSpelling }
{}
