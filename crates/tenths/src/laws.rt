//! Laws of the texts.

ghost use Rattle.tenths.specs.Laws.{TextsDiffer};

/// Two numbers of tenths that aren't the same have different texts.
pub fn texts_differ()
    ensures { TextsDiffer }
{}
