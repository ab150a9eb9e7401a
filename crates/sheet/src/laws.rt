ghost use Rattle.sheet.specs.Laws.{ReadWritesBack, WrittenReadsBack};

use value::Kind;

// What is read writes back to the same bytes, and what is written reads as the same sheet.
pub fn round_trips_stand<K: Kind>()
    ensures there { ReadWritesBack K.Kind.form K.Kind.reads }
    ensures back { WrittenReadsBack K.Kind.form K.Kind.reads }
{}
