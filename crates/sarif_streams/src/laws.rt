//! A law of reading, the contract of a function that does nothing.
ghost use Rattle.std.specs.Prelude.{◌≡◌};
ghost use Rattle.sarif_streams.specs.WereRead.{AllTell, SourceContents, WereRead};
ghost use Rattle.sarif_streams.specs.declared.readers.Readers.{Readers};

use std::io::Read;

/// If readers say what they have left, the bytes read from them to their ends are determined.
pub fn sources_are_read_in_one_way<R: Read>()
    ensures { (old new : Readers R) (one other : SourceContents) → AllTell R.remaining old
        → WereRead R.remaining old new one → WereRead R.remaining old new other → one ≡ other }
{}
