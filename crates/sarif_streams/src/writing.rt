//! Writing an output completely.
ghost use Rattle.std.specs.Prelude.{◌<◌, ◌^◌, OnOk, IfErr, length, take, is_err};
ghost use Rattle.std.specs.Io.KnownBytes.{Appends};
ghost use Rattle.sarif_streams.specs.Counted.{inner_of, failed_calls, RisesIf};

use crate::counted::Counted;
use std::io::Write;

/// Writes all of `bytes`. The first write that fails, or accepts none of them, ends it. Then the error is the
/// number of bytes that were accepted, which are the first ones and never all.
pub fn write_out<W: Write>(out: &mut Counted<W>, bytes: &[u8]) -> Result<(), u64>
    requires { failed_calls out.old < 2 ^ 63 }
    ensures ok { OnOk result (Appends (W.contents (inner_of out.old))
        (W.contents (inner_of out.new)) bytes.now) }
    ensures part { IfErr result (λ n. n < length bytes.now) }
    ensures prefix { IfErr result (λ n. Appends (W.contents (inner_of out.old))
        (W.contents (inner_of out.new)) (take n bytes.now)) }
    ensures counted { RisesIf (is_err result) (failed_calls out.old) (failed_calls out.new) }
{
    let mut done = 0;
    while done < bytes.len() {
        match out.write(&bytes[done..]) {
            Ok(taken) => done += taken,
            Err(_) => return Err(done as u64),
        }
    }
    Ok(())
}
