//! Reading the sources of a merge from readers.
ghost use Rattle.std.specs.Prelude.{◌≡◌, ◌≤◌, ◌<◌, ◌^◌, IfOk, IfErr, length, map, option_map};
ghost use Rattle.std.specs.List.{All};
ghost use Rattle.sarif_streams.specs.AreRead.{IsRead, AreRead, HasStopped, StopsIn};
ghost use Rattle.sarif_streams.specs.Counted.{failed_calls, RisesIf};
ghost use Rattle.sarif_streams.specs.Failing.{failed_calls_in, NoneFalls, reading_has_failed};
ghost use Rattle.sarif_streams.specs.OptionalReader.{failed_calls_if};
ghost use Rattle.sarif_streams.specs.Room.{HaveRoom};
ghost use Rattle.sarif_model.specs.Internal.SourceKind.{source_of};
ghost use Rattle.sarif_streams.specs.WereRead.{contents_of, failures, HasStoppedAt, HasStoppedIf, IsReadIf, NoNumberFalls, WereRead};
ghost use Rattle.sarif_model.specs.Limits.{most_sources};

use crate::counted::Counted;
use crate::readers::{Readers, ReadersFault, SourceBytes};
use crate::source::read_source;
use sarif_model::{Refusal, Source, SourceKind};
use std::alloc::Global;
use std::io::Read;

/// Reads the source to its end.
fn read_reader<R: Read>(
    alloc: Global,
    source: Source,
    reader: &mut Counted<R>,
) -> Result<Vec<u8>, Refusal<ReadersFault>>
    requires { failed_calls reader.old < 2 ^ 63 }
    ensures read { IfOk result (λ v. IsRead R.remaining reader.old reader.new v.items) }
    ensures stopped { IfErr result (HasStopped R.remaining source reader.old reader.new) }
    ensures read_failed { RisesIf (reading_has_failed result)
        (failed_calls reader.old) (failed_calls reader.new) }
{
    match read_source(alloc, reader) {
        Ok(bytes) => Ok(bytes),
        Err(Refusal::Fault(fault)) => Err(Refusal::Fault(ReadersFault { source, fault })),
        Err(Refusal::OutOfMemory) => Err(Refusal::OutOfMemory),
    }
}

/// Reads the sources of a kind to their ends, in order; the first that fails ends it.
#[tactic(auto, using(crate::proofs::ReadersRead::none_has_fallen))]
fn read_readers<R: Read>(
    alloc: Global,
    kind: SourceKind,
    readers: &mut [Counted<R>],
) -> Result<Vec<Vec<u8>>, Refusal<ReadersFault>>
    requires few { length readers.old ≤ most_sources }
    requires faults { All (λ reader. failed_calls reader < 2 ^ 63) readers.old }
    ensures read { IfOk result (λ sources. AreRead R.remaining readers.old readers.new
        (map (λ v. v.items) sources.items)) }
    ensures number { IfOk result (λ sources. length sources.items ≡ length readers.old) }
    ensures stopped { IfErr result
        (StopsIn R.remaining (source_of kind) 0 readers.old readers.new) }
    ensures read_failed { RisesIf (reading_has_failed result)
        (failed_calls_in readers.old) (failed_calls_in readers.new) }
    ensures risen { NoneFalls readers.old readers.new }
{
    let mut sources = Vec::new(alloc);
    for (number, reader) in readers.iter_mut().enumerate() {
        let bytes = read_reader(alloc, kind.source(number as u32), reader)?;
        sources.push(bytes)?;
    }
    Ok(sources)
}

/// Reads a source to its end, if it is there.
fn read_optional<R: Read>(
    alloc: Global,
    source: Source,
    reader: &mut Option<Counted<R>>,
) -> Result<Option<Vec<u8>>, Refusal<ReadersFault>>
    requires { failed_calls_if reader.old < 2 ^ 63 }
    ensures read { IfOk result (λ bytes. IsReadIf R.remaining reader.old
        reader.new (option_map (λ v. v.items) bytes)) }
    ensures stopped { IfErr result (HasStoppedIf R.remaining source reader.old reader.new) }
    ensures read_failed { RisesIf (reading_has_failed result)
        (failed_calls_if reader.old) (failed_calls_if reader.new) }
    ensures risen { failed_calls_if reader.old ≤ failed_calls_if reader.new }
{
    match reader {
        Some(reader) => {
            let bytes = read_reader(alloc, source, reader)?;
            Ok(Some(bytes))
        }
        None => Ok(None),
    }
}

/// Reads all sources to their ends, in this order: the logs, the baselines, the suppression file, the policy, the diff.
/// The first source that cannot be read ends it: `ReadFailed` if a read failed, `TooLong` if it has more than
/// `MOST_BYTES` bytes, each with the source; `OutOfMemory` if memory runs out. The sources before it were read, and
/// the sources after it are untouched.
pub fn read_sources<R: Read>(
    alloc: Global,
    readers: &mut Readers<R>,
) -> Result<SourceBytes, Refusal<ReadersFault>>
    requires few_logs { length readers.old.logs.items ≤ most_sources }
    requires few_baselines { length readers.old.baselines.items ≤ most_sources }
    requires room { HaveRoom readers.old }
    ensures read { IfOk result
        (λ sources. WereRead R.remaining readers.old readers.new (contents_of sources)) }
    ensures few_logs { IfOk result (λ sources. length sources.logs.items ≤ most_sources) }
    ensures few_baselines { IfOk result (λ sources. length sources.baselines.items ≤ most_sources) }
    ensures stopped { IfErr result (HasStoppedAt R.remaining readers.old readers.new) }
    ensures read_failed { RisesIf (reading_has_failed result)
        (failures readers.old) (failures readers.new) }
    ensures risen { NoNumberFalls readers.old readers.new }
{
    let logs = read_readers(alloc, SourceKind::Log, readers.logs.as_mut_slice())?;
    let baselines = read_readers(
        alloc,
        SourceKind::Baseline,
        readers.baselines.as_mut_slice(),
    )?;
    let suppressions = read_optional(alloc, Source::Suppress, &mut readers.suppressions)?;
    let policy = read_optional(alloc, Source::Policy, &mut readers.policy)?;
    let diff = read_optional(alloc, Source::Diff, &mut readers.diff)?;
    Ok(SourceBytes {
        logs,
        baselines,
        suppressions,
        policy,
        diff,
    })
}
