//! The specs of jobs.

ghost use Rattle.std.specs.Prelude.{◌≡◌, ◌++◌, [], None, Some, codes, flat_map, IfOk, IsOkUnless};
ghost use Rattle.std.specs.Fmt.{DisplaysOnOk};
ghost use Rattle.std.specs.List.{list_any};
ghost use Rattle.fleet_model.specs.Jobs.{is_drain};
ghost use Rattle.fleet_jobs.specs.declared.spec.CompactionSpec.TheVariants as spec;
ghost use Rattle.fleet_jobs.specs.Sources.{is_run, is_view};
ghost use Rattle.fleet_jobs.specs.Specs.{destination_of, segment_of, sources_of, spec_of};
ghost use Rattle.fleet_jobs.specs.Texts.{byte_text, is_plain, quoted_source, segment_or_root, segment_text, sources_text, spec_text};

use crate::{SourceId, SourceList};
use bytes::Bytes;
use fleet_rows::{Copies, ListOf, SlateDBError, Ulid};
use std::alloc::AllocError;
use std::fmt;
use std::marker::Model;

/// The spec of a job that merges its sources into one sorted run. Contracts see its parts.
#[derive(Debug, Drop, PartialEq, Eq)]
pub struct TieredCompactionSpec {
    segment: Bytes,
    sources: SourceList,
    destination: u32,
}

impl Model for TieredCompactionSpec {
    ghost use Rattle.fleet_jobs.specs.Parts.SpecParts.{TieredSpec};

    ghost Value = { TieredSpec };

    ghost view = { λ s. record {
      segment = s.segment;
      sources = s.sources;
      destination = s.destination;
    } };

    ghost inverse = { λ v. record {
      segment = v.segment;
      sources = v.sources;
      destination = v.destination;
    } };
}

impl TieredCompactionSpec {
    /// A copy.
    pub fn clone(&self) -> Result<TieredCompactionSpec, SlateDBError>
        ensures copy { IfOk result (λ copy. copy ≡ self.now) }
        ensures memory { IsOkUnless result SlateDBError.Memory }
    {
        Ok(Clone::clone(self)?)
    }
}

impl Clone for TieredCompactionSpec {
    ghost is_clone = { λ spec copy. copy ≡ spec };

    fn clone(&self) -> Result<TieredCompactionSpec, AllocError> {
        Ok(TieredCompactionSpec {
            segment: Clone::clone(&self.segment)?,
            sources: Clone::clone(&self.sources)?,
            destination: self.destination,
        })
    }
}

/// The spec of a job that drops its sources from the tree of a segment. Contracts see its parts.
#[derive(Debug, Drop, PartialEq, Eq)]
pub struct DrainSegmentSpec {
    segment: Bytes,
    sources: SourceList,
}

impl Model for DrainSegmentSpec {
    ghost use Rattle.fleet_jobs.specs.Parts.SpecParts.{DrainSpec};

    ghost Value = { DrainSpec };

    ghost view = { λ s. record { segment = s.segment; sources = s.sources } };

    ghost inverse = { λ v. record { segment = v.segment; sources = v.sources } };
}

impl DrainSegmentSpec {
    /// A copy.
    pub fn clone(&self) -> Result<DrainSegmentSpec, SlateDBError>
        ensures copy { IfOk result (λ copy. copy ≡ self.now) }
        ensures memory { IsOkUnless result SlateDBError.Memory }
    {
        Ok(Clone::clone(self)?)
    }
}

impl Clone for DrainSegmentSpec {
    ghost is_clone = { λ spec copy. copy ≡ spec };

    fn clone(&self) -> Result<DrainSegmentSpec, AllocError> {
        Ok(DrainSegmentSpec {
            segment: Clone::clone(&self.segment)?,
            sources: Clone::clone(&self.sources)?,
        })
    }
}

/// The spec of a job: which sources of which segment's tree it takes, and which run it makes of
/// them. A drain makes no run. The empty segment is the root. No rule for jobs is checked here.
#[derive(Clone, Debug, Drop, PartialEq, Eq)]
pub enum CompactionSpec {
    Tiered(TieredCompactionSpec),
    DrainSegment(DrainSegmentSpec),
}

impl CompactionSpec {
    /// The spec of a job of the root.
    pub fn new(sources: Vec<SourceId>, destination: u32) -> CompactionSpec
        ensures { result ≡ spec.Tiered
            (record { segment = []; sources = sources.items; destination = destination }) }
    {
        CompactionSpec::for_segment(Bytes::new(), sources, destination)
    }

    /// The spec of a job of this segment.
    pub fn for_segment(segment: Bytes, sources: Vec<SourceId>, destination: u32) -> CompactionSpec
        ensures { result ≡ spec.Tiered
            (record { segment = segment; sources = sources.items; destination = destination }) }
    {
        CompactionSpec::Tiered(TieredCompactionSpec {
            segment,
            sources: SourceList::from_vec(sources),
            destination,
        })
    }

    /// The spec of a drain of this segment.
    pub fn drain_segment(segment: Bytes, sources: Vec<SourceId>) -> CompactionSpec
        ensures { result
            ≡ spec.DrainSegment (record { segment = segment; sources = sources.items }) }
    {
        CompactionSpec::DrainSegment(DrainSegmentSpec {
            segment,
            sources: SourceList::from_vec(sources),
        })
    }

    /// The prefix of the segment.
    pub fn segment(&self) -> &Bytes
        ensures { result.now ≡ segment_of self.now }
    {
        match self {
            CompactionSpec::Tiered(spec) => &spec.segment,
            CompactionSpec::DrainSegment(spec) => &spec.segment,
        }
    }

    /// The sources, in the order in which the spec names them.
    pub fn sources(&self) -> &[SourceId]
        ensures { result.now ≡ sources_of self.now }
    {
        match self {
            CompactionSpec::Tiered(spec) => spec.sources.as_slice(),
            CompactionSpec::DrainSegment(spec) => spec.sources.as_slice(),
        }
    }

    /// The id of the run that the job makes, or None if it is a drain.
    pub fn destination(&self) -> Option<u32>
        ensures { result ≡ destination_of self.now }
    {
        match self {
            CompactionSpec::Tiered(spec) => Some(spec.destination),
            CompactionSpec::DrainSegment(_) => None,
        }
    }

    /// Whether the job is a drain.
    pub fn is_drain(&self) -> bool
        ensures { result ≡ is_drain (spec_of self.now) }
    {
        matches!(self, CompactionSpec::DrainSegment(_))
    }

    /// Whether a source is a flush.
    pub fn has_l0_sources(&self) -> bool
        ensures { result ≡ list_any is_view (sources_of self.now) }
    {
        self.sources()
            .iter()
            .any(|source| source.maybe_unwrap_sst_view().is_some())
    }

    /// Whether a source is a sorted run.
    pub fn has_sr_sources(&self) -> bool
        ensures { result ≡ list_any is_run (sources_of self.now) }
    {
        self.sources()
            .iter()
            .any(|source| source.maybe_unwrap_sorted_run().is_some())
    }

    /// A copy.
    pub fn clone(&self) -> Result<CompactionSpec, SlateDBError>
        ensures copy { IfOk result (λ copy. copy ≡ self.now) }
        ensures memory { IsOkUnless result SlateDBError.Memory }
    {
        Ok(Clone::clone(self)?)
    }
}

impl Copies for CompactionSpec {
    fn copied(&self) -> Result<CompactionSpec, AllocError> {
        Clone::clone(self)
    }
}

/// Prints the segment, if it is not the root, then the sources, then what is made of them, as in
/// `[seg=b"user1:"] ["l0", "3"] -> SR(3)`. The text of a drain is as in
/// `[seg=b"user1:"] drain ["3"]`, also if the segment is the root.
impl fmt::Display for CompactionSpec {
    ghost output = { λ spec. Some (spec_text spec) };

    fn fmt<W: fmt::Write>(&self, f: &mut fmt::Formatter<W>) -> fmt::Result {
        match self {
            CompactionSpec::Tiered(spec) => {
                write_segment_or_root(f, spec.segment.as_slice())?;
                write_sources(f, spec.sources.as_slice())?;
                write!(f, " -> SR({})", spec.destination)
            }
            CompactionSpec::DrainSegment(spec) => {
                write_segment(f, spec.segment.as_slice())?;
                write!(f, "drain ")?;
                write_sources(f, spec.sources.as_slice())
            }
        }
    }
}

// Writes the prefix of a segment, unless it is the root.
fn write_segment_or_root<W: fmt::Write>(f: &mut fmt::Formatter<W>, segment: &[u8]) -> fmt::Result
    ensures { DisplaysOnOk W.write_str_gives f.old result
        (Some (segment_or_root segment.now)) f.new }
{
    if segment.is_empty() {
        Ok(())
    } else {
        write_segment(f, segment)
    }
}

// Writes the prefix of a segment as a byte string.
fn write_segment<W: fmt::Write>(f: &mut fmt::Formatter<W>, segment: &[u8]) -> fmt::Result
    ensures { DisplaysOnOk W.write_str_gives f.old result (Some (segment_text segment.now)) f.new }
{
    write!(f, "[seg=b\"")?;
    write_bytes(f, segment)?;
    write!(f, "\"] ")
}

// Writes the bytes of a prefix, one by one.
fn write_bytes<W: fmt::Write>(f: &mut fmt::Formatter<W>, bytes: &[u8]) -> fmt::Result
    ensures { DisplaysOnOk W.write_str_gives f.old result
        (Some (flat_map byte_text bytes.now)) f.new }
{
    'bytes: for byte in bytes {
        write_byte(f, *byte)?;
    }
    Ok(())
}

// Writes a byte. Quotes, backslashes and bytes that are no printable ASCII are written in
// hexadecimal digits.
fn write_byte<W: fmt::Write>(f: &mut fmt::Formatter<W>, byte: u8) -> fmt::Result
    ensures { DisplaysOnOk W.write_str_gives f.old result (Some (byte_text byte)) f.new }
{
    if is_plain(byte) {
        return write!(f, "{}", byte as char);
    }
    let (high, low) = (byte / 16, byte % 16);
    write!(f, "\\x{high:x}{low:x}")
}

fn is_plain(byte: u8) -> bool
    ensures { result ≡ is_plain byte }
{
    byte >= b' ' && byte <= b'~' && byte != b'"' && byte != b'\\'
}

// Writes each source in quotes, with commas between them, in brackets.
fn write_sources<W: fmt::Write>(f: &mut fmt::Formatter<W>, sources: &[SourceId]) -> fmt::Result
    ensures { DisplaysOnOk W.write_str_gives f.old result (Some (sources_text sources.now)) f.new }
{
    let Some((first, others)) = sources.split_first() else {
        return write!(f, "[]");
    };
    write!(f, "[\"{first}\"")?;
    write_others(f, others)?;
    write!(f, "]")
}

// Writes each source in quotes, with a comma before it.
fn write_others<W: fmt::Write>(f: &mut fmt::Formatter<W>, sources: &[SourceId]) -> fmt::Result
    ensures { DisplaysOnOk W.write_str_gives f.old result
        (Some (flat_map (λ other. codes ", " ++ quoted_source other) sources.now)) f.new }
{
    'sources: for source in sources {
        write!(f, ", \"{source}\"")?;
    }
    Ok(())
}

/// The specs of new jobs, each with the id of its job.
pub type SpecList = ListOf<(Ulid, CompactionSpec)>;
