ghost use Rattle.std.specs.Prelude.{◌≡◌, ◌++◌, IfOk, Ok, OnOk, map};
ghost use Rattle.std.specs.List.{flat_map};
ghost use Rattle.row_state.specs.declared.kind.Kinds.{Kinds as KindsOf};
ghost use Rattle.row_state.specs.Start.{AreSomeKinds};
ghost use Rattle.bound_log.specs.Fits.{IsLogName};
ghost use Rattle.bound_log.specs.Text.{gaps_line};
ghost use Rattle.track_log.specs.Fits.{CertificateFits};
ghost use Rattle.track_log.specs.Reading.{certificate_by, certificate_of, course_of};
ghost use Rattle.trail_log.specs.Spelling.{list_text};
ghost use Rattle.track_log.specs.Text.{certificate_text, certificate_text_by, cycle_line, fields_line, head_lines};
ghost use Rattle.track_log.specs.Text.{lemma_line, tracks_line};

use crate::course::version_line;
use crate::item::Item;
use crate::list::put_list;
use crate::{Course, TrackCertificate};
use bound_log::put_state;
use cell_num::{Bytes, Name, NoMemory, put_number};
use row_cycles::CycleLemma;
use row_state::State;
use std::alloc::Global;
use track_ways::TrackLemma;

fn put_head(out: &mut Bytes, course: Course, name: &Name) -> Result<(), NoMemory>
    ensures { OnOk result (out.new ≡ out.old ++ head_lines course name.now) }
{
    out.extend(version_line(course))?;
    out.extend(b"\ncell ")?;
    out.extend(name.as_slice())?;
    out.extend(b"\n")?;
    Ok(())
}

fn put_gaps(out: &mut Bytes, gaps: u32) -> Result<(), NoMemory>
    ensures { OnOk result (out.new ≡ out.old ++ gaps_line gaps) }
{
    out.extend(b"gaps ")?;
    put_number(out, u64::from(gaps))?;
    out.extend(b"\n")?;
    Ok(())
}

fn put_tracks(out: &mut Bytes, tracks: u32) -> Result<(), NoMemory>
    ensures { OnOk result (out.new ≡ out.old ++ tracks_line tracks) }
{
    out.extend(b"tracks ")?;
    put_number(out, u64::from(tracks))?;
    out.extend(b"\n")?;
    Ok(())
}

// The line of a lemma: its first word, further gaps, a state, and a list.
fn put_fields<T: Item>(
    out: &mut Bytes,
    front: &[u8],
    gaps: u32,
    state: &State,
    items: &[T],
) -> Result<(), NoMemory>
    ensures { OnOk result (out.new
        ≡ out.old ++ fields_line front.now gaps state.now (list_text 44 (map T.spelling items.now))) }
{
    out.extend(front)?;
    out.extend(b" ")?;
    put_number(out, u64::from(gaps))?;
    out.extend(b" ")?;
    put_state(out, state)?;
    out.extend(b" ")?;
    put_list(out, items)?;
    out.extend(b"\n")?;
    Ok(())
}

fn put_cycle(out: &mut Bytes, lemma: &CycleLemma) -> Result<(), NoMemory>
    ensures { OnOk result (out.new ≡ out.old ++ cycle_line lemma.now) }
{
    put_fields(
        out,
        b"cycle",
        lemma.gaps,
        &lemma.state,
        lemma.above.as_slice(),
    )
}

fn put_lemma(out: &mut Bytes, lemma: &TrackLemma) -> Result<(), NoMemory>
    ensures { OnOk result (out.new ≡ out.old ++ lemma_line lemma.now) }
{
    put_fields(
        out,
        b"lemma",
        lemma.gaps,
        &lemma.state,
        lemma.tracks.as_slice(),
    )
}

fn put_cycles(out: &mut Bytes, lemmas: &[CycleLemma]) -> Result<(), NoMemory>
    ensures { OnOk result (out.new ≡ out.old ++ flat_map cycle_line lemmas.now) }
{
    for lemma in lemmas {
        put_cycle(out, lemma)?;
    }
    Ok(())
}

fn put_lemmas(out: &mut Bytes, lemmas: &[TrackLemma]) -> Result<(), NoMemory>
    ensures { OnOk result (out.new ≡ out.old ++ flat_map lemma_line lemmas.now) }
{
    for lemma in lemmas {
        put_lemma(out, lemma)?;
    }
    Ok(())
}

fn text(
    alloc: Global,
    course: Course,
    name: &Name,
    certificate: &TrackCertificate,
) -> Result<Bytes, NoMemory>
    ensures { IfOk result (λ text. text ≡ certificate_text_by course name.now certificate.now) }
{
    let mut out = Bytes::new(alloc);
    put_head(&mut out, course, name)?;
    put_gaps(&mut out, certificate.gaps)?;
    put_tracks(&mut out, certificate.tracks)?;
    put_cycles(&mut out, certificate.cycles.as_slice())?;
    put_lemmas(&mut out, certificate.lemmas.as_slice())?;
    out.extend(b"end\n")?;
    Ok(out)
}

/// The text of a certificate of that course for the cell of that name, which has 1 to 32 bytes and no line feed. Its
/// first line names the course, and reading it gives the same certificate, for all kinds that it fits.
pub fn write_tracks_by(
    alloc: Global,
    course: Course,
    name: &Name,
    certificate: &TrackCertificate,
) -> Result<Vec<u8>, NoMemory>
    requires name { IsLogName name.now }
    ensures text { IfOk result (λ bytes. bytes.items ≡ certificate_text_by course name.now certificate.now) }
    ensures reads { IfOk result (λ bytes. (k : KindsOf) → AreSomeKinds k → CertificateFits k certificate.now →
        certificate_by course bytes.items name.now k ≡ Ok certificate.now) }
    ensures course { IfOk result (λ bytes. course_of bytes.items ≡ course) }
{
    let text = text(alloc, course, name, certificate)?;
    Ok(text.into_vec())
}

/// The text of a certificate where nets go straight, for the cell of that name, which has 1 to 32 bytes and no line
/// feed. Reading it gives the same certificate, for all kinds that it fits.
pub fn write_tracks(
    alloc: Global,
    name: &Name,
    certificate: &TrackCertificate,
) -> Result<Vec<u8>, NoMemory>
    requires name { IsLogName name.now }
    ensures text { IfOk result (λ bytes. bytes.items ≡ certificate_text name.now certificate.now) }
    ensures reads { IfOk result (λ bytes. (k : KindsOf) → AreSomeKinds k → CertificateFits k certificate.now →
        certificate_of bytes.items name.now k ≡ Ok certificate.now) }
{
    write_tracks_by(alloc, Course::Straight, name, certificate)
}
