//! Reading the text of a certificate.
ghost use Rattle.std.specs.Prelude.{◌≡◌, ◌≢◌, ◌≤◌, ◌++◌, ◌∷◌, [], true, codes, length, IfErr, IfOk, MatchOption};
ghost use Rattle.mig_base.specs.declared.certs.Class.{Class};
ghost use Rattle.mig_base.specs.Certificates.{CertFits, is_duplex_class};
ghost use Rattle.mig_base.specs.CertLines.{before_members, CertLine, CertNext, Over, Shown, Title};
ghost use Rattle.mig_base.specs.InputLists.{is_duplex};
ghost use Rattle.mig_base.specs.Texts.{cert_lines, CertText, class_word, IsCert, words};
ghost use Rattle.mig_text.specs.Reads.{IfLine, IsMiss, IsStop, Took};
ghost use Rattle.mig_cert.specs.CertParts.{IsBoundRead, IsClassLine, IsCertOpened};

use crate::bounds::{Head, take_head};
use crate::cert_print::title_of;
use crate::members::take_members;
use mig_base::{Bound, Cert, Class, DiskSet, Input, MAX_FILE_BYTES};
use mig_text::{Finder, Lines, TextError};
use std::alloc::Global;

/// The certificate whose spelling the bytes are. It fits the input.
///
/// `Line` comes exactly where the bytes are no spelling or are more than 16,777,216, and has the
/// number of the first line that doesn't fit, or 0 where they are too many.
pub fn read_cert(alloc: Global, input: &Input, bytes: &[u8]) -> Result<Cert, TextError>
    ensures cert { IfOk result (λ cert. CertText input.now cert bytes.now) }
    ensures short { IfOk result (λ _. length bytes.now ≤ MAX_FILE_BYTES) }
    ensures line { IfErr result (IfLine (CertLine input.now bytes.now)) }
{
    if bytes.len() > MAX_FILE_BYTES {
        return Err(TextError::Line { number: 0 });
    }
    let finder = Finder::of(alloc, input)?;
    read_lines(alloc, &finder, Lines::of(bytes))
}

/// The certificate whose lines these are.
fn read_lines(alloc: Global, finder: &Finder<'_>, mut lines: Lines<'_>) -> Result<Cert, TextError>
    ensures kept { IfOk result IsCert }
    ensures fits { IfOk result (CertFits finder.now) }
    ensures lines { IfOk result (λ cert. lines.entry.pieces ≡ cert_lines finder.now cert ++ [] ∷ []) }
    ensures line { IfErr result (IsStop (CertNext finder.now) Title Over lines.entry) }
{
    finder.keeps_rules();
    let opening = take_opening(&mut lines, finder)?;
    let bound = take_bound(alloc, &mut lines, finder)?;
    lines.take_closing()?;
    Ok(Cert {
        rounds: opening.rounds,
        quotient: opening.quotient,
        class: opening.class,
        bound,
    })
}

/// What the first four lines say.
#[derive(Clone, Copy)]
struct Opening {
    rounds: u32,
    quotient: u32,
    class: Class,
}

/// Takes the first four lines.
fn take_opening(lines: &mut Lines<'_>, finder: &Finder<'_>) -> Result<Opening, TextError>
    ensures ok { IfOk result (λ o. IsCertOpened finder.now o.rounds o.quotient o.class lines.old lines.new) }
    ensures line { IfErr result (IsStop (CertNext finder.now) Title Over lines.old) }
{
    lines.take_fixed(title_of(finder.input()))?;
    let rounds = lines.take_count(b"rounds", u32::MAX)?;
    let quotient = lines.take_count(b"quotient", u32::MAX)?;
    let class = take_class(lines, finder)?;
    Ok(Opening {
        rounds,
        quotient,
        class,
    })
}

/// Takes the line of a class.
fn take_class(lines: &mut Lines<'_>, finder: &Finder<'_>) -> Result<Class, TextError>
    ensures ok { IfOk result (λ k. (is_duplex_class k ≡ is_duplex finder.now.disks) × Took lines.old (words (codes "class" ∷ class_word k ∷ [])) lines.new) }
    ensures err { IfErr result (IsMiss (IsClassLine finder.now) lines.old) }
{
    match read_class(finder.input().duplex(), lines.take_line()?) {
        Some(class) => Ok(class),
        None => Err(lines.misfit()),
    }
}

/// The class that a line spells, where it is one of limits of this kind.
fn read_class(duplex: bool, line: &[u8]) -> Option<Class>
    ensures { MatchOption result ((k : Class) → is_duplex_class k ≡ duplex → line.now ≢ words (codes "class" ∷ class_word k ∷ []))
        (λ k. (is_duplex_class k ≡ duplex) × (line.now ≡ words (codes "class" ∷ class_word k ∷ []))) }
{
    if duplex {
        return duplex_class(line);
    }
    if line == b"class even".as_slice() {
        return Some(Class::Even);
    }
    if line == b"class general".as_slice() {
        return Some(Class::General);
    }
    None
}

/// The class of split limits, where a line spells it.
fn duplex_class(line: &[u8]) -> Option<Class>
    ensures { MatchOption result ((k : Class) → is_duplex_class k ≡ true → line.now ≢ words (codes "class" ∷ class_word k ∷ []))
        (λ k. (is_duplex_class k ≡ true) × (line.now ≡ words (codes "class" ∷ class_word k ∷ []))) }
{
    if line == b"class duplex".as_slice() {
        return Some(Class::Duplex);
    }
    None
}

/// Takes the line of a bound and the names of its set's disks.
fn take_bound(alloc: Global, lines: &mut Lines<'_>, finder: &Finder<'_>) -> Result<Bound, TextError>
    ensures ok { IfOk result (λ bound. IsBoundRead finder.now bound lines.old lines.new) }
    ensures line { IfErr result (IsStop (CertNext finder.now) Shown Over lines.old) }
{
    match take_head(lines, finder)? {
        Head::Nothing => Ok(Bound::Nothing),
        Head::OfDisk { disk, load, value } => Ok(Bound::OfDisk { disk, load, value }),
        Head::OfSide {
            disk,
            side,
            load,
            value,
        } => Ok(Bound::OfSide {
            disk,
            side,
            load,
            value,
        }),
        Head::OfSet {
            count,
            inside,
            value,
        } => {
            let ids = take_members(alloc, lines, finder, count)?;
            Ok(Bound::OfSet {
                disks: DiskSet::of(ids),
                inside,
                value,
            })
        }
    }
}
