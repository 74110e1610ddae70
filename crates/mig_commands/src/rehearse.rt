//! `rehearse`: makes a case from three numbers, plans it, and tells how good the plan is.
ghost use Rattle.std.specs.Prelude.{◌≡◌, ◌∷◌, ◌++◌, [], IfOk, OnOk, length};
ghost use Rattle.std.specs.String.{string_bytes};
ghost use Rattle.mig_base.specs.Bounding.{bound_value};
ghost use Rattle.mig_base.specs.Certificates.{CertFits};
ghost use Rattle.mig_base.specs.Running.{PlanFits};
ghost use Rattle.mig_base.specs.Targets.{IsRoomy};
ghost use Rattle.mig_base.specs.Texts.{text_of_lines, words};
ghost use Rattle.mig_best.specs.Certified.{IsCertified};
ghost use Rattle.mig_commands.specs.rehearse.Texts.{IsPlanDigest, IsRehearsed, case_in, eight_lines, six_lines, verdict_word};
ghost use Rattle.mig_words.specs.Words.{AreCaseWords};

use mig_base::{Blame, Cert, Input, Plan, Verdict};
use mig_best::{Certified, certified_plan, value_of};
use mig_check::judge;
use mig_gen::make_case;
use mig_graph::Graph;
use mig_journal::digest_of;
use mig_text::{print_plan, push_count};
use mig_words::number_in;
use std::alloc::{AllocError, Global};

/// The verdict on a plan and its certificate, by the checker.
fn verdict_of(alloc: Global, input: &Input, made: &Certified) -> Result<&'static [u8], AllocError>
    requires made { IsCertified input.now made.now.plan made.now.cert }
    requires fits { CertFits input.now made.now.cert }
    ensures { IfOk result (λ word. word.now ≡ verdict_word made.now.plan made.now.cert) }
{
    match judge(alloc, input, &made.plan, &made.cert) {
        Ok(Verdict::Optimal) => Ok(b"optimal"),
        Ok(Verdict::Bounded) => Ok(b"bounded"),
        Err(Blame::Memory) => Err(AllocError),
        Err(_) => unreachable!(),
    }
}

/// The digest of a plan's text, in hexadecimal.
fn plan_digest(alloc: Global, input: &Input, plan: &Plan) -> Result<String, AllocError>
    requires { PlanFits input.now plan.now }
    ensures { IfOk result (λ digest. IsPlanDigest input.now plan.now (string_bytes digest)) }
{
    let text = print_plan(alloc, input, plan)?;
    hex::encode(alloc, digest_of(&text).as_slice())
}

/// The numbers of a rehearsal.
#[derive(Clone, Copy)]
struct RehearsalNumbers {
    disks: u32,
    items: u32,
    moves: u32,
    quotient: u32,
    rounds: u32,
    bound: u32,
}

/// The numbers of an input, by its transfer graph, and of a certificate.
fn numbers_of(input: &Input, graph: &Graph, cert: &Cert) -> RehearsalNumbers
    ensures disks { result.disks ≡ length input.now.disks }
    ensures items { result.items ≡ length input.now.items }
    ensures moves { result.moves ≡ length graph.now.transfers }
    ensures quotient { result.quotient ≡ cert.now.quotient }
    ensures rounds { result.rounds ≡ cert.now.rounds }
    ensures bound { result.bound ≡ bound_value cert.now.bound }
{
    RehearsalNumbers {
        disks: input.disks().len() as u32,
        items: input.items().len() as u32,
        moves: graph.edges(),
        quotient: cert.quotient,
        rounds: cert.rounds,
        bound: value_of(&cert.bound),
    }
}

/// Adds the six lines of numbers.
fn push_numbers(out: &mut Vec<u8>, numbers: &RehearsalNumbers) -> Result<(), AllocError>
    ensures { OnOk result (out.new.items ≡ out.old.items ++ text_of_lines (six_lines numbers.now.disks numbers.now.items numbers.now.moves numbers.now.quotient numbers.now.rounds numbers.now.bound)) }
{
    push_count(out, b"disks", numbers.disks)?;
    push_count(out, b"items", numbers.items)?;
    push_count(out, b"moves", numbers.moves)?;
    push_count(out, b"quotient", numbers.quotient)?;
    push_count(out, b"rounds", numbers.rounds)?;
    push_count(out, b"bound", numbers.bound)?;
    Ok(())
}

/// Adds a line of two words.
fn push_words(out: &mut Vec<u8>, word: &[u8], text: &[u8]) -> Result<(), AllocError>
    ensures { OnOk result (out.new.items ≡ out.old.items ++ (words (word.now ∷ text.now ∷ []) ++ 10 ∷ [])) }
{
    out.extend_from_slice(word)?;
    out.push(b' ')?;
    out.extend_from_slice(text)?;
    out.push(b'\n')?;
    Ok(())
}

/// The eight lines of a rehearsal.
fn lines_of(
    alloc: Global,
    numbers: &RehearsalNumbers,
    verdict: &[u8],
    digest: &[u8],
) -> Result<Vec<u8>, AllocError>
    ensures { IfOk result (λ text. text.items ≡ text_of_lines (eight_lines numbers.now.disks numbers.now.items numbers.now.moves numbers.now.quotient numbers.now.rounds numbers.now.bound verdict.now digest.now)) }
{
    let mut out = Vec::new(alloc);
    push_numbers(&mut out, numbers)?;
    push_words(&mut out, b"verdict", verdict)?;
    push_words(&mut out, b"plan", digest)?;
    Ok(out)
}

/// Plans an input, and tells its numbers, those of the plan, the verdict and the digest of the plan's text.
fn rehearse_input(alloc: Global, input: &Input) -> Result<Vec<u8>, AllocError>
    requires { IsRoomy input.now }
    ensures { IfOk result (λ text. IsRehearsed input.now text.items) }
{
    let graph = Graph::of(alloc, input)?;
    let made = certified_plan(alloc, input, &graph)?;
    let verdict = verdict_of(alloc, input, &made)?;
    let digest = plan_digest(alloc, input, &made.plan)?;
    let numbers = numbers_of(input, &graph, &made.cert);
    lines_of(alloc, &numbers, verdict, digest.as_bytes())
}

/// Rehearses the case of three numbers: so many disks, so many items for each disk to each other disk, and a limit.
pub fn rehearsed(
    alloc: Global,
    disks: &str,
    per_pair: &str,
    limit: &str,
) -> Result<Vec<u8>, AllocError>
    requires { AreCaseWords disks.now per_pair.now limit.now }
    ensures { IfOk result (λ text. IsRehearsed (case_in disks.now per_pair.now limit.now) text.items) }
{
    let input = make_case(
        alloc,
        number_in(disks),
        number_in(per_pair),
        number_in(limit),
    )?;
    rehearse_input(alloc, &input)
}
