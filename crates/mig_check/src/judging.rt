//! Whether a plan and its certificate are right.
ghost use Rattle.std.specs.Prelude.{◌≡◌, ◌↔◌, ◌⊎◌, IfErr, IfOk, OnOk, length};
ghost use Rattle.mig_base.specs.declared.blames.Blame.TheVariants.{Memory};
ghost use Rattle.mig_base.specs.declared.blames.Verdict.TheVariants.{Optimal};
ghost use Rattle.mig_base.specs.Bounding.{bound_value};
ghost use Rattle.mig_base.specs.Certificates.{CertFits, CertHolds};
ghost use Rattle.mig_base.specs.Judging.{FirstBlame};
ghost use Rattle.mig_base.specs.Running.{Once, PlanFits, Runs};
ghost use Rattle.mig_base.specs.Schedules.{Needs};
ghost use Rattle.mig_check.specs.Faults.{IsCertBlame, IsShownBlame};

use crate::counted::{BoundNumbers, count_cert, stated};
use crate::moved::check_once;
use crate::running::runs;
use mig_base::{Blame, Bound, Cert, Input, Plan, Verdict};
use std::alloc::Global;

/// Judges a plan and its certificate.
///
/// It is Ok where the plan runs, moves each relocated item once and no other item, and the certificate
/// states what is counted. Then every schedule needs at least as many rounds as the bound's value, and
/// the verdict is `Optimal` exactly where the plan has just that many, else `Bounded`.
///
/// An error is the first of what is wrong: as [`runs`] says, and then in the order of the kinds from
/// `MovedTooOften` to `ValueDiffers`. `Memory` is the answer where memory is refused.
pub fn judge(alloc: Global, input: &Input, plan: &Plan, cert: &Cert) -> Result<Verdict, Blame>
    requires plan { PlanFits input.now plan.now }
    requires cert { CertFits input.now cert.now }
    ensures runs { OnOk result (Runs input.now plan.now) }
    ensures once { OnOk result (Once input.now plan.now) }
    ensures holds { OnOk result (CertHolds input.now plan.now cert.now) }
    ensures needs { OnOk result (Needs input.now (bound_value cert.now.bound)) }
    ensures optimal { IfOk result (λ verdict. (verdict ≡ Optimal) ↔ (length plan.now ≡ bound_value cert.now.bound)) }
    ensures blame { IfErr result (λ blame. (blame ≡ Memory) ⊎ FirstBlame input.now plan.now cert.now blame) }
    ensures blameless { Runs input.now plan.now → Once input.now plan.now → CertHolds input.now plan.now cert.now
        → IfErr result (λ blame. blame ≡ Memory) }
{
    input.keeps_rules();
    if let Err(blame) = runs(alloc, input, plan) {
        return Err(blame);
    }
    if let Err(blame) = check_once(alloc, input, plan) {
        return Err(blame);
    }
    if let Err(blame) = check_cert(alloc, input, plan, cert) {
        return Err(blame);
    }
    Ok(give_verdict(plan, &cert.bound))
}

/// Whether the certificate states what is counted.
fn check_cert(alloc: Global, input: &Input, plan: &Plan, cert: &Cert) -> Result<(), Blame>
    requires plan { PlanFits input.now plan.now }
    requires cert { CertFits input.now cert.now }
    ensures holds { OnOk result (CertHolds input.now plan.now cert.now) }
    ensures blame { IfErr result (IsCertBlame input.now plan.now cert.now) }
{
    let Ok(counted) = count_cert(alloc, input, &cert.bound) else {
        return Err(Blame::Memory);
    };
    let rounds = plan.rounds().len() as u32;
    if cert.rounds != rounds {
        return Err(Blame::RoundsDiffer {
            kept: cert.rounds,
            counted: rounds,
        });
    }
    if cert.quotient != counted.quotient {
        return Err(Blame::QuotientDiffers {
            kept: cert.quotient,
            counted: counted.quotient,
        });
    }
    if cert.class != counted.class {
        return Err(Blame::ClassDiffers);
    }
    check_shown(stated(&cert.bound), counted.shown)
}

/// Whether what a bound states is what is counted.
fn check_shown(stated: BoundNumbers, counted: BoundNumbers) -> Result<(), Blame>
    ensures ok { OnOk result ((stated.load ≡ counted.load) × (stated.value ≡ counted.value)) }
    ensures blame { IfErr result (IsShownBlame stated counted) }
{
    if stated.load != counted.load {
        return Err(Blame::LoadDiffers {
            kept: stated.load,
            counted: counted.load,
        });
    }
    if stated.value != counted.value {
        return Err(Blame::ValueDiffers {
            kept: stated.value,
            counted: counted.value,
        });
    }
    Ok(())
}

/// What a right certificate says of its plan.
fn give_verdict(plan: &Plan, bound: &Bound) -> Verdict
    ensures { (result ≡ Optimal) ↔ (length plan.now ≡ bound_value bound.now) }
{
    if plan.rounds().len() == stated(bound).value as usize {
        Verdict::Optimal
    } else {
        Verdict::Bounded
    }
}
