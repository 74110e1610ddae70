//! How long the text of a plan is.
ghost use Rattle.mig_text.specs.Lengths.{PlanTextsAreShort};

/// The text of a plan that can be carried out and moves each relocated item once isn't too long to
/// be read back.
pub fn plan_texts_are_short()
    ensures { PlanTextsAreShort }
{}
