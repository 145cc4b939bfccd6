ghost use Rattle.std.specs.Prelude.{◌≡◌, ◌++◌, ◌∷◌, OnOk, decimal};
ghost use Rattle.def_transcript.specs.Texts.{class_text, method_text, plan_words, requirement_text, serving_text, state_text};
ghost use Rattle.wh_render.specs.Pieces.{more_words, spaced};

use crate::words::{push_named, push_number, push_printed};
use std::alloc::AllocError;
use wh_base::replies::PlanLine;
use wh_base::statements::Method;
use wh_base::txt::Txt;
use wh_base::views::{Class, Requirement, Serving, ViewState};

/// The name of a method of refresh.
pub fn method_text(method: Method) -> &'static str
    ensures { result.now ≡ method_text method }
{
    match method {
        Method::Fast => "FAST",
        Method::Complete => "COMPLETE",
        Method::Partition => "PARTITION",
        Method::Force => "FORCE",
    }
}

/// The name of a class of rewrite.
fn class_text(class: Class) -> &'static str
    ensures { result.now ≡ class_text class }
{
    match class {
        Class::Full => "FULL",
        Class::Partial => "PARTIAL",
        Class::General => "GENERAL",
        Class::JoinBack => "JOINBACK",
        Class::Concat => "CONCAT",
    }
}

/// The name of a requirement of rewrite.
pub fn requirement_text(requirement: Requirement) -> &'static str
    ensures { result.now ≡ requirement_text requirement }
{
    match requirement {
        Requirement::E1 => "E1",
        Requirement::E2 => "E2",
        Requirement::E3 => "E3",
        Requirement::E4 => "E4",
        Requirement::E5 => "E5",
        Requirement::E6 => "E6",
        Requirement::E7 => "E7",
        Requirement::E8 => "E8",
        Requirement::E9 => "E9",
    }
}

/// The name of the class in which a view answers, or of the requirement that it fails.
pub fn serving_text(serving: Serving) -> &'static str
    ensures { result.now ≡ serving_text serving }
{
    match serving {
        Serving::Serves(class) => class_text(class),
        Serving::Fails(requirement) => requirement_text(requirement),
    }
}

/// The name of a view's state.
pub fn state_text(state: ViewState) -> &'static str
    ensures { result.now ≡ state_text state }
{
    match state {
        ViewState::Unbuilt => "UNBUILT",
        ViewState::Fresh => "FRESH",
        ViewState::Partly => "PARTLY",
        ViewState::Stale => "STALE",
    }
}

/// A view at its point.
fn push_view_at(out: &mut Vec<u8>, view: &Txt, point: u64) -> Result<(), AllocError>
    ensures { OnOk result (out.new.items
        ≡ out.old.items ++ spaced (view.now ++ 64 ∷ decimal point)) }
{
    out.push(b' ')?;
    out.extend_from_slice(view.as_slice())?;
    out.push(b'@')?;
    push_number(out, point)?;
    Ok(())
}

/// PLAN and the plan.
pub fn push_plan(out: &mut Vec<u8>, plan: &PlanLine) -> Result<(), AllocError>
    ensures { OnOk result (out.new.items ≡ out.old.items ++ more_words (plan_words plan.now)) }
{
    match plan {
        PlanLine::BasePlan => {
            push_named(out, b"PLAN", b"BASE")?;
            Ok(())
        }
        PlanLine::ViewAt(class, view, point, backs) => {
            push_named(out, b"PLAN", class_text(*class).as_bytes())?;
            push_view_at(out, view, *point)?;
            push_printed(out, backs)?;
            Ok(())
        }
    }
}
