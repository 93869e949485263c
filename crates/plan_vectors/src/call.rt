ghost use Rattle.table_store.specs.Standing.{AreTables};

use crate::errors::{fault_text, stop_text};
use crate::shown::{columns_text, outcome_text, save_text};
use crate::state::State;
use cn_base::Boxed;
use cn_types::Settings;
use plan_messages::{Plan, decode_plan};
use plan_model::Resolved;
use plan_resolve::resolve;
use plan_text::parse_pipeline;
use relation_eval::evaluate;
use resolve_names::ResolveStop;
use std::alloc::{AllocError, Global};
use table_store::Tables;

/// What is asked of a plan.
#[derive(Clone, Copy)]
enum Question {
    /// Its columns, or its first error.
    Resolve,
    /// Its rows too.
    Evaluate,
}

/// What a line is answered by, or none where it is no call: `resolve TEXT` and `evaluate TEXT` are asked of a pipeline text, and `resolve_plan
/// HEX` and `evaluate_plan HEX` of a plan's message.
pub fn answer(alloc: Global, state: &mut State, line: &str) -> Result<Option<String>, AllocError> {
    let (name, rest) = line.split_once(" ").unwrap_or((line, ""));
    match name {
        "resolve" => asked_of_text(alloc, state, Question::Resolve, rest),
        "evaluate" => asked_of_text(alloc, state, Question::Evaluate, rest),
        "resolve_plan" => asked_of_message(alloc, state, Question::Resolve, rest),
        "evaluate_plan" => asked_of_message(alloc, state, Question::Evaluate, rest),
        _ => {
            state.take(alloc, name, line)?;
            Ok(None)
        }
    }
}

fn asked_of_text(
    alloc: Global,
    state: &State,
    question: Question,
    text: &str,
) -> Result<Option<String>, AllocError> {
    match parse_pipeline(alloc, text) {
        Ok(plan) => {
            let plan = Boxed::new(alloc, plan).map_err(|_| AllocError)?;
            Ok(Some(asked(alloc, state, question, plan.get())?))
        }
        Err(fault) => Ok(Some(fault_text(alloc, &fault)?)),
    }
}

fn asked_of_message(
    alloc: Global,
    state: &State,
    question: Question,
    digits: &str,
) -> Result<Option<String>, AllocError> {
    let Ok(bytes) = hex::decode(alloc, digits) else {
        return Ok(Some(line_of(alloc, "unreadable argument")?));
    };
    match decode_plan(alloc, bytes.as_slice()) {
        Ok(plan) => {
            let plan = Boxed::new(alloc, plan).map_err(|_| AllocError)?;
            Ok(Some(asked(alloc, state, question, plan.get())?))
        }
        Err(_) => Ok(Some(line_of(alloc, "no message")?)),
    }
}

/// An answer of one line.
fn line_of(alloc: Global, text: &str) -> Result<String, AllocError> {
    format!(in alloc; "  -> {text}\n")
}

fn asked(
    alloc: Global,
    state: &State,
    question: Question,
    plan: &Plan,
) -> Result<String, AllocError> {
    match state.tables(alloc)? {
        Some(tables) => answered(alloc, &tables, state.settings(), question, plan),
        None => line_of(alloc, "bad table"),
    }
}

fn answered(
    alloc: Global,
    tables: &Tables,
    settings: &Settings,
    question: Question,
    plan: &Plan,
) -> Result<String, AllocError>
    requires { AreTables tables.now }
{
    match resolve(alloc, plan, tables, settings) {
        Ok(resolved) => match question {
            Question::Resolve => schema_answer(alloc, &resolved),
            Question::Evaluate => {
                let outcome = evaluate(alloc, &resolved).map_err(|_| AllocError)?;
                outcome_text(alloc, &outcome)
            }
        },
        Err(stop) => stop_answer(alloc, &stop),
    }
}

fn stop_answer(alloc: Global, stop: &ResolveStop) -> Result<String, AllocError> {
    let text = stop_text(alloc, stop)?;
    line_of(alloc, text.as_str())
}

fn schema_answer(alloc: Global, resolved: &Resolved) -> Result<String, AllocError> {
    let columns = columns_text(alloc, &resolved.schema)?;
    let save = match &resolved.save {
        Some(save) => save_text(alloc, save)?,
        None => String::new(alloc),
    };
    format!(in alloc; "  -> ok {columns}{save}\n")
}
