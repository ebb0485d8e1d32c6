// A line of the order.
ghost use Rattle.std.specs.Prelude.{◌≡◌, ℕ, IfOk, IfErr, Ok, Err, length, option_map};
ghost use Rattle.chv_defs_scene.specs.declared.scene.OrderStep.{OrderStep as Step};
ghost use Rattle.chv_defs_scene.specs.ScenarioLines.{Has, at_most, most_steps, order_word, number_line};
ghost use Rattle.chv_defs_scene.specs.ScenarioLines as line;
ghost use Rattle.chv_scene.specs.Meanings.{part_of, Went};

use crate::fields::{at_space, has_space, is_word};
use crate::meaning::{at_most, end_line, grown};
use chv_defs_base::{Reason, Row};
use chv_defs_scene::OrderStep;
use chv_num::read_dec;
use std::alloc::AllocError;

/// How many steps the order may have.
const MOST_STEPS: usize = 65_536;

/// Reads the next line of the order with these steps. Whether the order goes on, or why the line fails.
pub(crate) fn take_step(
    steps: &mut Row<OrderStep>,
    text: &[u8],
) -> Result<Result<bool, Reason>, AllocError>
    ensures { IfOk result (λ went. Went steps.old steps.new went (at_most most_steps (length steps.old) (order_word (line.at_space text.now).0 (line.at_space text.now).1))) }
{
    let meaning = at_most(MOST_STEPS, steps.len(), step_line(text));
    grown(steps, meaning)
}

// What the line means, or why it fails: a step, or none where it ends the section.
fn step_line(text: &[u8]) -> Result<Option<OrderStep>, Reason>
    ensures { part_of result ≡ order_word (line.at_space text.now).0 (line.at_space text.now).1 }
{
    let (word, fields) = at_space(text);
    if is_word(word, "s") {
        session_step(fields)
    } else if is_word(word, "v") {
        vcpu_step(fields)
    } else if is_word(word, "q") {
        queue_step(fields)
    } else if is_word(word, "end") {
        end_line(fields)
    } else {
        Err(Reason::UnknownWord)
    }
}

fn session_step(fields: Option<&[u8]>) -> Result<Option<OrderStep>, Reason>
    ensures { part_of result ≡ number_line OrderStep.Session (option_map (λ s. s.now) fields.entry) }
{
    match number(fields) {
        Ok(number) => Ok(Some(OrderStep::Session(number))),
        Err(reason) => Err(reason),
    }
}

fn vcpu_step(fields: Option<&[u8]>) -> Result<Option<OrderStep>, Reason>
    ensures { part_of result ≡ number_line OrderStep.Vcpu (option_map (λ s. s.now) fields.entry) }
{
    match number(fields) {
        Ok(number) => Ok(Some(OrderStep::Vcpu(number))),
        Err(reason) => Err(reason),
    }
}

// The one field, as a number.
fn number(fields: Option<&[u8]>) -> Result<u64, Reason>
    ensures ok { IfOk result (λ n. (make : ℕ → Step) → number_line make (option_map (λ s. s.now) fields.entry) ≡ Ok (Has (make n))) }
    ensures err { IfErr result (λ reason. (make : ℕ → Step) → number_line make (option_map (λ s. s.now) fields.entry) ≡ Err reason) }
{
    let Some(field) = fields else {
        return Err(Reason::FieldCount);
    };
    if has_space(field) {
        return Err(Reason::FieldCount);
    }
    match read_dec(field) {
        Some(number) => Ok(number),
        None => Err(Reason::BadNumber),
    }
}

fn queue_step(fields: Option<&[u8]>) -> Result<Option<OrderStep>, Reason>
    ensures { part_of result ≡ line.queue_line (option_map (λ s. s.now) fields.entry) }
{
    match fields {
        None => Ok(Some(OrderStep::Queue)),
        Some(_) => Err(Reason::FieldCount),
    }
}
