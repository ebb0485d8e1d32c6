// What is read from a JSON value.
ghost use Rattle.std.specs.Prelude.{◌≡◌, Result};
ghost use Rattle.serde_json.specs.Data.{Data};
ghost use Rattle.serde_json.specs.View.{view, items_view};
ghost use Rattle.chv_defs_base.specs.declared.rule.Rule.{Rule};
ghost use Rattle.chv_defs_api.specs.JsonBodies as bodies;
ghost use Rattle.chv_json.specs.Gives.{Gives};

use crate::fields::field;
use crate::refused::Refused;
use chv_defs_base::{Row, Rule};
use serde_json::Value;
use std::alloc::Global;

/// What a JSON value may mean.
pub(crate) trait FromJson {
    /// What a value means, or the first rule that it breaks.
    ghost meaning: { Data → Result Self Rule };

    fn from_json(alloc: Global, value: &Value) -> Result<Self, Refused>
        ensures { Gives (λ x. x) result (meaning (view value.now)) };
}

/// What each item of a list means, up to the first that breaks a rule.
fn each<T: FromJson + Drop>(alloc: Global, items: &[Value]) -> Result<Row<T>, Refused>
    ensures { Gives (λ x. x) result (bodies.each T.meaning (items_view items.now)) }
{
    let mut found = Row::empty(alloc);
    for item in items {
        let value = T::from_json(alloc, item)?;
        found.push(value)?;
    }
    Ok(found)
}

/// A list, which is empty where it is absent.
pub(crate) fn list_of<T: FromJson + Drop>(
    alloc: Global,
    object: &Value,
    key: &str,
) -> Result<Row<T>, Refused>
    ensures { Gives (λ x. x) result (bodies.list_of T.meaning key.now (view object.now)) }
{
    match field(object, key) {
        Some(value) => match value.as_array() {
            Some(items) => each(alloc, items.as_slice()),
            None => Err(Refused::Broken(Rule::NotList)),
        },
        None => Ok(Row::empty(alloc)),
    }
}
