// What has a JSON value.
ghost use Rattle.std.specs.Prelude.{◌≡◌, IfOk, OnOk, ◌++◌, ◌∷◌, [], map};
ghost use Rattle.serde_json.specs.Data.{Data, boolean, string, put as with_member};
ghost use Rattle.serde_json.specs.View.{view, members_view};
ghost use Rattle.chv_defs_api.specs.JsonTexts.{array_of, whole};

use chv_defs_base::Text;
use serde_json::{Map, Value};
use std::alloc::{AllocError, Global};

/// What is written as one JSON value.
pub(crate) trait ToJson {
    /// The value.
    ghost json: { Self → Data };

    fn to_json(&self, alloc: Global) -> Result<Value, AllocError>
        ensures { IfOk result (λ v. view v ≡ json self.now) };
}

/// An array of the values of some items, in their order.
pub(crate) fn array<T: ToJson>(alloc: Global, items: &[T]) -> Result<Value, AllocError>
    ensures { IfOk result (λ v. view v ≡ array_of T.json items.now) }
{
    let mut values = Vec::new(alloc);
    for item in items {
        push(&mut values, alloc, item)?;
    }
    Ok(Value::Array(values))
}

fn push<T: ToJson>(values: &mut Vec<Value>, alloc: Global, item: &T) -> Result<(), AllocError>
    ensures { OnOk result (map view values.new.items ≡ map view values.old.items ++ T.json item.now ∷ []) }
{
    let value = item.to_json(alloc)?;
    values.push(value)?;
    Ok(())
}

/// The object with one member more: a value at a key.
pub(crate) fn with_value(
    mut object: Map<String, Value>,
    alloc: Global,
    key: &str,
    value: Value,
) -> Result<Map<String, Value>, AllocError>
    ensures { IfOk result (λ more. members_view more.entries ≡ with_member key.now (view value) (members_view object.entries)) }
{
    serde_json::put(&mut object, alloc, key, value)?;
    Ok(object)
}

/// The same, with the value of something.
pub(crate) fn with<T: ToJson>(
    object: Map<String, Value>,
    alloc: Global,
    key: &str,
    item: &T,
) -> Result<Map<String, Value>, AllocError>
    ensures { IfOk result (λ more. members_view more.entries ≡ with_member key.now (T.json item.now) (members_view object.entries)) }
{
    let value = item.to_json(alloc)?;
    with_value(object, alloc, key, value)
}

/// The same, with an array of the values of some items.
pub(crate) fn with_all<T: ToJson>(
    object: Map<String, Value>,
    alloc: Global,
    key: &str,
    items: &[T],
) -> Result<Map<String, Value>, AllocError>
    ensures { IfOk result (λ more. members_view more.entries ≡ with_member key.now (array_of T.json items.now) (members_view object.entries)) }
{
    let value = array(alloc, items)?;
    with_value(object, alloc, key, value)
}

impl ToJson for u8 {
    ghost json = { whole };

    fn to_json(&self, _alloc: Global) -> Result<Value, AllocError> {
        Ok(Value::from(*self))
    }
}

impl ToJson for u64 {
    ghost json = { whole };

    fn to_json(&self, _alloc: Global) -> Result<Value, AllocError> {
        Ok(Value::from(*self))
    }
}

impl ToJson for bool {
    ghost json = { boolean };

    fn to_json(&self, _alloc: Global) -> Result<Value, AllocError> {
        Ok(Value::from(*self))
    }
}

impl ToJson for Text {
    ghost json = { string };

    fn to_json(&self, alloc: Global) -> Result<Value, AllocError> {
        Value::try_from_str(alloc, self.as_str())
    }
}
