// Values as JSON: a number, an array, or a string for a reference.

ghost use Rattle.std.specs.Prelude.{◌≡◌, IfOk};
ghost use Rattle.serde_json.specs.Data.{array};
ghost use Rattle.serde_json.specs.View.{view, items_view};
ghost use Rattle.values.specs.Values.{value_of};
ghost use Rattle.report_json.specs.Values.{id_data, value_data};

use ids::ObjectId;
use serde_json::Value;
use std::alloc::{AllocError, Global};
use values::RunValue;

/// An object as a string, such as `"o1.2"`.
pub fn id_json(alloc: Global, object: ObjectId) -> Result<Value, AllocError>
    ensures { IfOk result (λ v. view v ≡ id_data object) }
{
    let text = format!(in alloc; "{object}")?;
    Ok(Value::String(text))
}

/// The items as a JSON array, in their order.
pub fn array_of(items: Vec<Value>) -> Value
    ensures { view result ≡ array (items_view items.items) }
{
    Value::Array(items)
}

/// A value: a number, an array, or a reference as the string of its object.
pub fn value_json(alloc: Global, value: &RunValue) -> Result<Value, AllocError>
    ensures { IfOk result (λ v. view v ≡ value_data (value_of value.now)) }
{
    match value {
        RunValue::Int(number) => Ok(Value::from(*number)),
        RunValue::Id(object) => id_json(alloc, *object),
        RunValue::List(items) => {
            let mut all = Vec::new(alloc);
            for item in items {
                all.push(value_json(alloc, item)?)?;
            }
            Ok(array_of(all))
        }
    }
}
