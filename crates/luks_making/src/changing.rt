//! Values whose members are edited in place: no other copy of them lives meanwhile.

ghost use Rattle.std.specs.Prelude.{◌≡◌, Some, option_map, IfOk, IsNone, OnOk};
ghost use Rattle.serde_json.specs.Data.{Data, null};
ghost use Rattle.serde_json.specs.Find.{get};
ghost use Rattle.serde_json.specs.View.{view};
ghost use Rattle.luks_making.specs.Changing.{at_member, set_member};

use serde_json::Value;
use std::alloc::{AllocError, Global};

/// Takes the member of that name out, if there is one, and leaves null in its place.
pub(crate) fn take_member(object: &mut Value, name: &str) -> Option<Value>
    ensures taken { option_map view result ≡ get name.now (view object.old) }
    ensures left { view object.new ≡ set_member name.now null (view object.old) }
    ensures none { IsNone result → (f : Data → Data)
        → view object.new ≡ at_member name.now f (view object.old) }
{
    let member = object.as_object_mut()?.get_mut(name)?;
    Some(member.take())
}

/// The object with the value in the place of the member of that name, which was taken out.
pub(crate) fn with_member(
    alloc: Global,
    mut object: Value,
    name: &str,
    value: Value,
) -> Result<Value, AllocError>
    ensures { (f : Data → Data) (j d : Data) → view object ≡ set_member name.now null j
        → Some d ≡ get name.now j → view value ≡ f d
        → IfOk result (λ v. view v ≡ at_member name.now f j) }
{
    change_member(alloc, &mut object, name, value)?;
    Ok(object)
}

/// The object with the value in the place of its member of that name, if there is one.
pub(crate) fn set_member(
    alloc: Global,
    mut object: Value,
    name: &str,
    value: Value,
) -> Result<Value, AllocError>
    ensures { IfOk result (λ v. view v ≡ set_member name.now (view value) (view object)) }
{
    match object.get(name) {
        Some(_) => {
            change_member(alloc, &mut object, name, value)?;
            Ok(object)
        }
        None => Ok(object),
    }
}

/// Puts the value in the place of the member of that name.
fn change_member(
    alloc: Global,
    object: &mut Value,
    name: &str,
    value: Value,
) -> Result<(), AllocError>
    ensures { (f : Data → Data) (d : Data)
        → get name.now (view object.old) ≡ Some d → view value ≡ f d
        → OnOk result (view object.new ≡ at_member name.now f (view object.old)) }
{
    if let Some(members) = object.as_object_mut() {
        members.insert(String::from_str(alloc, name)?, value)?;
    }
    Ok(())
}
