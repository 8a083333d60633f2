//! Sets of ranges by classes, each made once.
ghost use Rattle.std.specs.Prelude.{IfOk, OnOk};
ghost use Rattle.std.specs.HashMap.{values};
ghost use Rattle.std.specs.List.{All};
ghost use Rattle.std.specs.Rc.{rc_value};
ghost use Rattle.rbbi_resolve.specs.inner.ClassValues.{IsDivided, AreSame};

use crate::properties::{are_same, hash_of};
use indexmap::IndexMap;
use rbbi_classes::{ClassSet, Layout};
use rbbi_sets::CodeSet;
use std::alloc::{AllocError, Global};
use std::rc::Rc;

/// A set of ranges, and the same set by classes.
#[derive(Drop)]
pub(crate) struct Divided {
    set: Rc<Option<CodeSet>>,
    classes: Rc<Option<ClassSet>>,
}

/// The set by classes, which is taken from those made before, where it is there.
pub(crate) fn divide_once(
    alloc: Global,
    layout: &Layout,
    divided: &mut IndexMap<u64, Divided>,
    set: &Rc<Option<CodeSet>>,
) -> Result<Rc<Option<ClassSet>>, AllocError>
    requires { All (IsDivided layout.now) (values divided.old) }
    ensures divided { OnOk result (All (IsDivided layout.now) (values divided.new)) }
    ensures classes { IfOk result (λ classes.
        AreSame layout.now (rc_value set.now) (rc_value classes)) }
{
    let hash = hash_of(set.as_ref());
    if let Some(before) = divided.get(&hash) {
        if are_same(before.set.as_ref(), set.as_ref()) {
            return Ok(before.classes.clone()?);
        }
    }
    let classes = Rc::new(alloc, divide(alloc, layout, set.as_ref())?)?;
    let made = Divided {
        set: set.clone()?,
        classes: classes.clone()?,
    };
    divided.insert(hash, made)?;
    Ok(classes)
}

/// The set by classes, where it is there.
pub(crate) fn divide(
    alloc: Global,
    layout: &Layout,
    set: &Option<CodeSet>,
) -> Result<Option<ClassSet>, AllocError>
    ensures { IfOk result (λ classes. AreSame layout.now set.now classes) }
{
    let Some(set) = set else {
        return Ok(None);
    };
    let classes = ClassSet::of_set(alloc, layout, set)?;
    Ok(Some(classes))
}
