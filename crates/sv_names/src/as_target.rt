// What an expression is as a target (IEEE 1800-2017, 10.3 and 10.4).
ghost use Rattle.std.specs.Prelude.{◌≡◌, is_some, IfOk, IfSome, IfNone};
ghost use Rattle.sv_names.specs.declared.typed.Begin.TheVariants.{Value};
ghost use Rattle.sv_names.specs.Values.{no_target};

use crate::ty::Ty;
use crate::typed::{Begin, Target};
use std::alloc::Global;
use std::marker::Model;
use sv_flat::Base;
use sv_value::{NoMemory, ObjId, Place, Seq};

/// What an expression is as a target. Most are none; what one needs that is some stands in memory of its own, so that an expression
/// with its type is small.
#[derive(Drop)]
pub struct AsTarget {
    kept: Option<Box<Target>>,
}

impl Model for AsTarget {
    ghost use Rattle.std.specs.Coded.{codes};
    ghost use Rattle.sv_flat.specs.contracts.expr.Expr as expr;
    ghost use Rattle.sv_names.specs.declared.typed.Target.{Target};

    ghost Value = { Target };

    ghost coded = { Prim.hlevel (codes, expr.the_row.coded) };

    ghost use Rattle.sv_names.specs.AsTarget.{target_in};

    ghost view = { λ t. target_in t.kept };
}

impl AsTarget {
    /// No target.
    pub fn none() -> Self
        ensures { result ≡ no_target }
    {
        AsTarget { kept: None }
    }

    /// This target.
    pub fn new(alloc: Global, target: Target) -> Result<Self, NoMemory>
        ensures { IfOk result (λ t. t ≡ target) }
    {
        let target = Box::new(alloc, target)?;
        Ok(AsTarget { kept: Some(target) })
    }

    /// The target, where it is one.
    pub fn get(&self) -> Option<&Target>
        ensures some { IfSome result (λ t. t.now ≡ self.now) }
        ensures none { IfNone result (self.now ≡ no_target) }
    {
        match &self.kept {
            Some(target) => Some(target),
            None => None,
        }
    }

    /// What it begins with, where it is one.
    pub fn begins(&self) -> Option<&Begin>
        ensures some { IfSome result (λ b. b.now ≡ self.now.begins) }
        ensures none { IfNone result (self.now.begins ≡ Value) }
    {
        match &self.kept {
            Some(target) => Some(&target.begins),
            None => None,
        }
    }

    /// What it is, in a box: where it is none, that is a target that nothing may write.
    pub fn into_box(self, alloc: Global) -> Result<Box<Target>, NoMemory>
        ensures { IfOk result (λ t. t.value ≡ self) }
    {
        match self.kept {
            Some(target) => Ok(target),
            None => {
                let target = Box::new(alloc, nothing(alloc))?;
                Ok(target)
            }
        }
    }

    /// The target in a box.
    pub fn from_box(target: Box<Target>) -> Self
        ensures { result ≡ target.value }
    {
        AsTarget { kept: Some(target) }
    }

    /// Whether it is an item of a container.
    pub fn is_item(&self) -> bool
        ensures { result ≡ self.now.is_item }
    {
        match &self.kept {
            Some(target) => target.is_item,
            None => false,
        }
    }

    /// Whether a part of it is written.
    pub fn has_part(&self) -> bool
        ensures { result ≡ is_some self.now.part }
    {
        match &self.kept {
            Some(target) => target.part.is_some(),
            None => false,
        }
    }

    /// The places of its selects that are not constant.
    pub fn moving(&self) -> &[Place]
        ensures { result.now ≡ self.now.moving }
    {
        match &self.kept {
            Some(target) => target.moving.as_slice(),
            None => &[],
        }
    }
}

/// What no target is seen as.
fn nothing(alloc: Global) -> Target
    ensures { result ≡ no_target }
{
    Target {
        begins: Begin::Value,
        through: None,
        base: Base::Object(ObjId(0)),
        part: None,
        whole: Ty::Text,
        is_item: false,
        moving: Seq::new(alloc),
    }
}
