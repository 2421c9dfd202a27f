//! The attributes of a tag, as a builder keeps them and a sink is given them. Lists of them are such.
use markup5ever::interface::Attribute;
use std::alloc::{AllocError, Allocator};
use tree_construction::kinds::{Kind, Namespace};
use tree_names::{adjusting, attributes};

/// The attributes of a start tag.
pub trait TagAttributes: Drop {
    ghost use Rattle.std.specs.Prelude.{◌≡◌, List, IfOk, OnOk, option_map};
    ghost use Rattle.markup5ever.specs.Names.{AttributeOf};
    ghost use Rattle.tree_construction.specs.Adjusting.{adjusted_attributes};
    ghost use Rattle.tree_construction.specs.Formatting.{has_same_attributes};
    ghost use Rattle.tree_construction.specs.Names.{math_kind_of};
    ghost use Rattle.tree_construction.specs.Tokens.{value_of};

    ghost said: { Self → List AttributeOf };

    /// Whether both have the same attributes, in whatever order.
    fn is_same(&self, other: &Self) -> bool
        ensures { result ≡ has_same_attributes (said self.now) (said other.now) };

    /// The same attributes again.
    fn share(&self) -> Result<Self, AllocError>
        ensures { IfOk result (λ other. said other ≡ said self.now) };

    /// The value of the attribute of a name.
    fn value_of(&self, name: &str) -> Option<&str>
        ensures { option_map (λ value. value.now) result ≡ value_of name.now (said self.now) };

    /// Gives the attributes the names that they have in a namespace: "adjust MathML attributes", "adjust SVG attributes",
    /// "adjust foreign attributes".
    fn adjust(&mut self, namespace: Namespace) -> Result<(), AllocError>
        ensures { OnOk result (said self.new ≡ adjusted_attributes namespace (said self.old)) };

    /// The kind of an element of MathML that has them.
    fn math_kind(&self, name: &str) -> Kind
        ensures { result ≡ math_kind_of name.now (said self.now) };
}

/// A list means its attributes in order.
impl<A: Allocator + Copy> TagAttributes for Vec<Attribute<A>, A> {
    ghost use Rattle.std.specs.Prelude.{map};
    ghost use Rattle.markup5ever.specs.Names.{attribute_of};

    ghost said = { λ attributes. map attribute_of attributes.items };

    fn is_same(&self, other: &Self) -> bool {
        attributes::has_same_attributes(self, other)
    }

    fn share(&self) -> Result<Self, AllocError> {
        attributes::clone_attributes(self)
    }

    fn value_of(&self, name: &str) -> Option<&str> {
        attributes::value_of(self, name)
    }

    fn adjust(&mut self, namespace: Namespace) -> Result<(), AllocError> {
        adjusting::adjust_attributes(self, namespace)
    }

    fn math_kind(&self, name: &str) -> Kind {
        adjusting::math_kind(name, self)
    }
}
