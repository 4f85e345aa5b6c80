// The kinds of an element, by their numbers through C.
ghost use Rattle.std.specs.Prelude.{◌≡◌};
ghost use Rattle.start_calls.specs.Kind.{kind_of};

use protobuf::refusal::Refusal;

#[derive(Clone, Copy, Debug, PartialEq, Eq)]
pub enum ElementKind {
    DenseNode,
    Node,
    Way,
    Relation,
}

impl TryFrom<u64> for ElementKind {
    type Error = Refusal;

    ghost try_from_gives = { λ n kind. kind ≡ kind_of n };

    fn try_from(n: u64) -> Result<ElementKind, Refusal> {
        match n {
            0 => Ok(ElementKind::DenseNode),
            1 => Ok(ElementKind::Node),
            2 => Ok(ElementKind::Way),
            3 => Ok(ElementKind::Relation),
            _ => Err(Refusal::Outside),
        }
    }
}
