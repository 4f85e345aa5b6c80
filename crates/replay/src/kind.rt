// The kinds of question, each by its name in a line of the list.
use std::fmt;

#[derive(Clone, Copy, Debug, PartialEq, Eq)]
pub(crate) enum Kind {
    Varint,
    Field,
    Column,
    Scan,
    Get,
    Group,
    Classify,
    Node,
    Way,
    Relation,
    Dense,
    DenseInfo,
    Info,
    DensePass,
    Messages,
    Check,
}

// A word that names no kind.
#[derive(Clone, Copy, Debug, PartialEq, Eq)]
pub(crate) struct NoKind;

impl Kind {
    pub(crate) const ALL: [Kind; 16] = [
        Kind::Varint,
        Kind::Field,
        Kind::Column,
        Kind::Scan,
        Kind::Get,
        Kind::Group,
        Kind::Classify,
        Kind::Node,
        Kind::Way,
        Kind::Relation,
        Kind::Dense,
        Kind::DenseInfo,
        Kind::Info,
        Kind::DensePass,
        Kind::Messages,
        Kind::Check,
    ];

    fn name(self) -> &'static str {
        match self {
            Kind::Varint => "varint",
            Kind::Field => "field",
            Kind::Column => "column",
            Kind::Scan => "scan",
            Kind::Get => "get",
            Kind::Group => "group",
            Kind::Classify => "classify",
            Kind::Node => "node",
            Kind::Way => "way",
            Kind::Relation => "relation",
            Kind::Dense => "dense",
            Kind::DenseInfo => "denseinfo",
            Kind::Info => "info",
            Kind::DensePass => "densepass",
            Kind::Messages => "messages",
            Kind::Check => "check",
        }
    }

    // How many numbers a question has.
    pub(crate) fn numbers(self) -> usize {
        match self {
            Kind::Varint | Kind::Field | Kind::Messages => 1,
            Kind::Scan => 2,
            Kind::Get => 3,
            Kind::Group => 6,
            _ => 0,
        }
    }

    // Whether it is on a block, which is scanned and so stands at the start of its buffer.
    pub(crate) fn is_on_block(self) -> bool {
        match self {
            Kind::Scan | Kind::Check => true,
            _ => false,
        }
    }
}

impl fmt::Display for Kind {
    fn fmt<W: fmt::Write>(&self, f: &mut fmt::Formatter<W>) -> fmt::Result {
        f.write_str(self.name())
    }
}

impl TryFrom<&[u8]> for Kind {
    type Error = NoKind;

    fn try_from(name: &[u8]) -> Result<Kind, NoKind> {
        for kind in Kind::ALL {
            if kind.name().as_bytes() == name {
                return Ok(kind);
            }
        }
        Err(NoKind)
    }
}
