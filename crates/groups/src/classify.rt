// What kind of elements a group holds, by its first byte.
ghost use Rattle.std.specs.Prelude.{◌≡◌};
ghost use Rattle.groups.specs.Classify.{block_type, kind_number};

use fields::schema::primitive_group::{DENSE, NODE, RELATION, WAY};

#[derive(Clone, Copy)]
pub enum BlockType {
    Empty = 0,
    Nodes = 1,
    DenseNodes = 2,
    Ways = 3,
    Relations = 4,
    Mixed = 5,
}

// The number of a group's kind, by which C knows it.
impl From<BlockType> for u64 {
    ghost from_gives = { λ kind n. n ≡ kind_number kind };

    fn from(kind: BlockType) -> u64 {
        kind as u64
    }
}

// The group's kind: none of its bytes is Empty; a first byte that is no tag of wire type 2 with field 1 to 4 is Mixed.
pub fn classify_group(group: &[u8]) -> BlockType
    ensures { result ≡ block_type group.now }
{
    let Some(tag) = group.first() else {
        return BlockType::Empty;
    };
    match *tag as u32 {
        NODE => BlockType::Nodes,
        DENSE => BlockType::DenseNodes,
        WAY => BlockType::Ways,
        RELATION => BlockType::Relations,
        _ => BlockType::Mixed,
    }
}
