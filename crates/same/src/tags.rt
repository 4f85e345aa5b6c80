// The tags of two elements in step, by their texts.
ghost use Rattle.std.specs.Prelude.{◌≡◌};
ghost use Rattle.elements.specs.declared.tags.Tag.{Tag as Shows};
ghost use Rattle.elements.specs.Tags.{tags_from};
ghost use Rattle.walk.specs.Same.{same_tag};
ghost use Rattle.same.specs.Tags.{TagStands, same_texts};

use crate::streams::Stream;
use crate::texts::same_text;
use elements::tags::{Tag, TagIter};
use fields::step::Step;
use protobuf::refusal::Refusal;
use wire::record::WireBlock;

// Whether two tags have the same key and the same value, where their texts stand inside.
fn same_tag(first: &[u8], x: Tag, second: &[u8], y: Tag) -> bool
    requires { TagStands first.now x × TagStands second.now y }
    ensures { result ≡ same_texts first.now second.now x y }
{
    if !same_text(first, x.key, second, y.key) {
        return false;
    }
    same_text(first, x.value, second, y.value)
}

// Tags are compared by their texts, which stand inside, as a lookup gave them.
impl Stream for TagIter {
    type Item = Tag;

    ghost Shown = { Shows };

    ghost shown = { λ s t. t };

    ghost from = { tags_from };

    ghost same = { same_tag };

    ghost stands = { λ s r t. TagStands s t };

    fn step(self, buffer: &[u8], block: WireBlock) -> Step<Tag, TagIter> {
        self.step(buffer, block)
    }

    fn same(
        first: &[u8],
        _a: WireBlock,
        x: Tag,
        second: &[u8],
        _b: WireBlock,
        y: Tag,
    ) -> Result<bool, Refusal> {
        Ok(same_tag(first, x, second, y))
    }
}
