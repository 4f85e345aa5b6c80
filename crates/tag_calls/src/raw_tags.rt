// The tags of an element as pairs of numbers, called through C.
ghost use lib.Dec.{lit≤};
ghost use Rattle.elements.specs.declared.tags.RawTag.{RawTag};
ghost use Rattle.elements.specs.Tags.{raw_tags_from};
ghost use Rattle.tag_calls.specs.Tags.{raw_tag_item};

use crate::tags::TagState;
use answers::codes::Stop;
use answers::words::put_at;
use calls::items::Items;
use elements::tags::TagIter;
use fields::step::Step;

// Pairs of a key's and a value's number.
pub struct RawTags;

impl Items<TagState> for RawTags {
    type Opened = ();

    const SIZE: usize = 16;

    ghost SIZE = { 16 };

    ghost Item = { RawTag };

    ghost Put = { RawTag };

    ghost shows = { λ s tag. tag };

    ghost words = { raw_tag_item };

    ghost from = { λ s none. raw_tags_from s };

    fn put_one(
        buffer: &[u8],
        _opened: (),
        state: TagIter,
        out: &mut [u8],
        at: usize,
    ) -> Result<TagIter, Stop> {
        let Step { said, next } = state.step_raw(buffer);
        let Some(tag) = said? else {
            return Err(Stop::Ended);
        };
        put_at(out, at, &[tag.key, tag.value]);
        Ok(next)
    }

    ghost small = { λ tag. lit≤ tt };
}
