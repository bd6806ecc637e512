//! Sets of tags, in their order.

ghost use Rattle.std.specs.Prelude.{◌≡◌, not, filter, IfOk};
ghost use Rattle.bug_record.specs.Tags.{without_tag};

use crate::tag::Tag;
use base_sequences::Sequence;
use std::alloc::AllocError;

/// A set of tags, kept in their order.
pub type Tags = Sequence<Tag>;

/// Takes the tag out.
pub fn remove_tag(tags: &mut Tags, tag: Tag)
    ensures { tags.new ≡ without_tag tags.old tag }
{
    tags.retain(|other| tag.place() != other.place());
}

/// An equal list of its own.
/// It answers out of memory where there is none for the list.
pub fn copy_tags(tags: &Tags) -> Result<Tags, AllocError>
    ensures { IfOk result (λ r. r ≡ tags.now) }
{
    Ok(Sequence::from_vec(Vec::from_slice(tags.allocator(), tags.as_slice())?))
}
